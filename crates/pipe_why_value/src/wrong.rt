//! What is wrong at a place of a value.

use pipe_schema::DataType;
use pipe_why_text::{Member, Step, Want};

/// What is wrong at a place.
#[derive(Drop)]
pub enum Wrong {
    /// Something else stands there than may.
    Other(Want),
    /// The object there lacks a member.
    Missing(&'static str, Want),
    /// The member isn't one of these.
    Unknown(&'static [Member]),
    /// The one member of an expression is none of the forms.
    UnknownForm,
    /// An expression hasn't one member, but so many.
    Members(usize),
    /// A cell of a column, the first of so many bad ones.
    Cell {
        dtype: DataType,
        column: String,
        count: usize,
    },
    /// A type that version 1 doesn't have.
    Wide,
    /// A frame without a column.
    NoColumns,
    /// A column of a name that an earlier one has.
    SecondName(usize),
    /// A column of so many cells, where others have another count.
    Height {
        cells: usize,
        wanted: usize,
    },
    /// So many frames, where two are wanted.
    Frames(usize),
    /// An edit of so many parts, where three are wanted.
    Parts(usize),
    /// A row of so many cells, of a table of so many columns.
    Width {
        cells: usize,
        columns: usize,
    },
}

/// A place and what is wrong there.
#[derive(Drop)]
pub struct Misfit {
    /// The steps from the whole to the place.
    pub steps: Vec<Step>,
    pub wrong: Wrong,
    /// Whether a member on the way there stands twice, of which the last one counts.
    pub is_repeated: bool,
}

/// The places at which something else stands than may.
#[derive(Drop)]
pub struct Misfits {
    /// The first one in the order of the text.
    pub first: Option<Misfit>,
    /// How many there are.
    pub found: usize,
}
