//! What is told of bytes that are no JSON text: where reading stops, what might have stood there, and what does. Where
//! a part of a value stands in its text, and the parts of sentences that are told of jobs.
//!
//! What may stand at a place of a job, or of what another command reads: the members of its objects and the items of
//! its lists, whether a value spells it, and it in words.
#![tactic(auto)]

mod bad_text;
mod expected;
mod hints;
mod literals;
mod near;
mod offset;
mod place;
mod reading_stop;
mod spelled;
mod steps;
mod string_stop;
mod want;
mod words;

pub use bad_text::bad_json;
pub use expected::push_expected;
pub use hints::{push_hint, push_nearest};
pub use literals::Literal;
pub use near::{distance, is_near, nearest};
pub use offset::offset_of;
pub use place::push_place;
pub use spelled::{is_cell, is_spelled};
pub use steps::{Step, copies, push_steps};
pub use want::{
    FORMS, Foreign, Member, TYPES, Want, couple_wants, form, item_want, members_of, type_named,
};
pub use words::{
    push_count, push_field, push_fields, push_name, push_quoted, push_words, type_word,
};
