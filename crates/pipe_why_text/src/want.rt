//! What may stand at a place of a job, or of what another command reads: one of these for each part of its spelling.

ghost use Rattle.std.specs.Prelude.{◌≡◌, Option, Some, false, IfNone, IfSome};
ghost use Rattle.pipe_job.specs.Shape.{contains_text, type_named};
ghost use Rattle.pipe_why_text.specs.Members.{beside, couple_items, form_table, list_item, members_in, node_table, object_table, table_of, want_in};
ghost use Rattle.pipe_schema.specs.declared.data_type.DataType.{DataType};
ghost use Rattle.pipe_why_text.specs.Wanted.{form_words};

use pipe_schema::DataType;

/// What may stand at a place of what another command reads, where no part of a job may.
#[derive(Clone, Copy, Debug, PartialEq, Eq)]
pub enum Foreign {
    /// Two tables, a key and the numbers of a run.
    Reconciliation,
    /// Two tables, their join, a limit and edits of them.
    Replay,
    TwoFrames,
    /// The join of the two tables, as a node.
    KeptJoin,
    /// The word of a join's kind.
    JoinWord,
    /// The number of the left table.
    LeftTable,
    /// The number of the right table.
    RightTable,
    Edits,
    Edit,
    /// The word of the side that is edited.
    Side,
    /// The word of what an edit does.
    Word,
    Row,
}

/// What may stand at a place.
#[derive(Clone, Copy, Debug, PartialEq, Eq)]
pub enum Want {
    Job,
    Version,
    Whole32,
    Whole64,
    MaybeWhole64,
    Signed64,
    Truth,
    Text,
    Frames,
    Frame,
    Columns,
    Column,
    Type,
    Cells(DataType),
    Cell(DataType),
    Nodes,
    Node,
    /// The word of a node's kind.
    Kind,
    How,
    Coalesce,
    /// A known size and an estimate.
    Hint,
    /// Null, or an offset and a length.
    Slice,
    Texts,
    MaybeTexts,
    Truths,
    Numbers,
    Expr,
    /// The two sides of an operator.
    Sides,
    Literal,
    Exprs,
    NamedExpr,
    NamedExprs,
    Pair,
    Pairs,
    /// A part of what another command reads.
    Foreign(Foreign),
}

/// The name of a member, and what its value may be.
pub type Member = (&'static str, Want);

/// The words of the kinds of nodes.
pub const KINDS: &[&str] = &[
    "DataFrameScan",
    "Filter",
    "SimpleProjection",
    "Select",
    "HStack",
    "Unpivot",
    "Rename",
    "Union",
    "Join",
    "Sort",
];

/// The words of the kinds of joins.
pub const HOWS: &[&str] = &["inner", "left", "full", "cross", "semi", "anti"];

/// The words of what becomes of key columns.
pub const COALESCES: &[&str] = &["JoinSpecific", "CoalesceColumns", "KeepColumns"];

/// The words of types.
pub const TYPES: &[&str] = &[
    "Int32", "Int64", "UInt32", "UInt64", "Boolean", "String", "Binary", "Int128",
];

/// The words of the sides that are edited.
pub const SIDES: &[&str] = &["left", "right"];

/// The words of what an edit does.
pub const EDITS: &[&str] = &["insert", "remove"];

/// The names of the one member of an expression.
pub const FORMS: &[&str] = &[
    "col",
    "lit",
    "add",
    "sub",
    "mul",
    "eq",
    "not_eq",
    "lt",
    "lt_eq",
    "gt",
    "gt_eq",
    "and",
    "or",
    "not",
    "is_null",
    "is_not_null",
];

const JOB: &[Member] = &[
    ("version", Want::Version),
    ("workers", Want::Whole32),
    ("chunk_rows", Want::Whole32),
    ("row_limit", Want::Whole32),
    ("frames", Want::Frames),
    ("plan", Want::Nodes),
    ("root", Want::Whole32),
];

/// The one member of an expression.
const FORM: &[Member] = &[
    ("col", Want::Text),
    ("lit", Want::Literal),
    ("not", Want::Expr),
    ("is_null", Want::Expr),
    ("is_not_null", Want::Expr),
    ("add", Want::Sides),
    ("sub", Want::Sides),
    ("mul", Want::Sides),
    ("eq", Want::Sides),
    ("not_eq", Want::Sides),
    ("lt", Want::Sides),
    ("lt_eq", Want::Sides),
    ("gt", Want::Sides),
    ("gt_eq", Want::Sides),
    ("and", Want::Sides),
    ("or", Want::Sides),
];

const RECONCILIATION: &[Member] = &[
    ("version", Want::Version),
    ("workers", Want::Whole32),
    ("chunk_rows", Want::Whole32),
    ("row_limit", Want::Whole32),
    ("frames", Want::Foreign(Foreign::TwoFrames)),
    ("on", Want::Texts),
    ("join_nulls", Want::Truth),
];

const REPLAY: &[Member] = &[
    ("version", Want::Version),
    ("row_limit", Want::Whole32),
    ("frames", Want::Foreign(Foreign::TwoFrames)),
    ("join", Want::Foreign(Foreign::KeptJoin)),
    ("edits", Want::Foreign(Foreign::Edits)),
];

const FRAME: &[Member] = &[("columns", Want::Columns)];

const LITERAL: &[Member] = &[("type", Want::Type), ("value", Want::Cell(DataType::Int64))];

const NAMED_EXPR: &[Member] = &[("name", Want::Text), ("expr", Want::Expr)];

const PAIR: &[Member] = &[("existing", Want::Text), ("new", Want::Text)];

const COLUMN: &[Member] = &[
    ("name", Want::Text),
    ("type", Want::Type),
    ("values", Want::Cells(DataType::Int64)),
];

const SCAN: &[Member] = &[
    ("node", Want::Kind),
    ("frame", Want::Whole32),
    ("columns", Want::MaybeTexts),
];

const FILTER: &[Member] = &[
    ("node", Want::Kind),
    ("input", Want::Whole32),
    ("predicate", Want::Expr),
];

const PROJECTION: &[Member] = &[
    ("node", Want::Kind),
    ("input", Want::Whole32),
    ("columns", Want::Texts),
];

const EXPRS: &[Member] = &[
    ("node", Want::Kind),
    ("input", Want::Whole32),
    ("exprs", Want::NamedExprs),
];

const UNPIVOT: &[Member] = &[
    ("node", Want::Kind),
    ("input", Want::Whole32),
    ("on", Want::Texts),
    ("index", Want::Texts),
    ("variable", Want::Text),
    ("value", Want::Text),
];

const RENAME: &[Member] = &[
    ("node", Want::Kind),
    ("input", Want::Whole32),
    ("pairs", Want::Pairs),
];

const UNION: &[Member] = &[("node", Want::Kind), ("inputs", Want::Numbers)];

const JOIN: &[Member] = &[
    ("node", Want::Kind),
    ("left", Want::Whole32),
    ("right", Want::Whole32),
    ("left_on", Want::Exprs),
    ("right_on", Want::Exprs),
    ("how", Want::How),
    ("join_nulls", Want::Truth),
    ("coalesce", Want::Coalesce),
    ("suffix", Want::Text),
    ("rows_left", Want::Hint),
    ("rows_right", Want::Hint),
];

const KEPT_JOIN: &[Member] = &[
    ("node", Want::Foreign(Foreign::JoinWord)),
    ("left", Want::Foreign(Foreign::LeftTable)),
    ("right", Want::Foreign(Foreign::RightTable)),
    ("left_on", Want::Exprs),
    ("right_on", Want::Exprs),
    ("how", Want::How),
    ("join_nulls", Want::Truth),
    ("coalesce", Want::Coalesce),
    ("suffix", Want::Text),
    ("rows_left", Want::Hint),
    ("rows_right", Want::Hint),
];

const SORT: &[Member] = &[
    ("node", Want::Kind),
    ("input", Want::Whole32),
    ("by", Want::Texts),
    ("descending", Want::Truths),
    ("nulls_last", Want::Truths),
    ("slice", Want::Slice),
];

/// The members of a node of this kind, the word of the kind alone where it is none.
fn node_members(kind: &str) -> &'static [Member]
    ensures { members_in result.now ≡ node_table kind.now }
{
    match kind {
        "DataFrameScan" => SCAN,
        "Filter" => FILTER,
        "SimpleProjection" => PROJECTION,
        "Select" => EXPRS,
        "HStack" => EXPRS,
        "Unpivot" => UNPIVOT,
        "Rename" => RENAME,
        "Union" => UNION,
        "Join" => JOIN,
        "Sort" => SORT,
        _ => &[("node", Want::Kind)],
    }
}

/// The members of an object that is no node and no expression, none of what is no object.
fn object_members(want: Want) -> &'static [Member]
    ensures { members_in result.now ≡ object_table want }
{
    match want {
        Want::Job => JOB,
        Want::Foreign(Foreign::Reconciliation) => RECONCILIATION,
        Want::Foreign(Foreign::Replay) => REPLAY,
        Want::Foreign(Foreign::KeptJoin) => KEPT_JOIN,
        Want::Frame => FRAME,
        Want::Column => COLUMN,
        Want::Literal => LITERAL,
        Want::NamedExpr => NAMED_EXPR,
        Want::Pair => PAIR,
        _ => &[],
    }
}

/// The members that an object may have of which something is wanted, by the word of its kind where it is a node.
pub fn members_of(want: Want, kind: &str) -> &'static [Member]
    ensures { members_in result.now ≡ table_of want kind.now }
{
    match want {
        Want::Node => node_members(kind),
        Want::Expr => FORM,
        _ => object_members(want),
    }
}

/// What an expression's one member of this name may be.
pub fn form(name: &str) -> Option<Want>
    ensures want { result ≡ want_in form_table name.now }
    ensures beside { IfSome result (λ want. (t : Option DataType) → beside t want ≡ Some want) }
    ensures none { IfNone result (contains_text form_words name.now ≡ false) }
{
    match name {
        "col" => Some(Want::Text),
        "lit" => Some(Want::Literal),
        "not" => Some(Want::Expr),
        "is_null" => Some(Want::Expr),
        "is_not_null" => Some(Want::Expr),
        "add" => Some(Want::Sides),
        "sub" => Some(Want::Sides),
        "mul" => Some(Want::Sides),
        "eq" => Some(Want::Sides),
        "not_eq" => Some(Want::Sides),
        "lt" => Some(Want::Sides),
        "lt_eq" => Some(Want::Sides),
        "gt" => Some(Want::Sides),
        "gt_eq" => Some(Want::Sides),
        "and" => Some(Want::Sides),
        "or" => Some(Want::Sides),
        _ => None,
    }
}

/// What each item of a list may be, none of what is no list.
pub fn item_want(want: Want) -> Option<Want>
    ensures { result ≡ list_item want }
{
    match want {
        Want::Frames => Some(Want::Frame),
        Want::Columns => Some(Want::Column),
        Want::Cells(dtype) => Some(Want::Cell(dtype)),
        Want::Nodes => Some(Want::Node),
        Want::Texts | Want::MaybeTexts => Some(Want::Text),
        Want::Truths => Some(Want::Truth),
        Want::Numbers => Some(Want::Whole32),
        Want::Exprs => Some(Want::Expr),
        Want::NamedExprs => Some(Want::NamedExpr),
        Want::Pairs => Some(Want::Pair),
        Want::Foreign(Foreign::Edits) => Some(Want::Foreign(Foreign::Edit)),
        _ => None,
    }
}

/// What the two items of an array of two may be, none of what is no such array.
pub fn couple_wants(want: Want) -> Option<(Want, Want)>
    ensures { result ≡ couple_items want }
{
    match want {
        Want::Sides => Some((Want::Expr, Want::Expr)),
        Want::Foreign(Foreign::TwoFrames) => Some((Want::Frame, Want::Frame)),
        Want::Hint => Some((Want::MaybeWhole64, Want::Whole64)),
        Want::Slice => Some((Want::Signed64, Want::Whole64)),
        _ => None,
    }
}

/// The type of a word.
pub fn type_named(word: &str) -> Option<DataType>
    ensures { result ≡ type_named word.now }
{
    match word {
        "Int32" => Some(DataType::Int32),
        "Int64" => Some(DataType::Int64),
        "UInt32" => Some(DataType::UInt32),
        "UInt64" => Some(DataType::UInt64),
        "Boolean" => Some(DataType::Boolean),
        "String" => Some(DataType::String),
        "Binary" => Some(DataType::Binary),
        "Int128" => Some(DataType::Int128),
        _ => None,
    }
}
