//! The kinds of nodes.

ghost use Rattle.std.specs.Prelude.{◌≡◌, codes, MatchOption, false, Some};
ghost use Rattle.serde_json.specs.Data.{string};
ghost use Rattle.serde_json.specs.Find.{get};
ghost use Rattle.pipe_value.specs.View.{view};
ghost use Rattle.pipe_job.specs.Reads.{ReadWhere};
ghost use Rattle.pipe_job.specs.Shape.{contains_text, node_words, is_node_word};
ghost use Rattle.pipe_job.specs.Kinds.{kind_name};

use crate::misread::Misread;
use pipe_value::Value;

/// The kind of a node, as its spelling tells it.
#[derive(Clone, Copy)]
pub(crate) enum Kind {
    DataFrameScan,
    Filter,
    SimpleProjection,
    Select,
    HStack,
    Unpivot,
    Rename,
    Union,
    Join,
    Sort,
}

impl Kind {
    /// The kind of a name.
    fn named(name: &str) -> Option<Kind>
        ensures { MatchOption result (contains_text node_words name.now ≡ false)
            (λ kind. name.now ≡ kind_name kind) }
    {
        match name {
            "DataFrameScan" => Some(Kind::DataFrameScan),
            "Filter" => Some(Kind::Filter),
            "SimpleProjection" => Some(Kind::SimpleProjection),
            "Select" => Some(Kind::Select),
            "HStack" => Some(Kind::HStack),
            "Unpivot" => Some(Kind::Unpivot),
            "Rename" => Some(Kind::Rename),
            "Union" => Some(Kind::Union),
            "Join" => Some(Kind::Join),
            "Sort" => Some(Kind::Sort),
            _ => None,
        }
    }
}

/// The kind of the node that a value may spell.
pub(crate) fn kind_of(value: &Value) -> Result<Kind, Misread>
    ensures { ReadWhere (is_node_word (get (codes "node") (view value.now)))
        (λ kind. get (codes "node") (view value.now) ≡ Some (string (kind_name kind))) result }
{
    let name = match value.get("node") {
        Some(Value::String(name)) => name.as_str(),
        _ => return Err(Misread::Other),
    };
    match Kind::named(name) {
        Some(kind) => Ok(kind),
        None => Err(Misread::Other),
    }
}
