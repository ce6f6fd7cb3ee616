//! Nodes that are spelled as they should be, and others.

use crate::reading::reading::{node, tell_answer};
use std::alloc::{AllocError, Global};

const SPELLED: &[(&str, &str)] = &[
    (
        "a scan of chosen columns",
        r#"{"node":"DataFrameScan","frame":4294967295,"columns":["a","b"]}"#,
    ),
    (
        "a filter",
        r#"{"node":"Filter","input":0,"predicate":{"and":[{"not":{"is_null":{"col":"k"}}},{"or":[{"lt":[{"col":"k"},{"lit":{"type":"Int64","value":-1}}]},{"is_not_null":{"lit":{"type":"Binary","value":null}}}]}]}}"#,
    ),
    (
        "a projection of no column",
        r#"{"node":"SimpleProjection","input":0,"columns":[]}"#,
    ),
    (
        "a selection",
        r#"{"node":"Select","input":0,"exprs":[{"name":"a","expr":{"add":[{"sub":[{"col":"a"},{"col":"b"}]},{"mul":[{"col":"a"},{"col":"b"}]}]}}]}"#,
    ),
    (
        "columns added",
        r#"{"node":"HStack","input":0,"exprs":[{"expr":{"eq":[{"not_eq":[{"col":"a"},{"col":"b"}]},{"gt":[{"gt_eq":[{"col":"a"},{"col":"b"}]},{"lt_eq":[{"col":"a"},{"col":"b"}]}]}]},"name":"a"}]}"#,
    ),
    (
        "an unpivot",
        r#"{"node":"Unpivot","input":0,"on":["a"],"index":["id"],"variable":"variable","value":"value"}"#,
    ),
    (
        "a renaming",
        r#"{"node":"Rename","input":0,"pairs":[{"existing":"a","new":"b"}]}"#,
    ),
    ("a union", r#"{"node":"Union","inputs":[0,1]}"#),
    (
        "a cross join with the greatest hints",
        r#"{"node":"Join","left":0,"right":1,"left_on":[],"right_on":[],"how":"cross","join_nulls":true,"coalesce":"KeepColumns","suffix":"","rows_left":[18446744073709551615,0],"rows_right":[7,18446744073709551615]}"#,
    ),
    (
        "a left join",
        r#"{"node":"Join","left":0,"right":1,"left_on":[{"col":"k"}],"right_on":[{"col":"k"}],"how":"left","join_nulls":false,"coalesce":"JoinSpecific","suffix":"_right","rows_left":[null,0],"rows_right":[null,0]}"#,
    ),
    (
        "a full join",
        r#"{"node":"Join","left":0,"right":1,"left_on":[{"col":"k"}],"right_on":[{"col":"k"}],"how":"full","join_nulls":false,"coalesce":"CoalesceColumns","suffix":"_right","rows_left":[null,0],"rows_right":[null,0]}"#,
    ),
    (
        "a semi join",
        r#"{"node":"Join","left":0,"right":1,"left_on":[{"col":"k"}],"right_on":[{"col":"k"}],"how":"semi","join_nulls":true,"coalesce":"CoalesceColumns","suffix":"","rows_left":[null,0],"rows_right":[null,0]}"#,
    ),
    (
        "an anti join",
        r#"{"node":"Join","left":0,"right":1,"left_on":[{"col":"k"}],"right_on":[{"col":"k"}],"how":"anti","join_nulls":false,"coalesce":"KeepColumns","suffix":"_right","rows_left":[null,0],"rows_right":[null,0]}"#,
    ),
    (
        "a sort with a slice",
        r#"{"node":"Sort","input":2,"by":["k","l"],"descending":[true],"nulls_last":[true,false],"slice":[-3,5]}"#,
    ),
];

const MISSPELLED: &[(&str, &str)] = &[
    (
        "a scan with a further member",
        r#"{"node":"DataFrameScan","frame":0,"columns":null,"more":0}"#,
    ),
    (
        "a frame number that is too large",
        r#"{"node":"DataFrameScan","frame":4294967296,"columns":null}"#,
    ),
    (
        "a scan without columns",
        r#"{"node":"DataFrameScan","frame":0}"#,
    ),
    (
        "a node of another name",
        r#"{"node":"Scan","frame":0,"columns":null}"#,
    ),
    (
        "an expression of two members",
        r#"{"node":"Filter","input":0,"predicate":{"col":"k","lit":{"type":"Int64","value":1}}}"#,
    ),
    (
        "a literal of another type",
        r#"{"node":"Filter","input":0,"predicate":{"lit":{"type":"Int64","value":"1"}}}"#,
    ),
    (
        "a sum of one",
        r#"{"node":"Filter","input":0,"predicate":{"add":[{"col":"k"}]}}"#,
    ),
    (
        "an input that is a float",
        r#"{"node":"Filter","input":0.0,"predicate":{"col":"k"}}"#,
    ),
    ("a negative input", r#"{"node":"Union","inputs":[-1]}"#),
    (
        "a join of another kind",
        r#"{"node":"Join","left":0,"right":1,"left_on":[],"right_on":[],"how":"outer","join_nulls":true,"coalesce":"KeepColumns","suffix":"","rows_left":[null,0],"rows_right":[null,0]}"#,
    ),
    (
        "a slice of negative length",
        r#"{"node":"Sort","input":2,"by":["k"],"descending":[true],"nulls_last":[true],"slice":[0,-1]}"#,
    ),
    (
        "a pair of names that is a list",
        r#"{"node":"Rename","input":0,"pairs":[["a","b"]]}"#,
    ),
];

/// The answers to jobs of one node each.
pub(crate) fn tell_nodes(alloc: Global, answers: &mut String) -> Result<(), AllocError> {
    for (shows, text) in SPELLED {
        tell_answer(answers, shows, node(alloc, "1", text)?)?;
    }
    for (shows, text) in MISSPELLED {
        tell_answer(answers, shows, node(alloc, "1", text)?)?;
    }
    Ok(())
}

/// An expression that has an Int128 deep in its second part.
const LARGE: &str =
    r#"{"node":"Filter","input":0,"predicate":{"and":[{"is_null":{"col":"k"}},{"lt":[{"col":"k"},{"lit":{"type":"Int128","value":"12"}}]}]}}"#;

/// A join with an Int128 in a right key.
const LARGE_KEY: &str =
    r#"{"node":"Join","left":0,"right":1,"left_on":[{"col":"k"}],"right_on":[{"lit":{"type":"Int128","value":null}}],"how":"inner","join_nulls":false,"coalesce":"KeepColumns","suffix":"","rows_left":[null,0],"rows_right":[null,0]}"#;

/// The answers to jobs of one node with a literal of the type Int128.
pub(crate) fn tell_int128(alloc: Global, answers: &mut String) -> Result<(), AllocError> {
    tell_answer(answers, "version 2", node(alloc, "2", LARGE)?)?;
    tell_answer(answers, "version 1", node(alloc, "1", LARGE)?)?;
    tell_answer(answers, "version 2, in a key", node(alloc, "2", LARGE_KEY)?)?;
    tell_answer(answers, "version 1, in a key", node(alloc, "1", LARGE_KEY)?)
}
