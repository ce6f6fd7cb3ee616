//! Frames that are spelled as they should be, and others.

use crate::reading::reading::{frame, tell_answer};
use std::alloc::{AllocError, Global};

const MISSPELLED: &[(&str, &str)] = &[
    ("no column", r#"{"columns":[]}"#),
    (
        "columns of unequal length",
        r#"{"columns":[{"name":"k","type":"Int32","values":[]},{"name":"l","type":"Int32","values":[1]}]}"#,
    ),
    (
        "two columns of one name",
        r#"{"columns":[{"name":"k","type":"Int32","values":[1]},{"name":"k","type":"Int64","values":[1]}]}"#,
    ),
    (
        "an Int32 past the range",
        r#"{"columns":[{"name":"k","type":"Int32","values":[2147483648]}]}"#,
    ),
    (
        "minus zero",
        r#"{"columns":[{"name":"k","type":"Int32","values":[-0]}]}"#,
    ),
    (
        "a float",
        r#"{"columns":[{"name":"k","type":"Int64","values":[1.0]}]}"#,
    ),
    (
        "a UInt64 past the range",
        r#"{"columns":[{"name":"k","type":"UInt64","values":[18446744073709551616]}]}"#,
    ),
    (
        "a number for a truth value",
        r#"{"columns":[{"name":"k","type":"Boolean","values":[1]}]}"#,
    ),
    (
        "an upper-case digit",
        r#"{"columns":[{"name":"k","type":"Binary","values":["0F"]}]}"#,
    ),
    (
        "half a byte",
        r#"{"columns":[{"name":"k","type":"Binary","values":["0"]}]}"#,
    ),
    (
        "a text behind many numbers",
        r#"{"columns":[{"name":"k","type":"Int64","values":[1,2,3,4,5,6,7,8,9,10,11,12,13,14,15,16,17,18,"19"]}]}"#,
    ),
    (
        "a number behind many texts",
        r#"{"columns":[{"name":"k","type":"String","values":["","","","","","","","","","","","","","","","","","",19]}]}"#,
    ),
    (
        "a type in lower case",
        r#"{"columns":[{"name":"k","type":"int64","values":[]}]}"#,
    ),
];

/// Int128 at the ends of its range.
const LARGE: &str =
    r#"{"columns":[{"name":"k","type":"Int128","values":["170141183460469231731687303715884105727","-170141183460469231731687303715884105728","0","-1",null]}]}"#;

const MISSPELLED_INT128: &[(&str, &str)] = &[
    (
        "minus zero as a text",
        r#"{"columns":[{"name":"k","type":"Int128","values":["-0"]}]}"#,
    ),
    (
        "a plus sign",
        r#"{"columns":[{"name":"k","type":"Int128","values":["+1"]}]}"#,
    ),
    (
        "a leading zero",
        r#"{"columns":[{"name":"k","type":"Int128","values":["01"]}]}"#,
    ),
    (
        "a number for a text",
        r#"{"columns":[{"name":"k","type":"Int128","values":[1]}]}"#,
    ),
    (
        "an Int128 past the range",
        r#"{"columns":[{"name":"k","type":"Int128","values":["170141183460469231731687303715884105728"]}]}"#,
    ),
    (
        "an Int128 below the range",
        r#"{"columns":[{"name":"k","type":"Int128","values":["-170141183460469231731687303715884105729"]}]}"#,
    ),
    (
        "no digit",
        r#"{"columns":[{"name":"k","type":"Int128","values":[""]}]}"#,
    ),
    (
        "a minus sign alone",
        r#"{"columns":[{"name":"k","type":"Int128","values":["-"]}]}"#,
    ),
];

/// The answers to jobs of one frame with the type Int128.
pub(crate) fn tell_int128(alloc: Global, answers: &mut String) -> Result<(), AllocError> {
    tell_answer(answers, "version 2", frame(alloc, "2", LARGE)?)?;
    tell_answer(answers, "version 1", frame(alloc, "1", LARGE)?)?;
    tell_answer(answers, "version 3", frame(alloc, "3", LARGE)?)?;
    for (shows, text) in MISSPELLED_INT128 {
        tell_answer(answers, shows, frame(alloc, "2", text)?)?;
    }
    Ok(())
}

/// The answers to jobs of one frame each.
pub(crate) fn tell_frames(alloc: Global, answers: &mut String) -> Result<(), AllocError> {
    for (shows, text) in MISSPELLED {
        tell_answer(answers, shows, frame(alloc, "1", text)?)?;
    }
    Ok(())
}
