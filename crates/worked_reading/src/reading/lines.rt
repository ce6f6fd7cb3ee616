//! The lines of a frame that was read.

use crate::told::shown;
use pipe_frame::DataFrame;
use pipe_job::{head_line, read_job, row_line};
use std::alloc::{AllocError, Global};

/// Cells of each type at the ends of its range, and names and texts that need escapes. The version is given twice.
const EDGES: &str =
    r#"{"workers":0,"chunk_rows":0,"row_limit":4294967295,"root":4294967295,"plan":[],"version":7,"version":1,
"frames":[{"columns":[
{"type":"Int32","name":"a\"\\\n","values":[-2147483648,2147483647,null]},
{"values":[-9223372036854775808,9223372036854775807,null],"name":"b","type":"Int64"},
{"name":"c","type":"UInt32","values":[0,4294967295,null]},
{"name":"d","type":"UInt64","values":[0,18446744073709551615,null]},
{"name":"","type":"Boolean","values":[true,false,null]},
{"name":"\u00e9","type":"String","values":["\u0000\b\f\n\r\t\u001f\"\\/","",null]},
{"name":"f","type":"Binary","values":["00ff7f","",null]}]}]}"#;

/// The lines of a frame.
fn lines(alloc: Global, frame: &DataFrame) -> Result<String, AllocError> {
    let mut text = String::new(alloc);
    text.push_str(shown(head_line(alloc, frame.schema())?.as_slice()))?;
    for i in 0..frame.height() {
        text.push_str(shown(row_line(alloc, frame, i)?.as_slice()))?;
    }
    Ok(text)
}

/// The lines of the first frame of a job.
fn lines_of_job(alloc: Global, text: &str) -> Result<String, AllocError> {
    match read_job(alloc, text.as_bytes()) {
        Ok(job) => match job.arena.frames.as_slice().first() {
            Some(frame) => lines(alloc, frame),
            None => String::from_str(alloc, "no frame\n"),
        },
        Err(_) => String::from_str(alloc, "not read\n"),
    }
}

/// Int128 at the ends of its range, with the version in front of it and behind.
const LARGE: &str = r#"{"version":1,"workers":0,"chunk_rows":0,"row_limit":0,"root":0,"plan":[],
"frames":[{"columns":[{"name":"k","type":"Int128","values":["170141183460469231731687303715884105727","-170141183460469231731687303715884105728","0",null]}]}],"version":2}"#;

pub(crate) fn of_int128(alloc: Global) -> Result<String, AllocError> {
    lines_of_job(alloc, LARGE)
}

/// Columns of so many rows that their arrays are packed: of what the first rows have, of other numbers behind them, and
/// of nulls.
const LONG: &str =
    r#"{"version":1,"workers":0,"chunk_rows":0,"row_limit":0,"root":0,"plan":[],"frames":[{"columns":[
{"name":"i","type":"Int64","values":[1,2,null,-9223372036854775808,5,6,7,8,9,10,11,12,13,14,15,16,9223372036854775807,null,-19]},
{"name":"u","type":"UInt64","values":[null,2,3,4,5,6,7,8,9,10,11,12,13,14,15,16,17,18446744073709551615,19]},
{"name":"s","type":"String","values":["a","",null,"d","e","f","g","h","i","j","k","l","m","n","o","p",null,"","é"]},
{"name":"t","type":"Boolean","values":[true,false,null,true,true,true,true,true,true,true,true,true,true,true,true,true,false,null,true]},
{"name":"b","type":"Binary","values":["00",null,"ff","0a","0a","0a","0a","0a","0a","0a","0a","0a","0a","0a","0a","0a","","00ff7f",null]}]}]}"#;

pub(crate) fn of_long_columns(alloc: Global) -> Result<String, AllocError> {
    lines_of_job(alloc, LONG)
}

pub(crate) fn at_the_edges(alloc: Global) -> Result<String, AllocError> {
    lines_of_job(alloc, EDGES)
}
