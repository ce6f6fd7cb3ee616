//! What is told of bytes that are no JSON text: where reading stops, what might have stood there, and what stands
//! there.

use crate::place::{push_marked_line, push_place};
use crate::reading_stop::{MAX_DEPTH, Stop, Wanted, Why, last_before, stop_of};
use crate::string_stop::bad_string;
use crate::words::push_quoted;
use std::alloc::{AllocError, Global};
use std::fmt::Write;

/// What may stand at a place, in words.
fn wanted_words(wanted: Wanted) -> &'static str {
    match wanted {
        Wanted::First => "a value, as a job, which is one object: { .. }",
        Wanted::ItemOrEnd => "a value, or ] at the end of the array",
        Wanted::Item => "a value, as there is a comma before it",
        Wanted::CommaOrEndArray => "a comma, or ] at the end of the array",
        Wanted::NameOrEnd =>
            "a member's name in double quotes and a colon, or } at the end of the object",
        Wanted::Name =>
            "a member's name in double quotes and a colon, as there is a comma before it",
        Wanted::MemberValue => "the value of the member",
        Wanted::CommaOrEndObject => "a comma, or } at the end of the object",
        Wanted::End => "the end of the text, as its one value has ended",
    }
}

/// Whether a byte is a part of a word or of a number.
fn is_word_byte(byte: u8) -> bool {
    byte.is_ascii_alphanumeric()
        || byte == b'_'
        || byte == b'.'
        || byte == b'+'
        || byte == b'-'
        || 128 <= byte
}

/// The word that begins at a place, of at most 20 bytes.
fn word_at(bytes: &[u8], at: usize) -> &[u8] {
    let rest = bytes.get(at..).unwrap_or(&[]);
    let mut len = 0usize;
    for byte in rest {
        if !is_word_byte(*byte) || len == 20 {
            break;
        }
        len = len.saturating_add(1);
    }
    rest.get(..len).unwrap_or(&[])
}

/// Appends what stands at a place.
fn push_found(alloc: Global, out: &mut String, bytes: &[u8], at: usize) -> Result<(), AllocError> {
    let Some(byte) = bytes.get(at) else {
        return out.push_str("the end of the text");
    };
    let word = word_at(bytes, at);
    if word.is_empty() {
        let mut shown = String::new(alloc);
        shown.push(*byte as char)?;
        return push_quoted(out, shown.as_str());
    }
    push_quoted(out, String::from_utf8_lossy(alloc, word)?.as_str())
}

/// Whether a word is one of these, letters of either case.
fn is_word(word: &[u8], words: &[&str]) -> bool {
    for known in words {
        if word.eq_ignore_ascii_case(known.as_bytes()) {
            return true;
        }
    }
    false
}

/// What helps with a word or a number that stands where it can't.
fn word_hint(bytes: &[u8], at: usize) -> Option<&'static str> {
    let word = word_at(bytes, at);
    if is_word(word, &["true", "false", "null"]) {
        return Some("true, false and null are written in lower-case letters");
    }
    if is_word(word, &["none", "nil", "undefined", "na"]) {
        return Some("a value that isn't there is null");
    }
    if is_word(word, &["nan", "inf", "infinity", "-inf", "-infinity"]) {
        return Some("JSON has no such number");
    }
    match word.first() {
        Some(first)
            if first.is_ascii_digit() || *first == b'+' || *first == b'-' || *first == b'.' => Some(
            "a number has an optional -, digits without zeros before them, and no +, no point at an end",
        ),
        Some(_) => Some("texts and names stand in double quotes"),
        None => None,
    }
}

/// What helps with what stands at a place.
fn hint_at(bytes: &[u8], stop: Stop) -> Option<&'static str> {
    let Some(byte) = bytes.get(stop.at) else {
        if stop.at == 0 || last_before(bytes, stop.at) == b' ' {
            return Some("the text is empty");
        }
        return Some("the text is cut off: something that was opened isn't closed");
    };
    match (*byte, stop.wanted) {
        (b']' | b'}', Wanted::Item | Wanted::Name) => {
            Some("no comma stands before the end of an array or an object")
        }
        (b',', Wanted::Item | Wanted::Name | Wanted::ItemOrEnd | Wanted::NameOrEnd) => {
            Some("a comma stands between two values, once")
        }
        (b'\'', _) => Some("texts and names stand in double quotes"),
        (b'/' | b'#', _) => Some("JSON has no comments"),
        (b'"', Wanted::Name | Wanted::NameOrEnd) => Some("a colon stands behind a member's name"),
        (b'"', Wanted::CommaOrEndArray | Wanted::CommaOrEndObject) => {
            Some("a comma stands between two values or members")
        }
        (b'{' | b'[', Wanted::End) => Some("one text is one job"),
        (b'}', Wanted::CommaOrEndArray | Wanted::ItemOrEnd) => Some(
            "an array is open, which ] ends",
        ),
        (b']', Wanted::CommaOrEndObject | Wanted::NameOrEnd) => {
            Some("an object is open, which } ends")
        }
        _ => word_hint(bytes, stop.at),
    }
}

/// The stop at the fault inside a text in double quotes, and what helps, where such a text stands where it may.
fn in_string(bytes: &[u8], stop: Stop) -> (Stop, Option<&'static str>) {
    let is_text = bytes.get(stop.at) == Some(&b'"') && stop.why == Why::BadToken;
    match stop.wanted {
        Wanted::CommaOrEndArray | Wanted::CommaOrEndObject | Wanted::End => {
            (stop, hint_at(bytes, stop))
        }
        _ => {
            if is_text {
                let bad = bad_string(bytes, stop.at);
                let stop = Stop { at: bad.at, ..stop };
                (stop, Some(bad.hint))
            } else {
                (stop, hint_at(bytes, stop))
            }
        }
    }
}

/// Appends what was expected at a stop, and what stands there.
fn push_expected(
    alloc: Global,
    out: &mut String,
    bytes: &[u8],
    stop: Stop,
) -> Result<(), AllocError> {
    let (stop, hint) = in_string(bytes, stop);
    out.push_str("not JSON: reading stops at ")?;
    push_place(out, bytes, stop.at)?;
    write!(
        out,
        " (byte {})\nexpected: {}\nfound: ",
        stop.at,
        wanted_words(stop.wanted)
    )?;
    push_found(alloc, out, bytes, stop.at)?;
    out.push_str("\n")?;
    if let Some(hint) = hint {
        write!(out, "hint: {hint}\n")?;
    }
    push_marked_line(alloc, out, bytes, stop.at)
}

/// Appends why reading stops.
fn push_stop(alloc: Global, out: &mut String, bytes: &[u8], stop: Stop) -> Result<(), AllocError> {
    let why = match stop.why {
        Why::Other | Why::BadToken => return push_expected(alloc, out, bytes, stop),
        Why::TooDeep => {
            write!(
                out,
                "not JSON that is read: arrays and objects nest {} deep at ",
                MAX_DEPTH + 1
            )?;
            "at most 127 stand inside one another"
        }
        Why::TooLarge => {
            out.push_str("not JSON that is read: a number is too large at ")?;
            "a number is at most 1.7976931348623157e308"
        }
        Why::NotUtf8 => {
            out.push_str("not JSON: bytes that are no UTF-8 at ")?;
            "save the text as UTF-8"
        }
    };
    push_place(out, bytes, stop.at)?;
    write!(out, " (byte {})\nexpected: {why}\n", stop.at)?;
    push_marked_line(alloc, out, bytes, stop.at)
}

/// Where the reading of bytes stops: the text is no UTF-8, or no JSON, or nests too deep.
fn stop_in(alloc: Global, bytes: &[u8]) -> Result<Stop, AllocError> {
    match simdutf8::compat::from_utf8(bytes) {
        Ok(text) => stop_of(alloc, text),
        Err(error) => Ok(Stop {
            at: error.valid_up_to(),
            wanted: Wanted::First,
            why: Why::NotUtf8,
        }),
    }
}

/// What is told of bytes that are no JSON text.
pub fn bad_json(alloc: Global, bytes: &[u8]) -> Result<String, AllocError> {
    let stop = stop_in(alloc, bytes)?;
    let mut out = String::new(alloc);
    push_stop(alloc, &mut out, bytes, stop)?;
    Ok(out)
}
