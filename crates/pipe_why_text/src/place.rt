//! Where a byte of a text stands: its line and column, and the line with a mark below it.

use std::alloc::{AllocError, Global};
use std::fmt::Write;

/// How many bytes of a line are shown before the mark and behind it.
const SHOWN: usize = 48;

/// A line and a column, numbered from 1. A column is a character.
#[derive(Clone, Copy)]
pub(crate) struct Place {
    pub(crate) line: usize,
    pub(crate) column: usize,
    /// Where the line begins.
    start: usize,
}

/// Whether a byte is the first one of a character.
fn begins_char(byte: u8) -> bool {
    byte < 128 || 192 <= byte
}

/// The place of a byte.
pub(crate) fn place_of(bytes: &[u8], at: usize) -> Place {
    let mut place = Place {
        line: 1,
        column: 1,
        start: 0,
    };
    for (i, byte) in bytes.iter().enumerate() {
        if i == at {
            return place;
        }
        if *byte == b'\n' {
            place.line = place.line.saturating_add(1);
            place.column = 1;
            place.start = i.saturating_add(1);
        } else if begins_char(*byte) {
            place.column = place.column.saturating_add(1);
        }
    }
    place
}

/// Appends the line and the column of a byte.
pub fn push_place(out: &mut String, bytes: &[u8], at: usize) -> Result<(), AllocError> {
    let place = place_of(bytes, at);
    write!(out, "line {}, column {}", place.line, place.column)
}

/// The first byte at or behind a place at which a character begins.
fn char_from(bytes: &[u8], from: usize) -> usize {
    let mut at = from;
    for _ in 0..4 {
        match bytes.get(at) {
            Some(byte) if !begins_char(*byte) => at = at.saturating_add(1),
            _ => return at,
        }
    }
    at
}

/// Where the line ends that goes on at a place, or where it is cut.
fn line_end(bytes: &[u8], at: usize) -> usize {
    let last = char_from(bytes, at.saturating_add(SHOWN));
    let mut end = at;
    for byte in bytes.get(at..).unwrap_or(&[]) {
        if *byte == b'\n' || *byte == b'\r' || end == last {
            return end;
        }
        end = end.saturating_add(1);
    }
    end
}

/// A part of a text, with a space for each byte below a space.
fn shown(alloc: Global, bytes: &[u8], from: usize, to: usize) -> Result<String, AllocError> {
    let part = String::from_utf8_lossy(alloc, bytes.get(from..to).unwrap_or(&[]))?;
    let mut line = String::new(alloc);
    for ch in part.chars() {
        line.push(if ch < ' ' { ' ' } else { ch })?;
    }
    Ok(line)
}

/// Appends the line in which a byte stands, cut where it is long, and a line with a mark below the byte.
pub(crate) fn push_marked_line(
    alloc: Global,
    out: &mut String,
    bytes: &[u8],
    at: usize,
) -> Result<(), AllocError> {
    let place = place_of(bytes, at);
    let cut = char_from(bytes, at.saturating_sub(SHOWN));
    let from = if place.start < cut { cut } else { place.start };
    let before = shown(alloc, bytes, from, at)?;
    let behind = shown(alloc, bytes, at, line_end(bytes, at))?;
    out.push_str("  ")?;
    out.push_str(before.as_str())?;
    out.push_str(behind.as_str())?;
    out.push_str("\n  ")?;
    for _ in before.chars() {
        out.push_str(" ")?;
    }
    out.push_str("^\n")
}
