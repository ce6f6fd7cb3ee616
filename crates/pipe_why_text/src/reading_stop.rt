//! Where the reading of a JSON text stops, and what might have stood there.

use json::{Reader, Scratch, Token};
use std::alloc::{AllocError, Global};

/// How deep arrays and objects may nest.
pub(crate) const MAX_DEPTH: usize = 127;

/// What may stand at a place of a text.
#[derive(Clone, Copy, PartialEq, Eq)]
pub(crate) enum Wanted {
    /// The first value.
    First,
    /// A value, or the end of the array.
    ItemOrEnd,
    /// A value, behind a comma in an array.
    Item,
    /// A comma, or the end of the array.
    CommaOrEndArray,
    /// A member's name, or the end of the object.
    NameOrEnd,
    /// A member's name, behind a comma.
    Name,
    /// A member's value.
    MemberValue,
    /// A comma, or the end of the object.
    CommaOrEndObject,
    /// Nothing more.
    End,
}

/// Why reading stops.
#[derive(Clone, Copy, PartialEq, Eq)]
pub(crate) enum Why {
    /// Something else stands there.
    Other,
    /// What stands there is no token of JSON, or none that may stand there.
    BadToken,
    /// Arrays and objects nest too deep.
    TooDeep,
    /// A number is out of the range of floats.
    TooLarge,
    /// The bytes are no UTF-8.
    NotUtf8,
}

/// Where reading stops, and why.
#[derive(Clone, Copy)]
pub(crate) struct Stop {
    pub(crate) at: usize,
    pub(crate) wanted: Wanted,
    pub(crate) why: Why,
}

/// An array or an object that is open.
#[derive(Clone, Copy, PartialEq, Eq)]
enum Open {
    Array,
    Object,
}

/// What was read so far: what is open, and what may stand next.
#[derive(Drop)]
struct Progress<'t> {
    bytes: &'t [u8],
    open: Vec<Open>,
    wanted: Wanted,
}

/// The last byte before a place that is no blank.
pub(crate) fn last_before(bytes: &[u8], at: usize) -> u8 {
    for byte in bytes.get(..at).unwrap_or(&[]).iter().rev() {
        if *byte != b' ' && *byte != b'\n' && *byte != b'\r' && *byte != b'\t' {
            return *byte;
        }
    }
    b' '
}

/// Where a text ends, without the blanks at its end.
fn end_of(bytes: &[u8]) -> usize {
    let mut end = bytes.len();
    for byte in bytes.iter().rev() {
        if *byte != b' ' && *byte != b'\n' && *byte != b'\r' && *byte != b'\t' {
            return end;
        }
        end = end.saturating_sub(1);
    }
    end
}

/// Whether a number's text is beyond all floats.
fn is_too_large(text: &str) -> bool {
    match text.parse::<f64>() {
        Ok(x) => !x.is_finite(),
        Err(_) => true,
    }
}

impl<'t> Progress<'t> {
    /// Whether a value may stand next.
    fn takes_value(&self) -> bool {
        match self.wanted {
            Wanted::First | Wanted::ItemOrEnd | Wanted::Item | Wanted::MemberValue => true,
            Wanted::CommaOrEndArray
            | Wanted::NameOrEnd
            | Wanted::Name
            | Wanted::CommaOrEndObject
            | Wanted::End => false,
        }
    }

    /// Takes note that a value ends, behind which the reader stands at a place.
    fn value_ends(&mut self, at: usize) {
        let is_comma = last_before(self.bytes, at) == b',';
        self.wanted = match self.open.as_slice().last() {
            None => Wanted::End,
            Some(Open::Array) => {
                if is_comma {
                    Wanted::Item
                } else {
                    Wanted::CommaOrEndArray
                }
            }
            Some(Open::Object) => {
                if is_comma {
                    Wanted::Name
                } else {
                    Wanted::CommaOrEndObject
                }
            }
        };
    }

    /// Why a value's token can't stand next.
    fn why_no_value(&self, token: &Token<'_>) -> Option<Why> {
        if !self.takes_value() {
            return Some(Why::Other);
        }
        match token {
            Token::Number(text) if is_too_large(text) => Some(Why::TooLarge),
            Token::BeginArray | Token::BeginObject if self.open.len() >= MAX_DEPTH => {
                Some(Why::TooDeep)
            }
            _ => None,
        }
    }

    /// Why an end of an array or of an object can't stand next.
    fn why_no_end(&self, kind: Open) -> Option<Why> {
        let is_open = match self.open.as_slice().last() {
            Some(open) => *open == kind,
            None => false,
        };
        let may_end = match self.wanted {
            Wanted::ItemOrEnd
            | Wanted::CommaOrEndArray
            | Wanted::NameOrEnd
            | Wanted::CommaOrEndObject => true,
            Wanted::First | Wanted::Item | Wanted::Name | Wanted::MemberValue | Wanted::End =>
                false,
        };
        if is_open && may_end {
            None
        } else {
            Some(Why::Other)
        }
    }

    /// Why a member's name can't stand next.
    fn why_no_name(&self) -> Option<Why> {
        match self.wanted {
            Wanted::NameOrEnd | Wanted::Name => None,
            Wanted::First
            | Wanted::ItemOrEnd
            | Wanted::Item
            | Wanted::CommaOrEndArray
            | Wanted::MemberValue
            | Wanted::CommaOrEndObject
            | Wanted::End => Some(Why::Other),
        }
    }

    /// Takes a token behind which the reader stands at a place; or why it can't stand next.
    fn take(&mut self, token: &Token<'_>, behind: usize) -> Result<Option<Why>, AllocError> {
        let why = match token {
            Token::Bad => Some(Why::BadToken),
            Token::Key(_) => self.why_no_name(),
            Token::EndArray => self.why_no_end(Open::Array),
            Token::EndObject => self.why_no_end(Open::Object),
            Token::String(_)
            | Token::Number(_)
            | Token::Bool(_)
            | Token::Null
            | Token::BeginArray
            | Token::BeginObject => self.why_no_value(token),
        };
        if why.is_some() {
            return Ok(why);
        }
        match token {
            Token::BeginArray => {
                self.open.push(Open::Array)?;
                self.wanted = Wanted::ItemOrEnd;
            }
            Token::BeginObject => {
                self.open.push(Open::Object)?;
                self.wanted = Wanted::NameOrEnd;
            }
            Token::Key(_) => self.wanted = Wanted::MemberValue,
            Token::EndArray | Token::EndObject => {
                let _ = self.open.pop();
                self.value_ends(behind);
            }
            Token::String(_) | Token::Number(_) | Token::Bool(_) | Token::Null | Token::Bad => {
                self.value_ends(behind);
            }
        }
        Ok(None)
    }
}

/// Where the reading of a text stops.
pub(crate) fn stop_of(alloc: Global, text: &str) -> Result<Stop, AllocError> {
    let bytes = text.as_bytes();
    let mut scratch = Scratch::new(alloc);
    let mut reader = Reader::new(text, &mut scratch)?;
    let mut progress = Progress {
        bytes,
        open: Vec::new(alloc),
        wanted: Wanted::First,
    };
    let mut at = 0;
    for _ in 0..=bytes.len() {
        at = reader.offset();
        let wanted = progress.wanted;
        let Some(token) = reader.next() else {
            break;
        };
        if let Some(why) = progress.take(&token, reader.offset())? {
            let at = if at < bytes.len() { at } else { end_of(bytes) };
            return Ok(Stop { at, wanted, why });
        }
    }
    let at = if at < bytes.len() { at } else { end_of(bytes) };
    Ok(Stop {
        at,
        wanted: progress.wanted,
        why: Why::Other,
    })
}
