//! Where a value stands in a text.

use crate::steps::Step;
use json::{Reader, Scratch, Token};
use std::alloc::{AllocError, Global};

/// An array or an object on the way to a value.
#[derive(Clone, Copy)]
struct Level {
    /// Whether the steps so far lead to it.
    is_on_way: bool,
    /// Whether the next value is the one to which the next step leads.
    is_next: bool,
    /// The number of the next item.
    next: usize,
}

/// The way along some steps through a text.
#[derive(Drop)]
struct Way<'s> {
    steps: &'s [Step],
    levels: Vec<Level>,
    found: Option<usize>,
}

impl<'s> Way<'s> {
    /// Whether the steps, as many as levels are open, lead to the value that comes next.
    fn is_on_way(&self) -> bool {
        match self.levels.as_slice().last() {
            None => true,
            Some(level) => {
                let is_item = match self.steps.get(self.levels.len().saturating_sub(1)) {
                    Some(Step::Item(i)) => *i == level.next,
                    _ => false,
                };
                level.is_on_way && (level.is_next || is_item)
            }
        }
    }

    /// Takes note of where the next value begins.
    fn begin(&mut self, at: usize) -> bool {
        let is_on_way = self.is_on_way();
        if is_on_way && self.levels.len() == self.steps.len() {
            self.found = Some(at);
        }
        is_on_way
    }

    /// Takes note that a value has ended.
    fn end(&mut self) {
        if let Some(level) = self.levels.last_mut() {
            level.next = level.next.saturating_add(1);
            level.is_next = false;
        }
    }

    /// Takes note of the name of the next member.
    fn name(&mut self, key: &str) {
        let place = self.levels.len().saturating_sub(1);
        let is_next = match self.steps.get(place) {
            Some(Step::Member(name)) => name.as_str() == key,
            _ => false,
        };
        if let Some(level) = self.levels.last_mut() {
            level.is_next = is_next;
        }
    }

    /// Takes a token that begins at a place.
    fn take(&mut self, token: &Token<'_>, at: usize) -> Result<(), AllocError> {
        match token {
            Token::BeginArray | Token::BeginObject => {
                let is_on_way = self.begin(at);
                // an object's members are told by their names alone
                let next = if let Token::BeginArray = token {
                    0
                } else {
                    usize::MAX
                };
                self.levels.push(Level {
                    is_on_way,
                    is_next: false,
                    next,
                })?;
                Ok(())
            }
            Token::EndArray | Token::EndObject => {
                let _ = self.levels.pop();
                self.end();
                Ok(())
            }
            Token::Key(key) => {
                self.name(key);
                Ok(())
            }
            Token::String(_) | Token::Number(_) | Token::Bool(_) | Token::Null => {
                let _ = self.begin(at);
                self.end();
                Ok(())
            }
            Token::Bad => Ok(()),
        }
    }
}

/// The byte at which the value begins to which some steps lead, the last one of several; that of the text where none
/// is there.
pub fn offset_of(alloc: Global, text: &str, steps: &[Step]) -> Result<usize, AllocError> {
    let mut scratch = Scratch::new(alloc);
    let mut reader = Reader::new(text, &mut scratch)?;
    let mut way = Way {
        steps,
        levels: Vec::new(alloc),
        found: None,
    };
    for _ in 0..=text.len() {
        let at = reader.offset();
        let Some(token) = reader.next() else {
            break;
        };
        way.take(&token, at)?;
    }
    Ok(way.found.unwrap_or(0))
}
