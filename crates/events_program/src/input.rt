//! Events, read from values.

use crate::items::items_of;
use crate::keys::{KeyTypes, key_of};
use pipe_events::{Event, Side};
use pipe_plan::Arena;
use pipe_schema::List;
use pipe_value::Item;
use std::alloc::{AllocError, Global};

/// The number at a place of an array.
fn number_at(items: &[Item], place: usize) -> Option<u32> {
    match u32::try_from(items.get(place)?.value().as_u64()?) {
        Ok(n) => Some(n),
        Err(_) => None,
    }
}

/// The side that a word names.
fn side_of(word: &str) -> Option<Side> {
    match word {
        "Sort" => Some(Side::Sort),
        "Build" => Some(Side::Build),
        "Probe" => Some(Side::Probe),
        _ => None,
    }
}

/// A take.
fn take_of(items: &[Item]) -> Option<Event> {
    Some(Event::Take {
        worker: number_at(items, 1)?,
        source: number_at(items, 2)?,
        from: number_at(items, 3)?,
        count: number_at(items, 4)?,
    })
}

/// A closing.
fn close_of(items: &[Item]) -> Option<Event> {
    Some(Event::Close {
        node: number_at(items, 1)?,
        side: side_of(items.get(2)?.value().as_str()?)?,
    })
}

/// A flush.
fn flush_of(items: &[Item]) -> Option<Event> {
    Some(Event::Flush {
        worker: number_at(items, 1)?,
        join: number_at(items, 2)?,
        part: number_at(items, 3)?,
    })
}

/// A mark.
fn mark_of(alloc: Global, types: &KeyTypes, items: &[Item]) -> Result<Option<Event>, AllocError> {
    let (Some(worker), Some(join)) = (number_at(items, 1), number_at(items, 2)) else {
        return Ok(None);
    };
    let Some(spelled) = items.get(3) else {
        return Ok(None);
    };
    match items_of(alloc, spelled.value())? {
        Some(values) => {
            let key = key_of(alloc, types, join, values.as_slice())?;
            Ok(Some(Event::Mark { worker, join, key }))
        }
        None => Ok(None),
    }
}

/// The event that the items of an array spell.
fn event_of(alloc: Global, types: &KeyTypes, items: &[Item]) -> Result<Option<Event>, AllocError> {
    let Some(first) = items.first() else {
        return Ok(None);
    };
    match first.value().as_str() {
        Some(word) => match word {
            "Take" => Ok(take_of(items)),
            "Mark" => mark_of(alloc, types, items),
            "Emit" => Ok(number_at(items, 1).map(|worker| Event::Emit { worker })),
            "Done" => Ok(number_at(items, 1).map(|worker| Event::Done { worker })),
            "Close" => Ok(close_of(items)),
            "Flush" => Ok(flush_of(items)),
            _ => Ok(None),
        },
        None => Ok(None),
    }
}

/// The events that values spell, up to the first that spells none.
pub(crate) fn events_of(
    alloc: Global,
    arena: &Arena,
    values: &[Item],
) -> Result<List<Event>, AllocError> {
    let types = KeyTypes::of(alloc, arena)?;
    let mut events = List::new(alloc);
    for value in values {
        let Some(items) = items_of(alloc, value.value())? else {
            return Ok(events);
        };
        match event_of(alloc, &types, items.as_slice())? {
            Some(event) => events.push(event)?,
            None => return Ok(events),
        }
    }
    Ok(events)
}
