//! What lanes noted goes into a journal, as events.

ghost use Rattle.std.specs.Prelude.{◌≡◌, ◌++◌, map, slice_index_or, IfOk, OnOk};
ghost use Rattle.pipe_events.specs.EventValues.{event_value};
ghost use Rattle.pipe_run.specs.Notes.{event_of, events_of, ending_of};

use crate::entry::Entry;
use crate::note::Note;
use pipe_events::{Event, Side};
use std::alloc::AllocError;

/// The node at a number among those of a source, 0 past the last.
fn node_at(nodes: &[u32], part: u32) -> u32
    ensures { result ≡ slice_index_or nodes.now part 0 }
{
    match nodes.get(part as usize) {
        Some(node) => *node,
        None => 0,
    }
}

/// A number of 32 bits. A greater one is want of memory: no frame has so many rows.
fn narrow(number: u64) -> Result<u32, AllocError>
    ensures { IfOk result (λ n. n ≡ number) }
{
    if number > 4294967295 {
        return Err(AllocError);
    }
    Ok(number as u32)
}

/// The event of what a lane noted.
fn event_of(nodes: &[u32], join: u32, note: Note) -> Result<Event, AllocError>
    ensures { IfOk result (λ event. event_value event ≡ event_of nodes.now join note) }
{
    let Note { worker, entry } = note;
    match entry {
        Entry::Take { part, from, count } => {
            let (from, count) = (narrow(from)?, narrow(count)?);
            Ok(Event::Take {
                worker,
                source: node_at(nodes, part),
                from,
                count,
            })
        }
        Entry::Flush { part } => Ok(Event::Flush { worker, join, part }),
        Entry::Done => Ok(Event::Done { worker }),
    }
}

/// What lanes noted goes behind other events.
fn write_notes(
    journal: &mut Vec<Event>,
    nodes: &[u32],
    join: u32,
    notes: &[Note],
) -> Result<(), AllocError>
    ensures { OnOk result (map event_value journal.new.items
        ≡ map event_value journal.old.items ++ events_of nodes.now join notes.now) }
{
    for note in notes {
        journal.push(event_of(nodes, join, *note)?)?;
    }
    Ok(())
}

/// What lanes noted of a source, whose frames are those of some nodes, goes behind other events.
pub fn write_takes(
    journal: &mut Vec<Event>,
    nodes: &[u32],
    notes: &[Note],
) -> Result<(), AllocError>
    ensures { OnOk result (map event_value journal.new.items
        ≡ map event_value journal.old.items ++ events_of nodes.now 0 notes.now) }
{
    write_notes(journal, nodes, 0, notes)
}

/// Where a join has so many partitions to flush, its probe side is closed, and what lanes noted of them goes behind that,
/// behind other events. Where it has none, nothing is written.
pub fn write_flushes(
    journal: &mut Vec<Event>,
    join: u32,
    parts: u32,
    notes: &[Note],
) -> Result<(), AllocError>
    ensures { OnOk result (map event_value journal.new.items
        ≡ map event_value journal.old.items ++ ending_of join parts notes.now) }
{
    if parts == 0 {
        return Ok(());
    }
    journal.push(Event::Close {
        node: join,
        side: Side::Probe,
    })?;
    write_notes(journal, &[], join, notes)
}
