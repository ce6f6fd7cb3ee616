//! The laws of rounds, of the sources that they take, and of journals that grow by them.

ghost use Rattle.pipe_events.specs.Rounds.{RoundsOfTakes, RoundsOfFlushes};
ghost use Rattle.pipe_events.specs.Journals.{EmptyJournalsStand, JournalsTake, JournalsFlush, JournalsClose, JournalsEnd};
ghost use Rattle.pipe_events.specs.Sound.{PlansHaveStages};
ghost use Rattle.pipe_events.specs.Sources.{ReadySourcesHaveTheirRows, TakenSourcesAreSpent};

/// Chunks of a ready source that share no position, by whatever workers, are taken one after the other.
pub fn rounds_of_takes()
    ensures { RoundsOfTakes }
{}

/// Partitions of a join whose probe side is closed, each flushed once, by whatever workers, are flushed one after the
/// other.
pub fn rounds_of_flushes()
    ensures { RoundsOfFlushes }
{}

/// A source that has positions has the rows that are its own in the plan: a scan its rows, a closed sort the list of its
/// input.
pub fn ready_sources_have_their_rows()
    ensures { ReadySourcesHaveTheirRows }
{}

/// A source that has positions is spent where each of them was taken.
pub fn taken_sources_are_spent()
    ensures { TakenSourcesAreSpent }
{}

/// The empty journal stands.
pub fn empty_journals_stand()
    ensures { EmptyJournalsStand }
{}

/// A journal that stands does so with a round of takes behind it.
pub fn journals_take()
    ensures { JournalsTake }
{}

/// And with a round of flushes.
pub fn journals_flush()
    ensures { JournalsFlush }
{}

/// And with a side closed that may be.
pub fn journals_close()
    ensures { JournalsClose }
{}

/// Where all is taken, flushed and closed, it is complete.
pub fn journals_end()
    ensures { JournalsEnd }
{}

/// The stages of a sound plan are such as these laws ask.
pub fn plans_have_stages()
    ensures { PlansHaveStages }
{}
