//! The laws of what lanes noted.

ghost use Rattle.pipe_run.specs.Laws.{NotesBegin, NotesGoOn, SourcesAreTaken, JoinsAreFlushed};
ghost use Rattle.pipe_run.specs.Laws.{TakesAreFew, FlushesTakeNothing};

/// Before the first round nothing is noted.
pub fn notes_begin()
    ensures { NotesBegin }
{}

/// What a further round noted stands behind what those before it did.
pub fn notes_go_on()
    ensures { NotesGoOn }
{}

/// Where the chunks of a source went through rounds of lanes until it was out, what they noted, round after round and in
/// each lane after lane, are takes of the nodes whose rows the source has: one node after the other, each position once.
pub fn sources_are_taken()
    ensures { SourcesAreTaken }
{}

/// Where the partitions of a join went to lanes, what they noted, lane after lane, are flushes of it: each partition
/// once.
pub fn joins_are_flushed()
    ensures { JoinsAreFlushed }
{}

/// Where the chunks of a source went through rounds of lanes, what they noted are at most as many takes a round as a
/// batch has chunks, each of some rows, at most as many as a chunk has.
pub fn takes_are_few()
    ensures { TakesAreFew }
{}

/// Where the partitions of a join went to lanes, what they noted has no take.
pub fn flushes_take_nothing()
    ensures { FlushesTakeNothing }
{}
