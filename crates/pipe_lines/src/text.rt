//! The texts of pipelines.

ghost use Rattle.std.specs.Prelude.{◌≡◌, Some};
ghost use Rattle.std.specs.List.{flat_map};
ghost use Rattle.std.specs.Fmt.{WritesOnOk};
ghost use Rattle.pipe_driver.specs.Texts.{arrow_word};
ghost use Rattle.pipe_slots.specs.Sinks.{sink_text};
ghost use Rattle.pipe_slots.specs.PhysWords.{text_of};
ghost use Rattle.pipe_lines.specs.Lines.{stage_text, part_text, leg_text, line_text, source_or_none};

use crate::pipe_line::PipeLine;
use pipe_driver::Leg;
use pipe_engine::Part;
use pipe_index::HashesKeys;
use pipe_ops::{Sink, Source};
use pipe_run::Stage;
use pipe_slots::{PhysOperator, PhysSink};
use pipe_source::PhysSource;
use std::fmt;

/// The word of an operator: the place of a probe stands as the probe, which each lane has in its stead.
fn operator_word<H: HashesKeys>(operator: &PhysOperator<H>) -> &str
    ensures { result.now ≡ text_of operator.now }
{
    match operator {
        PhysOperator::PlaceHolder(_) => "callback",
        PhysOperator::Filter(_)
        | PhysOperator::SimpleProjection(_)
        | PhysOperator::Projection(_)
        | PhysOperator::Hstack(_)
        | PhysOperator::Function(_)
        | PhysOperator::Pass(_)
        | PhysOperator::CallBack(_) => operator.planned_text(),
    }
}

/// The word of a sink.
fn sink_word<H: HashesKeys>(sink: &PhysSink<H>) -> &str
    ensures { result.now ≡ sink_text sink.now }
{
    match sink {
        PhysSink::Ordered(sink) => sink.fmt(),
        PhysSink::Sort(sink) => sink.fmt(),
        PhysSink::Build(_) => "generic_join_build",
        PhysSink::Cross(sink) => sink.fmt(),
    }
}

/// Writes a word behind an arrow.
fn write_word<W: fmt::Write>(f: &mut fmt::Formatter<W>, word: &str) -> fmt::Result
    ensures { WritesOnOk W.write_str_gives f.old result (arrow_word word.now) f.new }
{
    f.write_str(" -> ")?;
    f.write_str(word)
}

/// Writes the words of stages.
fn write_stages<W: fmt::Write, H: HashesKeys>(
    f: &mut fmt::Formatter<W>,
    stages: &[Stage<PhysOperator<H>>],
) -> fmt::Result
    ensures { WritesOnOk W.write_str_gives f.old result (flat_map stage_text stages.now) f.new }
{
    for stage in stages {
        write_word(f, operator_word(&stage.operator))?;
    }
    Ok(())
}

/// Writes the words of a leg: those of its operators, and that of its sink.
fn write_part<W: fmt::Write, H: HashesKeys>(
    f: &mut fmt::Formatter<W>,
    part: &Part<H>,
) -> fmt::Result
    ensures { WritesOnOk W.write_str_gives f.old result (part_text part.now) f.new }
{
    write_stages(f, part.stages.as_slice())?;
    write_word(f, sink_word(&part.target.sink))
}

/// Writes the words of legs.
fn write_legs<W: fmt::Write, H: HashesKeys>(
    f: &mut fmt::Formatter<W>,
    legs: &[Leg<Part<H>>],
) -> fmt::Result
    ensures { WritesOnOk W.write_str_gives f.old result (flat_map leg_text legs.now) f.new }
{
    for leg in legs {
        write_part(f, &leg.part)?;
    }
    Ok(())
}

/// Writes the text of a source, where there is one.
fn write_source<W: fmt::Write>(
    f: &mut fmt::Formatter<W>,
    source: &Option<PhysSource>,
) -> fmt::Result
    ensures { WritesOnOk W.write_str_gives f.old result (source_or_none source.now) f.new }
{
    match source {
        Some(source) => f.write_str(source.fmt()),
        None => Ok(()),
    }
}

/// Its source, its operators and its sinks in the order in which rows come to them, with an arrow before each: the line
/// that `explain` prints of its branch.
impl<H: HashesKeys> fmt::Display for PipeLine<H> {
    ghost output = { λ line. Some (line_text line.way) };

    fn fmt<W: fmt::Write>(&self, f: &mut fmt::Formatter<W>) -> fmt::Result {
        write_source(f, &self.way.source)?;
        write_legs(f, self.way.legs.as_slice())
    }
}
