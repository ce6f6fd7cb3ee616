//! `selftest START ROWS`: two frames are drawn and joined in three ways, and it is told how many rows each join has.

ghost use Rattle.std.specs.Prelude.{◌≡◌, ◌≤◌, ℕ, List, true, IfOk, IfErr, IsErrOf, OnOk};
ghost use Rattle.pipe_schema.specs.Counts.{Counts, Rises};
ghost use Rattle.pipe_selftest.specs.Ends.{IsWithin};
ghost use Rattle.pipe_selftest.specs.Joins.{full_root, inner_root, left_root, plan_from};
ghost use Rattle.pipe_selftest.specs.Lines.{row_count};
ghost use Rattle.pipe_cli.specs.Answers.{text_of};
ghost use Rattle.pipe_cli.specs.Contract.{Answered, Causes};
ghost use Rattle.pipe_cli.specs.Commands.SelfTestCommand.{selftest};
ghost use Rattle.pipe_cli.specs.Status.{OneOf, status_of, yes_in};

use crate::answer::Answer;
use crate::refused::refused;
use crate::status::Refusal;
use pipe_schema::{Gate, StopCheck};
use pipe_selftest::{JoinCounts, selftest as counts_of, selftest_lines};
use std::alloc::Global;
use std::thread::Threads;

/// How many rows each join has.
#[tactic(auto, using(crate::proofs::TestLemmas::told_test, crate::proofs::TestLemmas::told_only, crate::proofs::RuleLemmas::told_yes, crate::proofs::RuleLemmas::told_last))]
fn rows_of<T: Threads + Sync, C: StopCheck, G: Gate + Sync>(
    rt: &T,
    alloc: Global,
    start: u64,
    rows: u32,
    stop: &mut C,
    gate: &G,
) -> Result<JoinCounts, Refusal>
    requires some { 1 ≤ rows }
    requires few { rows ≤ 1000000 }
    ensures inner { IfOk result (λ counts. counts.inner ≡ row_count inner_root start rows) }
    ensures left { IfOk result (λ counts. counts.left ≡ row_count left_root start rows) }
    ensures full { IfOk result (λ counts. counts.full ≡ row_count full_root start rows) }
    ensures within { OnOk result (IsWithin (plan_from start rows)) }
    ensures err { (bytes : List ℕ) → IfErr result (λ r. Causes (selftest start rows) r bytes) }
    ensures only { IfErr result (λ r. OneOf (selftest start rows).statuses (status_of r)) }
    ensures asked { OnOk result (Rises (C.asked stop.old) (C.asked stop.new)) }
    ensures yes { Counts (yes_in result) (C.yes stop.old) (C.yes stop.new) }
    ensures last { IsErrOf result Refusal.Stopped → C.last_answer stop.new ≡ true }
{
    match counts_of(rt, alloc, start, rows, stop, gate) {
        Ok(counts) => Ok(counts),
        Err(error) => Err(refused(alloc, error)),
    }
}

/// The lines of a self-test.
#[tactic(auto, using(crate::proofs::RuleLemmas::yes_passed, crate::proofs::TestLemmas::test_answer))]
pub(crate) fn selftest<T: Threads + Sync, C: StopCheck, G: Gate + Sync>(
    rt: &T,
    alloc: Global,
    start: u64,
    rows: u32,
    stop: &mut C,
    gate: &G,
) -> Result<Answer, Refusal>
    requires some { 1 ≤ rows }
    requires few { rows ≤ 1000000 }
    ensures ok { (bytes : List ℕ) → IfOk result
        (λ answer. Answered (selftest start rows) bytes (text_of answer)) }
    ensures err { (bytes : List ℕ) → IfErr result (λ r. Causes (selftest start rows) r bytes) }
    ensures only { IfErr result (λ r. OneOf (selftest start rows).statuses (status_of r)) }
    ensures asked { OnOk result (Rises (C.asked stop.old) (C.asked stop.new)) }
    ensures yes { Counts (yes_in result) (C.yes stop.old) (C.yes stop.new) }
    ensures last { IsErrOf result Refusal.Stopped → C.last_answer stop.new ≡ true }
{
    let counts = rows_of(rt, alloc, start, rows, stop, gate)?;
    let text = selftest_lines(alloc, counts)?;
    Ok(Answer::Made(text))
}
