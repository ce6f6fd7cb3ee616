//! The stop check: whether a run is to end early.

ghost use Rattle.std.specs.Prelude.{◌≡◌, ◌+◌, ◌-◌, ℕ, Bool, false, if◌then◌else◌, ◌==◌};
ghost use Rattle.pipe_schema.specs.Counts.{counted};

use std::marker::Model;

/// What a driver asks whether to go on.
pub trait StopCheck {
    /// How often it was asked, a number that never falls and stands still at its last value.
    ghost asked: { Self → ℕ };

    /// How often it said yes, a number that never falls and stands still at its last value.
    ghost yes: { Self → ℕ };

    /// The last answer.
    ghost last_answer: { Self → Bool };

    /// Whether to stop.
    fn should_stop(&mut self) -> bool
        ensures asked { asked self.new ≡ counted 1 (asked self.old) }
        ensures yes { yes self.new ≡ counted (if result then 1 else 0) (yes self.old) }
        ensures last { last_answer self.new ≡ result };
}

/// Always answers no, and counts its calls.
#[derive(Debug, Drop)]
pub struct NeverStop {
    calls: u64,
}

impl NeverStop {
    /// A check that wasn't asked yet.
    pub fn new() -> NeverStop
        ensures { ⟦<NeverStop as StopCheck>⟧.asked result ≡ 0 }
    {
        NeverStop { calls: 0 }
    }

    /// How often it was asked.
    pub fn asked(&self) -> u64
        ensures { result ≡ ⟦<NeverStop as StopCheck>⟧.asked self.now }
    {
        self.calls
    }
}

impl StopCheck for NeverStop {
    ghost asked = { λ s. s.calls };

    ghost yes = { λ _. 0 };

    ghost last_answer = { λ _. false };

    fn should_stop(&mut self) -> bool {
        self.calls = self.calls.saturating_add(1);
        false
    }
}

/// Answers no so many times, and then yes. Counts its calls and how often it said yes.
#[derive(Debug, Drop)]
pub struct StopAfter {
    left: u64,
    asked: u64,
    yes: u64,
    last_answer: bool,
}

impl Model for StopAfter {
    ghost use Rattle.pipe_schema.specs.Counts.{Countdown};

    ghost Value = { Countdown };

    ghost view = { λ s. record { left = s.left; asked = s.asked; yes = s.yes; last_answer = s.last_answer } };
}

impl StopAfter {
    /// A check that answers no so many times before it answers yes.
    pub fn new(left: u64) -> StopAfter
        ensures { result ≡ record { left = left; asked = 0; yes = 0; last_answer = false } }
    {
        StopAfter {
            left,
            asked: 0,
            yes: 0,
            last_answer: false,
        }
    }

    /// How often it was asked.
    pub fn asked(&self) -> u64
        ensures { result ≡ self.now.asked }
    {
        self.asked
    }

    /// How often it said yes.
    pub fn yes(&self) -> u64
        ensures { result ≡ self.now.yes }
    {
        self.yes
    }
}

impl StopCheck for StopAfter {
    ghost asked = { λ s. s.asked };

    ghost yes = { λ s. s.yes };

    ghost last_answer = { λ s. s.last_answer };

    fn should_stop(&mut self) -> bool
        ensures asked { self.new.asked ≡ counted 1 self.old.asked }
        ensures yes { self.new.yes ≡ counted (if result then 1 else 0) self.old.yes }
        ensures last { self.new.last_answer ≡ result }
        ensures answer { result ≡ (self.old.left == 0) }
        ensures left { self.new.left ≡ self.old.left - 1 }
    {
        let stop = self.left == 0;
        self.left = self.left.saturating_sub(1);
        self.asked = self.asked.saturating_add(1);
        self.yes = self.yes.saturating_add(u64::from(stop));
        self.last_answer = stop;
        stop
    }
}
