//! The rule of the queue: who may send and take, and what is still to come.

ghost use Rattle.std.specs.Prelude.{ℕ, List};

use crate::message::Message;
use crossbeam_queue::protocol::{Outcome, Protocol, Split};
use crossbeam_queue::{Pass, RuledArrayQueue};
use std::alloc::Global;
use std::collections::LinkedList;
use std::marker::{Brand, PhantomData};

/// The blocks of one call: it is picked where the workers are started.
pub(crate) trait Blocks {
    /// The text of each block.
    ghost text: { ℕ → List ℕ };

    /// How many there are.
    ghost count: { ℕ };
}

impl Blocks for Brand {
    ghost use Rattle.std.specs.Prelude.{[]};

    ghost text = { λ number. [] };

    ghost count = { 0 };
}

/// What a pass may do with one worker's messages, and what is still to be sent or taken. No value of it is made.
pub struct Hand {
    pub sends: bool,
    pub left: LinkedList<Message>,
    pub takes: bool,
    pub due: LinkedList<Message>,
}

/// What a pass knows: a hand for each worker. No value of it is made.
pub struct View {
    pub even: Hand,
    pub odd: Hand,
}

/// The rule: what is still to come from a worker is what the queue holds of it and what it has still to send.
pub(crate) struct InOrder<J>(PhantomData<J>);

impl<J: Blocks> Protocol<Message, View> for InOrder<J> {
    ghost use Rattle.std.specs.Prelude.{true, false};
    ghost use Rattle.pipe_stream.specs.Messages.{script};
    ghost use Rattle.pipe_stream.specs.Hands.{Dealt, both_hands, view_of};

    ghost holds = { Dealt };

    ghost first = { view_of (both_hands (script J.text J.count false 0)) (both_hands (script J.text J.count true 0)) };
}

/// The right to send the even blocks, or the odd ones, goes to a worker.
pub(crate) struct ToEven;

pub(crate) struct ToOdd;

impl Split<View> for ToEven {
    ghost use Rattle.std.specs.Prelude.{false};
    ghost use Rattle.pipe_stream.specs.Hands.{hand, without_sender, worker};

    ghost left = { λ v. without_sender false v };

    ghost right = { λ v. worker false (hand false v).left };
}

impl Split<View> for ToOdd {
    ghost use Rattle.std.specs.Prelude.{true};
    ghost use Rattle.pipe_stream.specs.Hands.{hand, without_sender, worker};

    ghost left = { λ v. without_sender true v };

    ghost right = { λ v. worker true (hand true v).left };
}

/// A message is sent.
pub(crate) struct Sent;

impl Outcome<Message, View> for Sent {
    ghost use Rattle.std.specs.Prelude.{◌≡◌};
    ghost use Rattle.pipe_stream.specs.Hands.{sent};

    ghost then = { λ v message w. w ≡ sent message v };
}

/// A message is taken.
pub(crate) struct Taken;

impl Outcome<Message, View> for Taken {
    ghost use Rattle.pipe_stream.specs.Hands.{Takes};

    ghost then = { Takes };
}

/// The queue between the workers and the caller.
pub(crate) type Line<J> = RuledArrayQueue<Message, View, InOrder<J>, Global>;

/// What one of them may do with it.
pub(crate) type Seat = Pass<Message, View>;
