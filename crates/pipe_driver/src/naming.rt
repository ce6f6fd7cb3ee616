//! The numbers of the sinks of a plan, in the order in which they are named.

ghost use Rattle.std.specs.Prelude.{◌≡◌, ◌+◌, ◌*◌, ◌<◌, ◌^◌, [], true, IfOk, OnOk};
ghost use Rattle.pipe_driver.specs.Branches.{number_of};
ghost use Rattle.pipe_driver.specs.Climbing.{Named, slot_of, is_sink_in, add_name};

use crate::branch::SinkAt;
use pipe_schema::List;
use std::alloc::{AllocError, Global};
use std::marker::Model;

/// The sinks that were named, and for each sink of a plan of so many nodes the number under which it was, if any.
pub(crate) struct Naming {
    nodes: usize,
    sinks: List<SinkAt>,
    numbers: Vec<Option<u32>>,
}

impl Drop for Naming {
    fn drop(self) {
        let Naming {
            nodes: _,
            sinks,
            numbers,
        } = self;
        drop(sinks);
        drop(numbers);
    }
}

impl Model for Naming {
    ghost use Rattle.std.specs.Prelude.{◌≡◌, ◌+◌, ◌*◌, ◌<◌, ◌^◌, length, count_by, is_none};
    ghost use Rattle.pipe_driver.specs.Climbing.{Named, AreNumbers};

    ghost Value = { Named };

    ghost view = { λ n. record { sinks = n.sinks; nodes = n.nodes } };

    ghost invariant = { λ n. (n.nodes < 2 ^ 30)
        × (length n.numbers.items ≡ 2 * n.nodes + 1)
        × (length n.sinks + count_by is_none n.numbers.items ≡ 2 * n.nodes + 1)
        × AreNumbers n.sinks n.numbers.items };
}

/// Where a sink has its number in the table.
fn slot_of_sink(at: SinkAt) -> usize
    ensures { result ≡ slot_of at }
{
    match at {
        SinkAt::Ordered => 0,
        SinkAt::Sort(node) => 2 * node as usize + 1,
        SinkAt::Build(node) => 2 * node as usize + 2,
    }
}

impl Naming {
    /// No sink of a plan of so many nodes is named.
    pub(crate) fn new(alloc: Global, nodes: usize) -> Result<Naming, AllocError>
        requires { nodes < 2 ^ 30 }
        ensures { IfOk result (λ naming. naming ≡ record { sinks = []; nodes = nodes }) }
    {
        let numbers = vec![in alloc; None; 2 * nodes + 1]?;
        Ok(Naming {
            nodes,
            sinks: List::new(alloc),
            numbers,
        })
    }

    /// The number of a sink, which is the next one where it wasn't named yet.
    pub(crate) fn number(&mut self, at: SinkAt) -> Result<u32, AllocError>
        requires { is_sink_in self.old.nodes at ≡ true }
        ensures number { IfOk result (λ number. number ≡ number_of self.old.sinks at) }
        ensures named { OnOk result (self.new ≡ add_name self.old at) }
    {
        let slot = slot_of_sink(at);
        match self.numbers[slot] {
            Some(number) => Ok(number),
            None => {
                let number = self.sinks.len() as u32;
                self.sinks.push(at)?;
                self.numbers[slot] = Some(number);
                Ok(number)
            }
        }
    }
}
