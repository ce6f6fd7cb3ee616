//! What stands for a join's probe in a plan's pipelines, until its built side has run.

ghost use Rattle.std.specs.Prelude.{◌≡◌, None, IfOk};
ghost use Rattle.pipe_chain.specs.Flow.{no_acts};
ghost use Rattle.pipe_table.specs.Spec.{IsSpec};
ghost use Rattle.pipe_slots.specs.CallBackWords.{kind_in, spec_in, seat_in, idle_in, acts_by};
ghost use Rattle.pipe_slots.specs.Kinds.{kind_of};

use crate::call_back::CallBack;
use crate::probe_kind::{ProbeKind, probe_for};
use pipe_index::HashesKeys;
use pipe_outer::{GenericFullOuterJoinProbe, GenericMarkProbe};
use pipe_probe::{CrossJoinProbe, GenericJoinProbe};
use pipe_table::JoinSpec;
use std::alloc::{AllocError, Global};
use std::marker::Model;
use std::sync::Arc;

/// The place of a join's probe, by the node of the join (polars-pipe's `PlaceHolder`).
pub struct PlaceHolder {
    node: u32,
    spec: Arc<JoinSpec>,
}

impl Drop for PlaceHolder {
    fn drop(self) {
        let PlaceHolder { node: _, spec } = self;
        drop(spec);
    }
}

impl Model for PlaceHolder {
    ghost use Rattle.std.specs.Coded.{codes};
    ghost use Rattle.pipe_expr.specs.contracts.expr.Expr as e;
    ghost use Rattle.pipe_slots.specs.Places.{Place};
    ghost use Rattle.pipe_table.specs.Spec.{IsSpec};

    ghost Value = { Place };

    ghost coded = { Prim.hlevel (codes, e.the_row.coded) };

    ghost view = { λ p. record { node = p.node; spec = p.spec.value } };

    ghost invariant = { λ p. IsSpec p.spec.value };
}

/// The place of the probe of a join, by the join's node (polars-pipe's `get_dummy_operator`).
pub fn get_dummy_operator(node: u32, spec: Arc<JoinSpec>) -> PlaceHolder
    requires { IsSpec spec.value }
    ensures node { result.node ≡ node }
    ensures spec { result.spec ≡ spec.value }
{
    PlaceHolder { node, spec }
}

impl PlaceHolder {
    /// The node of the join.
    pub fn node(&self) -> u32
        ensures { result ≡ self.now.node }
    {
        self.node
    }

    /// The settings of the join.
    pub fn spec(&self) -> &Arc<JoinSpec>
        ensures spec { result.now.value ≡ self.now.spec }
        ensures good { IsSpec self.now.spec }
    {
        &self.spec
    }

    /// The probe of the join, which has begun nothing and holds no seat.
    pub fn split<H: HashesKeys>(
        &self,
        alloc: Global,
        thread_no: usize,
    ) -> Result<CallBack<H>, AllocError>
        ensures kind { let spec = self.now.spec in
            IfOk result (λ made. kind_in made ≡ kind_of spec.how spec.swapped) }
        ensures spec { IfOk result (λ made. spec_in made ≡ self.now.spec) }
        ensures seat { IfOk result (λ made. seat_in made ≡ None) }
        ensures acts { IfOk result (λ made. acts_by made ≡ no_acts) }
        ensures idle { IfOk result (λ made. idle_in made) }
    {
        let spec = self.spec.clone()?;
        match probe_for(spec.how, spec.swapped) {
            ProbeKind::Joins => Ok(CallBack::Join(GenericJoinProbe::new(alloc, spec)?)),
            ProbeKind::Crosses => Ok(CallBack::Cross(CrossJoinProbe::new(alloc, spec)?)),
            ProbeKind::Fulls => Ok(CallBack::Full(GenericFullOuterJoinProbe::new(spec))),
            ProbeKind::Marks => Ok(CallBack::Mark(GenericMarkProbe::new(spec))),
        }
    }
}
