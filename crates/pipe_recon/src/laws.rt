//! Laws of the definitions.

ghost use Rattle.std.specs.Prelude.{◌≡◌};
ghost use Rattle.serde_json.specs.Data.{Data};
ghost use Rattle.pipe_recon.specs.ReconSpelling.{Spells};
ghost use Rattle.pipe_recon.specs.declared.recon_job.ReconJob.{ReconJob as Reconciled};

/// A value spells one reconciliation at most.
#[tactic(auto, using(crate::proofs::OneReconJob::one_recon_job))]
pub fn one_recon_job()
    ensures { (v : Data) (a b : Reconciled) → Spells v a → Spells v b → a ≡ b }
{}
