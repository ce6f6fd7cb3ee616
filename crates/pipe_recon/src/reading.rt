//! The reader of reconciliations.

ghost use Rattle.std.specs.Prelude.{◌≡◌, IfNone, IfOk, IfSome, IsErrOf};
ghost use Rattle.pipe_value.specs.View.{view};
ghost use Rattle.pipe_job.specs.FrameSpelling.{FrameFits};
ghost use Rattle.pipe_job.specs.Reading.{ReadsNothing};
ghost use Rattle.pipe_recon.specs.ReconReading.{ReadsNoReconJob, ReadsReconJob};
ghost use Rattle.pipe_recon.specs.ReconShape.{are_two_frames, is_recon_job};
ghost use Rattle.pipe_recon.specs.ReconSpelling.{PartsFit, Spells, frames_spelling, has_int128, recon_spelling};

use crate::recon_job::ReconJob;
use crate::recon_spec::ReconSpec;
use pipe_frame::DataFrame;
use pipe_job::{
    JobBack, JobError, Members, Misread, Spelled, back_of, fields_have_int128, read_value,
    two_items,
};
use pipe_plan::PipeConfig;
use pipe_schema::{List, Text};
use pipe_value::Value;
use std::alloc::{AllocError, Global};

/// The left and the right table.
#[derive(Drop)]
struct TwoFrames {
    left: DataFrame,
    right: DataFrame,
}

impl Spelled for TwoFrames {
    ghost spelling = { λ frames. frames_spelling frames.left frames.right };

    ghost fits = { λ frames. FrameFits frames.left × FrameFits frames.right };

    ghost shape = { are_two_frames };

    fn read(alloc: Global, value: &Value) -> Result<TwoFrames, Misread> {
        let (left, right) = two_items(alloc, value)?;
        let left = DataFrame::read(alloc, left.value())?;
        let right = DataFrame::read(alloc, right.value())?;
        Ok(TwoFrames { left, right })
    }
}

impl Spelled for ReconJob {
    ghost spelling = { recon_spelling };

    ghost fits = { PartsFit };

    ghost shape = { is_recon_job };

    /// Whether the types are those of the version isn't looked at here. The tables are read behind the other members.
    #[tactic(auto, using(crate::proofs::Shapes::recon_shapes))]
    fn read(alloc: Global, value: &Value) -> Result<ReconJob, Misread> {
        let mut members = Members::of(value)?;
        let chunk_rows = members.field::<u32>(alloc, "chunk_rows")?;
        let frames = members.take("frames")?;
        let join_nulls = members.field::<bool>(alloc, "join_nulls")?;
        let on = members.field::<List<Text>>(alloc, "on")?;
        let JobBack {
            row_limit,
            version,
            workers,
        } = back_of(alloc, &mut members)?;
        let TwoFrames { left, right } = TwoFrames::read(alloc, frames)?;
        Ok(ReconJob {
            version,
            config: PipeConfig {
                workers,
                chunk_rows,
                row_limit,
            },
            left,
            right,
            spec: ReconSpec { on, join_nulls },
        })
    }
}

/// Whether a column of a table has the type Int128.
fn has_int128(job: &ReconJob) -> bool
    ensures { result ≡ has_int128 job.now }
{
    fields_have_int128(job.left.schema().fields())
        || fields_have_int128(job.right.schema().fields())
}

/// The reconciliation that a value spells, none exactly where it spells none.
#[tactic(auto, using(crate::proofs::Again::no_recon_job))]
pub fn recon_job_of(alloc: Global, value: &Value) -> Result<Option<ReconJob>, AllocError>
    ensures found { IfOk result
        (λ found. IfSome found (λ job. Spells (view value.now) job)) }
    ensures none { IfOk result
        (λ found. IfNone found ((job : ReconJob) → Spells (view value.now) job → ⊥)) }
{
    match ReconJob::read(alloc, value) {
        Ok(job) => if job.version == 1 && has_int128(&job) {
            Ok(None)
        } else {
            Ok(Some(job))
        },
        Err(Misread::Other) => Ok(None),
        Err(Misread::Memory) => Err(AllocError),
    }
}

/// The reconciliation that bytes spell. `BadText` where they are no JSON text, `BadJob` exactly where the value read
/// spells none.
pub fn read_recon_job(alloc: Global, bytes: &[u8]) -> Result<ReconJob, JobError>
    ensures job { IfOk result (λ job. ReadsReconJob bytes.now job) }
    ensures bad_text { IsErrOf result JobError.BadText → ReadsNothing bytes.now }
    ensures bad_job { IsErrOf result JobError.BadJob → ReadsNoReconJob bytes.now }
{
    let value = read_value(alloc, bytes)?;
    match recon_job_of(alloc, &value) {
        Ok(Some(job)) => Ok(job),
        Ok(None) => Err(JobError::BadJob),
        Err(_) => Err(JobError::Memory),
    }
}
