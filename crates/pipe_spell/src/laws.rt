//! Laws of what is spelled.

ghost use Rattle.std.specs.Prelude.{◌≡◌, true, false};
ghost use Rattle.serde_json.specs.Written.{has_float};
ghost use Rattle.pipe_job.specs.JobSpelling.{Task, TaskFits, task_spelling};
ghost use Rattle.pipe_spell.specs.Literals.{task_known};
ghost use Rattle.pipe_spell.specs.Ranges.{TaskInRange};

/// Where a value spells a job, one spells each job of the same version, numbers and frames whose numbers are within
/// their ranges and whose literals are known.
pub fn spelled_with_other_nodes()
    ensures { (job other : Task) → TaskFits job → other.version ≡ job.version
        → other.config ≡ job.config → other.plan.frames ≡ job.plan.frames
        → TaskInRange other → task_known other ≡ true → TaskFits other }
{}

/// What spells a job has no float.
pub fn no_floats()
    ensures { (job : Task) → has_float (task_spelling job) ≡ false }
{}
