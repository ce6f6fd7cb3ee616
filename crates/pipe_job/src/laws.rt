//! Laws of the definitions.

ghost use Rattle.std.specs.Prelude.{◌≡◌, ◌∷◌, ◌++◌, List, map, flat_map};
ghost use Rattle.pipe_schema.specs.declared.field.Field.{Field as Column};
ghost use Rattle.pipe_schema.specs.Rows.{Row as Cells};
ghost use Rattle.serde_json.specs.Data.{Data};
ghost use Rattle.pipe_job.specs.JobSpelling.{Spells, Task};
ghost use Rattle.pipe_job.specs.Line.{head_line, row_line, lines};

/// The text of a frame is cut into the line of its column names and the lines of its rows.
#[tactic(auto, using(crate::proofs::Cut::cut_rules))]
pub fn lines_of_frame()
    ensures { (fields : List Column) (rows : List Cells)
        → lines (head_line fields ++ flat_map row_line rows) ≡ head_line fields ∷ map row_line rows }
{}

/// A value spells one job at most.
pub fn one_job()
    ensures { (v : Data) (a b : Task) → Spells v a → Spells v b → a ≡ b }
{}
