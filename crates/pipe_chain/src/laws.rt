//! Laws of rows through operators that also mark keys.

ghost use Rattle.std.specs.Prelude.{◌≡◌, ℕ, List, ◌++◌};
ghost use Rattle.std.specs.List.{flat_map};
ghost use Rattle.pipe_schema.specs.Rows.{Row, Same};
ghost use Rattle.pipe_chain.specs.Flow.{Work, Acts, Flows, added, AllFew};
ghost use Rattle.pipe_chain.specs.Unmarking.{AllUnmarking, through};

/// Two flows are one: of the rows of both, with the acts of both.
pub fn flows_add_up()
    ensures { (works : List Work) (a b : List Acts) (rows more out later : List Row) →
        Flows works a rows out → Flows works b more later →
        Flows works (added a b) (rows ++ more) (out ++ later) }
{}

/// Where no operator marks, what goes out is what each row becomes.
pub fn plain_chains_work_row_by_row()
    ensures { (works : List Work) (acts : List Acts) (rows out : List Row) →
        AllUnmarking works → AllFew acts → Flows works acts rows out →
        Same out (flat_map (through works) rows) }
{}
