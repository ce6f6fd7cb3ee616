//! Laws of offsets.

ghost use Rattle.std.specs.Prelude.{◌≡◌, ℕ, ◌≤◌, List, length};
ghost use Rattle.pipe_schema.specs.Rows.{Row as Cells};
ghost use Rattle.pipe_ops.specs.Offsets.{split_pieces, joined_pieces, Covers, rows_in};

/// The pieces of a split cover their rows, one after another.
pub fn split_pieces_cover()
    ensures { (rows n : ℕ) → 1 ≤ n → n ≤ rows → Covers 0 (split_pieces rows n) rows }
{}

/// Joined pieces cover what the pieces covered.
pub fn joined_pieces_cover()
    ensures { (at end : ℕ) (ps : List (ℕ × ℕ)) → Covers at ps end →
        Covers at (joined_pieces ps) end }
{}

/// Pieces that cover some rows have each of them once, in order.
pub fn covered_rows_are_all()
    ensures { (rows : List Cells) (ps : List (ℕ × ℕ)) → Covers 0 ps (length rows) →
        rows_in rows ps ≡ rows }
{}
