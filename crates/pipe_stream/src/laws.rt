//! Laws of the orders in which blocks are put.

ghost use Rattle.std.specs.Prelude.{◌≡◌, ◌<◌, ℕ, List, [], length, flat_map, map, slice_index_or};
ghost use Rattle.pipe_schema.specs.Rows.{Row as Cells, Same};
ghost use Rattle.pipe_job.specs.Line.{row_line};
ghost use Rattle.pipe_stream.specs.Blocks.{IsBlockOrder, block_count, block_text, in_blocks};

/// The blocks in such an order hold the rows of the frame, each as often, whatever the order.
pub fn blocks_hold_the_rows()
    ensures { (list : List Cells) (rows : ℕ) (order : List ℕ) → 0 < rows
        → IsBlockOrder (block_count (length list) rows) order
        → Same (in_blocks list rows order) list }
{}

/// The texts of the blocks in an order are the lines of the rows of these blocks.
pub fn blocks_have_the_lines()
    ensures { (list : List Cells) (rows : ℕ) (order : List ℕ)
        → flat_map (block_text (λ i. row_line (slice_index_or list i [])) (length list) rows) order
        ≡ flat_map row_line (in_blocks list rows order) }
{}
