// What a program came to when it was compiled, and its lines.
ghost use Rattle.std.specs.Prelude.{◌≡◌, ◌+◌, ◌<◌, ◌≤◌, ◌++◌, [], Some, length, slice_get, codes, decimal};
ghost use Rattle.bm_report.specs.Summary.{summary_lines};

use bm_base::Piece;

/// What a program came to when it was compiled.
#[derive(Clone, Copy, Debug, PartialEq, Eq)]
pub struct Summary {
    /// How many blocks.
    pub blocks: u64,
    /// How many tuples all blocks have.
    pub tuples: u64,
    /// How many pairs of tuples of one block conflict.
    pub pairs: u64,
    /// How many of these are in order because one processor has both.
    pub by_processor: u64,
    /// How many are in order by a chain of barriers, and not by processor.
    pub by_barrier: u64,
    /// How many are in order by time alone.
    pub by_time: u64,
    /// How many barriers were inserted.
    pub inserted: u64,
    /// How many of them are left: those of the lines that run.
    pub kept: u64,
    /// The ticks of the blocks' schedules, summed.
    pub makespan: u64,
    /// The greatest times of all tuples, summed, in ticks.
    pub work: u64,
    /// The greatest times along each block's longest chain of conflicts, summed, in ticks.
    pub longest: u64,
}

/// Adds a number behind some words.
fn counted(piece: &mut Piece, words: &[u8], value: u64)
    requires { length piece.old + length words.now + 20 ≤ 512 }
    ensures text { piece.new ≡ piece.old ++ (words.now ++ decimal value) }
    ensures length { length piece.new ≤ length piece.old + length words.now + 20 }
{
    piece.text(words);
    piece.count(value);
}

/// Puts line `row` of a summary, which is 0 to 4, into an empty piece.
pub fn summary_line(summary: &Summary, row: u8, piece: &mut Piece)
    requires row { row < 5 }
    requires empty { piece.old ≡ [] }
    ensures { slice_get (summary_lines summary.now) row ≡ Some piece.new }
{
    match row {
        0 => counted(piece, b"blocks ", summary.blocks),
        1 => counted(piece, b"tuples ", summary.tuples),
        2 => {
            counted(piece, b"pairs ", summary.pairs);
            counted(piece, b" processor ", summary.by_processor);
            counted(piece, b" barrier ", summary.by_barrier);
            counted(piece, b" time ", summary.by_time);
        }
        3 => {
            counted(piece, b"masks inserted ", summary.inserted);
            counted(piece, b" kept ", summary.kept);
        }
        _ => {
            counted(piece, b"estimate ", summary.makespan);
            counted(piece, b" work ", summary.work);
            counted(piece, b" longest ", summary.longest);
        }
    }
    piece.text(b"\n");
}
