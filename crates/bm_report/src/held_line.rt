// One line of a memory.
ghost use Rattle.std.specs.Prelude.{◌≡◌, ◌<◌, ◌/◌, [], Some, length, slice_get};
ghost use Rattle.bm_base.specs.Memories.{IsMemoryOf};
ghost use Rattle.bm_report.specs.Held.{lines_at, BeginsLine};

use crate::memory::{row_line, variable_line};
use bm_base::{Kind, Names, Piece, Store};

/// Puts a line of what a name holds into an empty piece: that of a variable, with `first` 0, or that of
/// an array's elements from number `first` on, a multiple of 8, eight at most.
pub fn memory_line(names: &Names, store: &Store, id: u16, first: u32, piece: &mut Piece)
    requires same { IsMemoryOf names.now store.now }
    requires name { id < length names.now }
    requires first { BeginsLine (slice_get store.now id) first }
    requires empty { piece.old ≡ [] }
    ensures { slice_get (lines_at (slice_get names.now id) (slice_get store.now id)) (first / 8) ≡ Some piece.new }
{
    // Only for its contract.
    let _count = names.len();
    match names.kind(id) {
        Kind::Var { .. } => piece.text(variable_line(names, store, id).bytes()),
        Kind::Array { len } => {
            let line = row_line(names, store, id, u64::from(len), u64::from(first));
            piece.text(line.bytes());
        }
    }
}
