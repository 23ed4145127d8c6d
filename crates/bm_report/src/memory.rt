// The lines of a memory.
ghost use Rattle.std.specs.Prelude.{◌≡◌, ◌≤◌, ◌<◌, ◌+◌, ◌*◌, ◌++◌, [], length, slice_get, codes, decimal};
ghost use Rattle.bm_io.specs.declared.sinks.SinkFault.TheVariants.{Failed};
ghost use Rattle.bm_io.specs.Causes.{HasCause};
ghost use Rattle.bm_io.specs.Sink.{Sent};
ghost use Rattle.bm_base.specs.Memories.{IsMemoryOf};
ghost use Rattle.bm_base.specs.Names.{AreNames};
ghost use Rattle.bm_report.specs.Text.{memory_lines};
ghost use Rattle.bm_base.specs.Memory.{IsVariable};
ghost use Rattle.bm_report.specs.Held.{name_at, lines_at, variable_at, row_at, elements_at, IsArrayOf};

use bm_base::{Kind, Names, Piece, Store};
use bm_io::{Sink, SinkFault};

const ROW: u64 = 8;

/// Adds the elements of an array from `first` on, eight at most, each behind a space.
fn elements(store: &Store, id: u16, len: u64, first: u64, piece: &mut Piece)
    requires array { IsArrayOf (slice_get store.now id) len }
    requires within { first ≤ len }
    requires few { len < 4294967296 }
    requires room { length piece.old ≤ 300 }
    ensures text { piece.new ≡ piece.old ++ elements_at (slice_get store.now id) first 8 }
    ensures length { length piece.new ≤ length piece.old + 168 }
{
    for index in first..len.min(first + ROW) {
        piece.text(b" ");
        piece.number(store.element(id, index as i64));
    }
}

/// The name of a number.
fn name_piece(names: &Names, id: u16) -> Piece
    requires lawful { AreNames names.now }
    requires name { id < length names.now }
    ensures name { result ≡ name_at (slice_get names.now id) }
    ensures short { length result ≤ 64 }
{
    let mut piece = Piece::new();
    piece.text(names.name(id));
    piece
}

/// The line of a variable.
pub(crate) fn variable_line(names: &Names, store: &Store, id: u16) -> Piece
    requires lawful { AreNames names.now }
    requires name { id < length names.now }
    requires variable { IsVariable store.now id }
    ensures { result ≡ variable_at (slice_get names.now id) (slice_get store.now id) }
{
    let mut piece = name_piece(names, id);
    piece.text(b" ");
    piece.number(store.get(id));
    piece.text(b"\n");
    piece
}

/// The line of an array that begins with its element `first`.
pub(crate) fn row_line(names: &Names, store: &Store, id: u16, len: u64, first: u64) -> Piece
    requires lawful { AreNames names.now }
    requires name { id < length names.now }
    requires array { IsArrayOf (slice_get store.now id) len }
    requires within { first ≤ len }
    requires few { len < 4294967296 }
    ensures { result ≡ row_at (slice_get names.now id) (slice_get store.now id) first }
{
    let mut piece = name_piece(names, id);
    piece.text(b"[");
    piece.count(first);
    piece.text(b"]");
    elements(store, id, len, first, &mut piece);
    piece.text(b"\n");
    piece
}

/// Writes the lines of an array.
fn write_array<O: Sink>(
    out: &mut O,
    names: &Names,
    store: &Store,
    id: u16,
    len: u64,
) -> Result<(), SinkFault>
    requires lawful { AreNames names.now }
    requires name { id < length names.now }
    requires array { IsArrayOf (slice_get store.now id) len }
    requires few { len < 4294967296 }
    ensures sent { Sent (O.taken out.old) (O.taken out.new) (lines_at (slice_get names.now id) (slice_get store.now id)) result }
    ensures cause { HasCause Failed (O.faults out.old) (O.faults out.new) result }
{
    for row in 0..len.div_ceil(ROW) {
        out.write(row_line(names, store, id, len, row * ROW).bytes())?;
    }
    Ok(())
}

/// Writes the lines of a name.
fn write_name<O: Sink>(out: &mut O, names: &Names, store: &Store, id: u16) -> Result<(), SinkFault>
    requires lawful { AreNames names.now }
    requires same { IsMemoryOf names.now store.now }
    requires name { id < length names.now }
    ensures sent { Sent (O.taken out.old) (O.taken out.new) (lines_at (slice_get names.now id) (slice_get store.now id)) result }
    ensures cause { HasCause Failed (O.faults out.old) (O.faults out.new) result }
{
    match names.kind(id) {
        Kind::Var { .. } => out.write(variable_line(names, store, id).bytes()),
        Kind::Array { len } => write_array(out, names, store, id, u64::from(len)),
    }
}

/// Writes the lines of all names, in declared order.
pub(crate) fn write_memory<O: Sink>(
    out: &mut O,
    names: &Names,
    store: &Store,
) -> Result<(), SinkFault>
    requires { IsMemoryOf names.now store.now }
    ensures sent { Sent (O.taken out.old) (O.taken out.new) (memory_lines names.now store.now) result }
    ensures cause { HasCause Failed (O.faults out.old) (O.faults out.new) result }
{
    for id in 0..names.len() {
        write_name(out, names, store, id as u16)?;
    }
    Ok(())
}
