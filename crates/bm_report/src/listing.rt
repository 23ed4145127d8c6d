// The lines of a listing.
ghost use Rattle.std.specs.Prelude.{◌≡◌, ◌+◌, ◌≤◌, ◌++◌, [], length};
ghost use Rattle.bm_report.specs.Listing as spec;

use bm_base::Piece;
use line_model::Item;
use time_interval::{Reason, Reference};
use tuple_ir::Next;

/// Adds a number behind a space.
fn field(piece: &mut Piece, value: u64)
    requires { length piece.old ≤ 400 }
    ensures text { piece.new ≡ piece.old ++ spec.field value }
    ensures length { length piece.new ≤ length piece.old + 21 }
{
    piece.text(b" ");
    piece.count(value);
}

/// Puts the line of an item into an empty piece: `run PROCESSOR TUPLE START`, where `start` is the
/// tuple's start in the schedule, in ticks; or `bar MASK`, for which `start` is not used.
pub fn item_line(item: &Item, start: u32, piece: &mut Piece)
    requires empty { piece.old ≡ [] }
    ensures line { piece.new ≡ spec.item_line_of item.now start }
{
    match item {
        Item::Run { processor, tuple } => {
            piece.text(b"run");
            field(piece, u64::from(*processor));
            field(piece, u64::from(*tuple));
            field(piece, u64::from(start));
        }
        Item::Bar { mask } => {
            piece.text(b"bar ");
            piece.mask(*mask);
        }
    }
    piece.text(b"\n");
}

/// Adds since when.
fn reference(reference: Reference, piece: &mut Piece)
    requires { length piece.old ≤ 300 }
    ensures text { piece.new ≡ piece.old ++ spec.reference_text reference }
    ensures length { length piece.new ≤ length piece.old + 30 }
{
    match reference {
        Reference::Start => piece.text(b" start"),
        Reference::Bar { index } => {
            piece.text(b" bar");
            field(piece, u64::from(index));
        }
    }
}

/// Adds a reason.
fn reason_text(reason: Reason, piece: &mut Piece)
    requires { length piece.old ≤ 200 }
    ensures text { piece.new ≡ piece.old ++ spec.reason_text reason }
    ensures length { length piece.new ≤ length piece.old + 40 }
{
    match reason {
        Reason::SameProcessor => piece.text(b" processor"),
        Reason::ByBarrier => piece.text(b" barrier"),
        Reason::ByTime { reference: since } => {
            piece.text(b" time");
            reference(since, piece);
        }
    }
}

/// Puts the line of a pair of tuples that conflict, and the reason why `a` finishes before `b` can
/// start, into an empty piece.
pub fn pair_line(a: u8, b: u8, reason: Reason, piece: &mut Piece)
    requires empty { piece.old ≡ [] }
    ensures line { piece.new ≡ spec.pair_line_of a b reason }
{
    piece.text(b"pair");
    field(piece, u64::from(a));
    field(piece, u64::from(b));
    reason_text(reason, piece);
    piece.text(b"\n");
}

/// Puts the line of what follows a block, as an image's text has it, into an empty piece.
pub fn next_line(next: Next, piece: &mut Piece)
    requires empty { piece.old ≡ [] }
    ensures line { piece.new ≡ spec.next_line_of next }
{
    match next {
        Next::Halt => piece.text(b"halt"),
        Next::Goto { block } => {
            piece.text(b"goto");
            field(piece, u64::from(block));
        }
        Next::If { cell, yes, no } => {
            piece.text(b"if");
            field(piece, u64::from(cell));
            field(piece, u64::from(yes));
            field(piece, u64::from(no));
        }
    }
    piece.text(b"\n");
}
