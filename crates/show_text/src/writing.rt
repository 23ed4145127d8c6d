//! The lines of a listing, one write each.

ghost use Rattle.std.specs.Prelude.{◌≡◌, ◌<◌, ◌^◌, length};
ghost use Rattle.bm_io.specs.declared.sinks.SinkFault.TheVariants.{Failed};
ghost use Rattle.bm_io.specs.Causes.{HasCause};
ghost use Rattle.bm_io.specs.Sink.{Sent};
ghost use Rattle.show_text.specs.Listing as spec;

use crate::shown::{ShownBlock, ShownItem, ShownPair};
use bm_base::Piece;
use bm_io::{Sink, SinkFault};
use bm_report::{item_line, next_line, pair_line};
use tuple_ir::Next;

/// The line that begins a block.
fn block_line(number: usize) -> Piece
    requires { number < 2 ^ 64 }
    ensures { result ≡ spec.block_line_of number }
{
    let mut piece = Piece::new();
    piece.text(b"block ");
    piece.count(number as u64);
    piece.text(b"\n");
    piece
}

#[tactic(auto, unfolding(crate::specs::Listing::shown_item_line))]
fn item_piece(shown: &ShownItem) -> Piece
    ensures { result ≡ spec.shown_item_line shown.now }
{
    let mut piece = Piece::new();
    item_line(&shown.item, shown.start, &mut piece);
    piece
}

#[tactic(auto, unfolding(crate::specs::Listing::shown_pair_line))]
fn pair_piece(shown: &ShownPair) -> Piece
    ensures { result ≡ spec.shown_pair_line shown.now }
{
    let mut piece = Piece::new();
    pair_line(shown.a, shown.b, shown.reason, &mut piece);
    piece
}

#[tactic(auto, unfolding(crate::specs::Listing::shown_next_line))]
fn next_piece(next: Next) -> Piece
    ensures { result ≡ spec.shown_next_line next }
{
    let mut piece = Piece::new();
    next_line(next, &mut piece);
    piece
}

fn write_items<O: Sink>(out: &mut O, items: &[ShownItem]) -> Result<(), SinkFault>
    ensures sent { Sent (O.taken out.old) (O.taken out.new) (spec.item_lines items.now) result }
    ensures cause { HasCause Failed (O.faults out.old) (O.faults out.new) result }
{
    for item in items {
        out.write(item_piece(item).bytes())?;
    }
    Ok(())
}

fn write_pairs<O: Sink>(out: &mut O, pairs: &[ShownPair]) -> Result<(), SinkFault>
    ensures sent { Sent (O.taken out.old) (O.taken out.new) (spec.pair_lines pairs.now) result }
    ensures cause { HasCause Failed (O.faults out.old) (O.faults out.new) result }
{
    for pair in pairs {
        out.write(pair_piece(pair).bytes())?;
    }
    Ok(())
}

fn write_block<O: Sink>(out: &mut O, number: usize, shown: &ShownBlock) -> Result<(), SinkFault>
    requires { number < 2 ^ 64 }
    ensures sent { Sent (O.taken out.old) (O.taken out.new) (spec.block_lines number shown.now) result }
    ensures cause { HasCause Failed (O.faults out.old) (O.faults out.new) result }
{
    out.write(block_line(number).bytes())?;
    write_items(out, shown.items.items())?;
    write_pairs(out, shown.pairs.items())?;
    out.write(next_piece(shown.next).bytes())
}

/// Writes the listing of the blocks: for each its number, its items with their starts, its conflicting
/// pairs with their reasons, and what follows it.
pub fn write_listing<O: Sink>(out: &mut O, shown: &[ShownBlock]) -> Result<(), SinkFault>
    ensures sent { Sent (O.taken out.old) (O.taken out.new) (spec.listing shown.now) result }
    ensures cause { HasCause Failed (O.faults out.old) (O.faults out.new) result }
{
    for number in 0..shown.len() {
        write_block(out, number, &shown[number])?;
    }
    Ok(())
}
