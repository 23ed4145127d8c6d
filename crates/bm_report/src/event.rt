// The line of an event.
ghost use Rattle.std.specs.Prelude.{◌≡◌, ◌+◌, ◌≤◌, ◌++◌, [], codes, length, IsTrue};
ghost use Rattle.std.specs.Fmt.{signed_decimal};
ghost use Rattle.bm_base.specs.Numeral.{hexadecimal};
ghost use Rattle.bm_report.specs.Events.{then, event_line, has_line};

use bm_base::{Mask, Piece};
use tuple_ir::Event;

/// Adds a number behind some words.
fn count(piece: &mut Piece, words: &[u8], value: u64)
    requires { length piece.old + length words.now + 20 ≤ 512 }
    ensures text { piece.new ≡ piece.old ++ then words.now value }
    ensures length { length piece.new ≤ length piece.old + length words.now + 20 }
{
    piece.text(words);
    piece.count(value);
}

/// Adds a tick, what happens then, a processor and a tuple.
fn act(piece: &mut Piece, at: u64, words: &[u8], processor: u8, tuple: u8)
    requires empty { piece.old ≡ [] }
    requires short { length words.now ≤ 100 }
    ensures text { piece.new ≡ then [] at ++ then words.now processor ++ then (codes " ") tuple }
    ensures length { length piece.new ≤ 161 }
{
    piece.count(at);
    count(piece, words, u64::from(processor));
    count(piece, b" ", u64::from(tuple));
}

/// Adds a space and a value.
fn value(piece: &mut Piece, value: i64)
    requires { length piece.old ≤ 300 }
    ensures text { piece.new ≡ piece.old ++ (codes " " ++ signed_decimal value) }
    ensures length { length piece.new ≤ length piece.old + 21 }
{
    piece.text(b" ");
    piece.number(value);
}

/// Adds a space and a mask.
fn mask(piece: &mut Piece, mask: Mask)
    requires { length piece.old ≤ 300 }
    ensures text { piece.new ≡ piece.old ++ (codes " " ++ hexadecimal mask) }
    ensures length { length piece.new ≤ length piece.old + 33 }
{
    piece.text(b" ");
    piece.mask(mask);
}

/// Puts the line of an event by which a run goes on into an empty piece: its tick, what it is, and of
/// what. Numbers are decimal, and masks hexadecimal.
pub fn event_line(event: &Event, piece: &mut Piece)
    requires goes_on { IsTrue (has_line event.now) }
    requires empty { piece.old ≡ [] }
    ensures { piece.new ≡ event_line event.now }
{
    match *event {
        Event::Started {
            at,
            processor,
            tuple,
            time,
        } => {
            act(piece, at, b" start ", processor, tuple);
            count(piece, b" ", u64::from(time));
        }
        Event::Finished {
            at,
            processor,
            tuple,
            value: result,
        } => {
            act(piece, at, b" finish ", processor, tuple);
            value(piece, result);
        }
        Event::Printed {
            at,
            processor,
            tuple,
            value: word,
        } => {
            act(piece, at, b" print ", processor, tuple);
            value(piece, word);
        }
        Event::Fired {
            at,
            index,
            mask: fired,
        } => {
            piece.count(at);
            count(piece, b" fire ", u64::from(index));
            mask(piece, fired);
        }
        Event::Entered { at, block } => {
            piece.count(at);
            count(piece, b" enter ", u64::from(block));
        }
        Event::Ended { .. } | Event::Reached => {}
    }
    piece.text(b"\n");
}
