// The lines of the refusals of images.
ghost use Rattle.std.specs.Prelude.{◌≡◌, ◌≤◌, ◌+◌, ◌++◌, length, codes, decimal};
ghost use Rattle.std.specs.Option.{option_map};
ghost use Rattle.bm_course.specs.Refusals.{refused_as};
ghost use Rattle.bm_inputs.specs.ImageLines.{image_refused, load_refused};

use crate::pieces::plain;
use bm_base::Piece;
use bm_course::{Refusal, status};
use stream_file::LoadFault;
use stream_image::ImageFault;

/// The number of a block, and a number in it, each behind words.
fn in_block(number: &[u8], block: u32, what: &[u8], value: u32, after: &[u8]) -> Piece
    requires { length number.now + length what.now + length after.now ≤ 200 }
    ensures text { result ≡ number.now ++ decimal block ++ what.now ++ decimal value ++ after.now }
    ensures room { length result ≤ length number.now + length what.now + length after.now + 40 }
{
    let mut piece = Piece::new();
    piece.text(number);
    piece.count(u64::from(block));
    piece.text(what);
    piece.count(u64::from(value));
    piece.text(after);
    piece
}

/// A line that goes on with a number and words.
fn with_number(piece: Piece, value: u64, after: &[u8]) -> Piece
    requires { length piece + length after.now ≤ 400 }
    ensures text { result ≡ piece ++ decimal value ++ after.now }
    ensures room { length result ≤ length piece + length after.now + 20 }
{
    let mut piece = piece;
    piece.count(value);
    piece.text(after);
    piece
}

/// The line of an operand.
fn operand_line(block: u32, tuple: u8, place: u8) -> Piece
    ensures { result ≡ codes "error 20: block " ++ decimal block ++ codes " tuple " ++ decimal tuple ++ codes " operand " ++ decimal place
        ++ codes "\n" }
{
    with_number(
        in_block(
            b"error 20: block ",
            block,
            b" tuple ",
            u32::from(tuple),
            b" operand ",
        ),
        u64::from(place),
        b"\n",
    )
}

/// The line of waits that are not as many as masks.
fn waits_line(block: u32, processor: u8, waits: u64, masks: u8) -> Piece
    ensures { result ≡ codes "error 22: block " ++ decimal block ++ codes " processor " ++ decimal processor ++ codes " has "
        ++ decimal waits ++ codes " waits and " ++ decimal masks ++ codes " masks\n" }
{
    let piece = in_block(
        b"error 22: block ",
        block,
        b" processor ",
        u32::from(processor),
        b" has ",
    );
    with_number(
        with_number(piece, waits, b" waits and "),
        u64::from(masks),
        b" masks\n",
    )
}

/// The line of tuples that stand in the wrong order.
fn order_line(block: u32, first: u8, second: u8) -> Piece
    ensures { result ≡ codes "error 25: block " ++ decimal block ++ codes " tuple " ++ decimal second ++ codes " stands before "
        ++ decimal first ++ codes "\n" }
{
    with_number(
        in_block(
            b"error 25: block ",
            block,
            b" tuple ",
            u32::from(second),
            b" stands before ",
        ),
        u64::from(first),
        b"\n",
    )
}

/// The line of tuples that are not ordered.
fn pair_line(block: u32, first: u8, second: u8) -> Piece
    ensures { result ≡ codes "error 26: block " ++ decimal block ++ codes " pair " ++ decimal first ++ codes " " ++ decimal second
        ++ codes " is not ordered\n" }
{
    with_number(
        in_block(
            b"error 26: block ",
            block,
            b" pair ",
            u32::from(first),
            b" ",
        ),
        u64::from(second),
        b" is not ordered\n",
    )
}

/// What a cause is refused with, none where it is want of memory.
fn image_refusal(fault: ImageFault) -> Option<Refusal<'static>>
    ensures { option_map refused_as result ≡ image_refused fault }
{
    match fault {
        ImageFault::Processor { block, processor } => plain(
            status::IMAGE,
            in_block(
                b"error 17: block ",
                block,
                b" processor ",
                u32::from(processor),
                b"\n",
            ),
        ),
        ImageFault::TupleTwice { block, tuple } => plain(
            status::IMAGE,
            in_block(
                b"error 18: block ",
                block,
                b" tuple ",
                u32::from(tuple),
                b" twice\n",
            ),
        ),
        ImageFault::TupleMissing { block, tuple } => plain(
            status::IMAGE,
            in_block(
                b"error 19: block ",
                block,
                b" tuple ",
                u32::from(tuple),
                b" missing\n",
            ),
        ),
        ImageFault::Operand {
            block,
            tuple,
            place,
        } => plain(status::IMAGE, operand_line(block, tuple, place)),
        ImageFault::Cell { block, cell } => plain(
            status::IMAGE,
            in_block(
                b"error 21: block ",
                block,
                b" cell ",
                u32::from(cell),
                b"\n",
            ),
        ),
        ImageFault::Waits {
            block,
            processor,
            waits,
            masks,
        } => plain(status::IMAGE, waits_line(block, processor, waits, masks)),
        ImageFault::MaskEmpty { block, mask } => plain(
            status::IMAGE,
            in_block(
                b"error 23: block ",
                block,
                b" mask ",
                u32::from(mask),
                b" is empty\n",
            ),
        ),
        ImageFault::MaskBit { block, mask } => plain(
            status::IMAGE,
            in_block(
                b"error 24: block ",
                block,
                b" mask ",
                u32::from(mask),
                b" has a foreign bit\n",
            ),
        ),
        ImageFault::Order { block, a, b } => plain(status::IMAGE, order_line(block, a, b)),
        ImageFault::Unordered { block, a, b } => plain(status::IMAGE, pair_line(block, a, b)),
        ImageFault::Target { block, target } => plain(
            status::IMAGE,
            in_block(b"error 27: block ", block, b" target ", target, b"\n"),
        ),
        ImageFault::Memory => None,
    }
}

/// The line of a text that is no image's.
fn text_line(line: u32) -> Piece
    ensures { result ≡ codes "error 28: image line " ++ decimal line ++ codes "\n" }
{
    let mut piece = Piece::new();
    piece.text(b"error 28: image line ");
    piece.count(u64::from(line));
    piece.text(b"\n");
    piece
}

/// What a fault of an image's text is refused with, none where it is want of memory.
pub(crate) fn load_refusal(fault: LoadFault) -> Option<Refusal<'static>>
    ensures { option_map refused_as result ≡ load_refused fault }
{
    match fault {
        LoadFault::Text { line } => plain(status::IMAGE, text_line(line)),
        LoadFault::Image { fault } => image_refusal(fault),
        LoadFault::Memory => None,
    }
}
