// The refusals of a source.
ghost use Rattle.std.specs.Prelude.{◌≡◌, ◌≤◌, ◌++◌, length, codes, decimal};
ghost use Rattle.std.specs.Option.{option_map};
ghost use Rattle.std.specs.Fmt.{signed_decimal};
ghost use Rattle.src_parser.specs.Wanted.{want_text};
ghost use Rattle.bm_course.specs.Refusals.{refused_as};
ghost use Rattle.bm_inputs.specs.SourceLines.{lex_refused, parse_refused, name_refused, source_refused};

use crate::pieces::{numbered, plain, signed, twice_numbered};
use bm_base::Piece;
use bm_course::{Refusal, status};
use src_front::SourceFault;
use src_lexer::LexFault;
use src_names::NameFault;
use src_parser::{ParseFault, Want};

/// The line of a token that was not expected.
fn expected_line(at: u32, what: Want) -> Piece
    ensures { result ≡ codes "error 4: expected " ++ want_text what ++ codes " at " ++ decimal at ++ codes "\n" }
{
    let mut piece = Piece::new();
    piece.text(b"error 4: expected ");
    piece.text(what.text());
    piece.text(b" at ");
    piece.count(u64::from(at));
    piece.text(b"\n");
    piece
}

/// The line of an array's size.
fn size_line(at: u32, n: i64) -> Piece
    ensures { result ≡ codes "error 12: array of " ++ signed_decimal n ++ codes " elements at " ++ decimal at ++ codes "\n" }
{
    let mut piece = signed(b"error 12: array of ", n, b" elements at ");
    piece.count(u64::from(at));
    piece.text(b"\n");
    piece
}

fn lex_refusal(fault: LexFault) -> Option<Refusal<'static>>
    ensures { option_map refused_as result ≡ lex_refused fault }
{
    match fault {
        LexFault::BadByte { at } => plain(
            status::SOURCE,
            numbered(b"error 1: bad byte at ", at, b"\n"),
        ),
        LexFault::LongNumber { at } => plain(
            status::LIMIT,
            numbered(b"error 2: number too large at ", at, b"\n"),
        ),
        LexFault::LongName { at, len } => plain(
            status::LIMIT,
            twice_numbered(b"error 3: name of ", len, b" bytes at ", at),
        ),
        LexFault::Memory => None,
    }
}

fn parse_refusal(fault: ParseFault) -> Option<Refusal<'static>>
    ensures { option_map refused_as result ≡ parse_refused fault }
{
    match fault {
        ParseFault::Expected { at, what } => plain(status::SOURCE, expected_line(at, what)),
        ParseFault::TooDeep { at } => plain(
            status::LIMIT,
            numbered(b"error 5: nested too deep at ", at, b"\n"),
        ),
        ParseFault::TooManyNodes { at, first } => plain(
            status::LIMIT,
            twice_numbered(
                b"error 6: too many nodes at ",
                at,
                b" in the statement at ",
                first,
            ),
        ),
        ParseFault::Memory => None,
    }
}

fn name_refusal(fault: NameFault) -> Option<Refusal<'static>>
    ensures { option_map refused_as result ≡ name_refused fault }
{
    match fault {
        NameFault::Unknown { at } => plain(
            status::SOURCE,
            numbered(b"error 7: unknown name at ", at, b"\n"),
        ),
        NameFault::Twice { at, first } => plain(
            status::SOURCE,
            twice_numbered(
                b"error 8: name declared twice at ",
                at,
                b", first at ",
                first,
            ),
        ),
        NameFault::NotArray { at } => plain(
            status::SOURCE,
            numbered(b"error 9: not an array at ", at, b"\n"),
        ),
        NameFault::NotScalar { at } => plain(
            status::SOURCE,
            numbered(b"error 10: not a variable at ", at, b"\n"),
        ),
        NameFault::TooManyNames { count } => plain(
            status::LIMIT,
            numbered(b"error 11: ", count, b" names\n"),
        ),
        NameFault::ArraySize { at, n } => plain(status::LIMIT, size_line(at, n)),
        NameFault::Memory => None,
    }
}

/// What a fault of a source is refused with, none where it is want of memory.
pub fn source_refusal(fault: SourceFault) -> Option<Refusal<'static>>
    ensures { option_map refused_as result ≡ source_refused fault }
{
    match fault {
        SourceFault::Lex(fault) => lex_refusal(fault),
        SourceFault::Parse(fault) => parse_refusal(fault),
        SourceFault::Names(fault) => name_refusal(fault),
        SourceFault::Memory => None,
    }
}
