// Lines and parts of lines.
ghost use Rattle.std.specs.Prelude.{◌≡◌, ◌≤◌, ◌+◌, ◌++◌, length, codes, decimal};
ghost use Rattle.std.specs.Option.{option_map};
ghost use Rattle.std.specs.Fmt.{signed_decimal};
ghost use Rattle.bm_course.specs.Refusals.{refused_as};
ghost use Rattle.bm_inputs.specs.SourceLines.{plain};

use bm_base::Piece;
use bm_course::Refusal;

/// A refusal with this line.
pub(crate) fn plain(code: u8, line: Piece) -> Option<Refusal<'static>>
    ensures { option_map refused_as result ≡ plain code line }
{
    Some(Refusal::Plain { status: code, line })
}

/// Words.
pub(crate) fn words(text: &[u8]) -> Piece
    requires { length text.now ≤ 200 }
    ensures { result ≡ text.now }
{
    let mut piece = Piece::new();
    piece.text(text);
    piece
}

/// A number between words.
pub(crate) fn numbered(before: &[u8], value: u32, after: &[u8]) -> Piece
    requires { length before.now + length after.now ≤ 200 }
    ensures text { result ≡ before.now ++ decimal value ++ after.now }
    ensures room { length result ≤ length before.now + length after.now + 20 }
{
    let mut piece = Piece::new();
    piece.text(before);
    piece.count(u64::from(value));
    piece.text(after);
    piece
}

/// Two numbers, each behind words.
pub(crate) fn twice_numbered(before: &[u8], first: u32, between: &[u8], second: u32) -> Piece
    requires { length before.now + length between.now ≤ 200 }
    ensures { result ≡ before.now ++ decimal first ++ between.now ++ decimal second ++ codes "\n" }
{
    let mut piece = Piece::new();
    piece.text(before);
    piece.count(u64::from(first));
    piece.text(between);
    piece.count(u64::from(second));
    piece.text(b"\n");
    piece
}

/// A number with its sign between words.
pub(crate) fn signed(before: &[u8], value: i64, after: &[u8]) -> Piece
    requires { length before.now + length after.now ≤ 200 }
    ensures text { result ≡ before.now ++ signed_decimal value ++ after.now }
    ensures room { length result ≤ length before.now + length after.now + 20 }
{
    let mut piece = Piece::new();
    piece.text(before);
    piece.number(value);
    piece.text(after);
    piece
}
