// The lines of a text.
ghost use Rattle.std.specs.Prelude.{◌≡◌, ◌≢◌, ◌^◌, ◌+◌, ◌-◌, ◌<◌, ◌≤◌, ◌∷◌, ◌++◌, [], List, ℕ, false, length, MatchOption, IfSome};
ghost use Rattle.std.specs.Prelude.{position, ◌==◌, if◌then◌else◌};
ghost use Rattle.std.specs.List.{AllByRecursion};
ghost use Rattle.bm_base.specs.Lines.{front_of, behind_of, has_byte, line_front, behind_line, has_end, unlines, whole_lines, cut_line};

use std::marker::Model;

/// One line of a text.
#[derive(Clone, Copy, Debug, PartialEq, Eq)]
pub struct LineOf<'a> {
    /// Its number, from 1.
    pub number: u32,
    /// Its bytes, without the LF.
    pub bytes: &'a [u8],
    /// Whether an LF stands behind them.
    pub ended: bool,
}

/// The lines of a text, one after another. A contract sees how many there were, and the bytes behind
/// them.
#[derive(Drop)]
pub struct Lines<'a> {
    count: u32,
    rest: &'a [u8],
}

impl<'a> Model for Lines<'a> {
    ghost use Rattle.std.specs.Prelude.{◌+◌, ◌-◌, ◌<◌, ◌^◌, length};
    ghost use Rattle.bm_base.specs.Lines.{LinesLeft};

    ghost Value = { LinesLeft };

    ghost view = { λ l. record { count = l.count; rest = l.rest.now } };

    ghost invariant = { λ l. l.count + length l.rest.now < 2 ^ 32 - 1 };
}

/// Where the first such byte stands.
fn place_of(bytes: &[u8], byte: u8) -> Option<usize>
    ensures place { result ≡ position (λ b. b == byte) bytes.now }
    ensures within { IfSome result (λ place. place < length bytes.now) }
{
    bytes.iter().position(|other| *other == byte)
}

/// The bytes before the first such byte, whether there is one, and those behind it. Where there is
/// none, all bytes stand before it.
pub fn split_at_byte(bytes: &[u8], byte: u8) -> (&[u8], bool, &[u8])
    ensures front { result.0.now ≡ front_of byte bytes.now }
    ensures found { result.1 ≡ has_byte byte bytes.now }
    ensures behind { result.2.now ≡ behind_of byte bytes.now }
    ensures shorter { length bytes.now ≢ 0 → length result.2.now + 1 ≤ length bytes.now }
{
    match place_of(bytes, byte) {
        Some(end) => (&bytes[..end], true, &bytes[end + 1..]),
        None => (bytes, false, &[]),
    }
}

/// The lines of a text that end by an LF, and what stands behind the last of them: one behind the
/// other, each with its LF, they are the text; none has an LF inside; and they are what `next` gives,
/// line by line.
pub fn laws_of_lines()
    ensures text { (bytes : List ℕ) → unlines (whole_lines bytes) ++ cut_line bytes ≡ bytes }
    ensures plain { (bytes : List ℕ) → AllByRecursion (λ line. has_end line ≡ false) (whole_lines bytes)
        × (has_end (cut_line bytes) ≡ false) }
    ensures first { (bytes : List ℕ) → whole_lines bytes
        ≡ (if has_end bytes then line_front bytes ∷ whole_lines (behind_line bytes) else []) }
    ensures last { (bytes : List ℕ) → cut_line bytes ≡ (if has_end bytes then cut_line (behind_line bytes) else line_front bytes) }
{}

impl<'a> Lines<'a> {
    /// The lines of these bytes.
    pub fn new(bytes: &'a [u8]) -> Lines<'a>
        requires { length bytes.now < 2 ^ 32 - 1 }
        ensures { result ≡ record { count = 0; rest = bytes.now } }
    {
        Lines {
            count: 0,
            rest: bytes,
        }
    }

    /// The next line; None exactly at the end of the bytes.
    pub fn next(&mut self) -> Option<LineOf<'a>>
        ensures line { MatchOption result (self.old.rest ≡ []) (λ l. (self.old.rest ≢ []) × (l.bytes.now ≡ line_front self.old.rest)
            × (l.ended ≡ has_end self.old.rest) × (l.number ≡ self.old.count + 1)) }
        ensures rest { MatchOption result (self.new ≡ self.old) (λ _. self.new
            ≡ record { count = self.old.count + 1; rest = behind_line self.old.rest }) }
        ensures few { self.new.count + length self.new.rest < 2 ^ 32 - 1 }
    {
        if self.rest.is_empty() {
            return None;
        }
        let (bytes, ended, rest) = split_at_byte(self.rest, b'\n');
        self.count += 1;
        self.rest = rest;
        Some(LineOf {
            number: self.count,
            bytes,
            ended,
        })
    }
}
