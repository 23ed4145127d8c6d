// The fields of a line.
ghost use Rattle.std.specs.Prelude.{◌≡◌, ◌∷◌, [], MatchOption, not, position, take, drop};
ghost use Rattle.std.specs.List.{position_or_len};
ghost use Rattle.timing_script.specs.Rows.{is_blank, fields_of};

use std::marker::Model;

/// The fields of a line, one after another: its longest runs of bytes that are neither space nor tab.
/// A contract sees those that are left.
#[derive(Drop)]
pub struct Fields<'a> {
    rest: &'a [u8],
}

impl<'a> Model for Fields<'a> {
    ghost use Rattle.std.specs.Prelude.{List, ℕ};
    ghost use Rattle.timing_script.specs.Rows.{fields_of};

    ghost Value = { List (List ℕ) };

    ghost view = { λ f. fields_of f.rest.now };
}

fn is_blank(byte: u8) -> bool
    ensures { result ≡ is_blank byte }
{
    byte == b' ' || byte == b'\t'
}

/// Where the first byte stands that is no blank.
fn first_other(bytes: &[u8]) -> Option<usize>
    ensures { result ≡ position (λ b. not (is_blank b)) bytes.now }
{
    bytes.iter().position(|byte| !is_blank(*byte))
}

/// Where the first blank stands.
fn first_blank(bytes: &[u8]) -> Option<usize>
    ensures { result ≡ position is_blank bytes.now }
{
    bytes.iter().position(|byte| is_blank(*byte))
}

/// The bytes behind the blanks at the front.
fn behind_blanks(bytes: &[u8]) -> &[u8]
    ensures { result.now ≡ drop (position_or_len (λ b. not (is_blank b)) bytes.now) bytes.now }
{
    match first_other(bytes) {
        Some(start) => &bytes[start..],
        None => &[],
    }
}

/// The bytes before the first blank, and the others.
fn split(bytes: &[u8]) -> (&[u8], &[u8])
    ensures field { result.0.now ≡ take (position_or_len is_blank bytes.now) bytes.now }
    ensures rest { result.1.now ≡ drop (position_or_len is_blank bytes.now) bytes.now }
{
    match first_blank(bytes) {
        Some(end) => (&bytes[..end], &bytes[end..]),
        None => (bytes, &[]),
    }
}

impl<'a> Fields<'a> {
    /// The fields of this line.
    pub fn new(line: &'a [u8]) -> Fields<'a>
        ensures { result ≡ fields_of line.now }
    {
        Fields { rest: line }
    }

    /// The next field; None exactly where none is left.
    pub fn next(&mut self) -> Option<&'a [u8]>
        ensures { MatchOption result (self.old ≡ []) (λ field. self.old ≡ field.now ∷ self.new) }
    {
        let from = behind_blanks(self.rest);
        if from.is_empty() {
            return None;
        }
        let (field, rest) = split(from);
        self.rest = rest;
        Some(field)
    }
}
