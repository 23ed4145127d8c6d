// The rows of a text.
ghost use Rattle.std.specs.Prelude.{◌≡◌, ◌∷◌, ◌-◌, ◌<◌, ◌≤◌, ◌^◌, [], ℕ, List, length, map, MatchOption, IfSome};
ghost use Rattle.std.specs.List.{AllByRecursion};
ghost use Rattle.bm_base.specs.Lines.{unlines};
ghost use Rattle.timing_script.specs.Spelling.{IsPlainRow, spaced, numbered};
ghost use Rattle.timing_script.specs.Rows.{is_passed_over, trimmed, fields_of, rows_of, text_row};

use crate::Fields;
use bm_base::Lines;
use std::marker::Model;

/// A line that is not passed over.
#[derive(Drop)]
pub struct Row<'a> {
    /// The line's number, from 1.
    pub line: u32,
    /// Its fields: at least one.
    pub fields: Fields<'a>,
}

/// The rows of a text, one after another. A contract sees those that are left.
#[derive(Drop)]
pub struct Rows<'a> {
    lines: Lines<'a>,
}

impl<'a> Model for Rows<'a> {
    ghost use Rattle.std.specs.Prelude.{List, ◌+◌, ◌-◌, ◌<◌, ◌^◌, length};
    ghost use Rattle.bm_base.specs.Lines.{whole_lines, cut_line};
    ghost use Rattle.timing_script.specs.Rows.{TextRow, rows_from};

    ghost Value = { List TextRow };

    ghost view = { λ r. rows_from r.lines.count (whole_lines r.lines.rest) (cut_line r.lines.rest) };

    ghost invariant = { λ r. r.lines.count + length r.lines.rest < 2 ^ 32 - 1 };
}

/// The bytes of a line, without the CR at their end where an LF stands behind them.
fn trim(bytes: &[u8], ended: bool) -> &[u8]
    ensures value { result.now ≡ trimmed ended bytes.now }
    ensures shorter { length result.now ≤ length bytes.now }
{
    match bytes {
        [front @ .., b'\r'] if ended => front,
        _ => bytes,
    }
}

/// Whether a line has no field, or begins with `#`.
fn passes_over(line: &[u8]) -> bool
    ensures { result ≡ is_passed_over (fields_of line.now) }
{
    match Fields::new(line).next() {
        None => true,
        Some(first) => matches!(first, [b'#', ..]),
    }
}

/// Rows of plain fields have a text: in it each field has a space behind it, and each row a line.
pub fn laws_of_rows()
    ensures { (rows : List (List (List ℕ))) → AllByRecursion IsPlainRow rows → rows_of (unlines (map spaced rows)) ≡ numbered 0 rows }
{}

impl<'a> Rows<'a> {
    /// The rows of this text.
    pub fn new(bytes: &'a [u8]) -> Rows<'a>
        requires { length bytes.now < 2 ^ 32 - 1 }
        ensures { result ≡ rows_of bytes.now }
    {
        Rows {
            lines: Lines::new(bytes),
        }
    }

    /// The next row; None exactly where none is left.
    pub fn next(&mut self) -> Option<Row<'a>>
        ensures row { MatchOption result (self.old ≡ []) (λ row. self.old ≡ text_row row.line row.fields ∷ self.new) }
        ensures few { IfSome result (λ row. length row.fields < 2 ^ 32 - 1) }
    {
        while let Some(line) = self.lines.next() {
            let bytes = trim(line.bytes, line.ended);
            if !passes_over(bytes) {
                return Some(Row {
                    line: line.number,
                    fields: Fields::new(bytes),
                });
            }
        }
        None
    }
}
