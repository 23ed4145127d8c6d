// The lines of a soak.
ghost use Rattle.std.specs.Prelude.{◌≡◌, ◌+◌, ◌<◌, ◌≤◌, ◌++◌, Some, slice_get, length};
ghost use Rattle.bm_report.specs.Text.{line};
ghost use Rattle.bm_report.specs.Summary.{summary_lines};
ghost use Rattle.soak_text.specs.Lines as spec;

use crate::Pace;
use crate::evaluating::Evaluated;
use crate::running::{BUDGET, Ran};
use bm_base::Piece;
use bm_io::FoldValues;
use bm_report::{Summary, summary_line};
use run_text::UnitKind;
use src_meaning::End;

/// Line `row` of a summary, which is 0 to 4.
pub(crate) fn line_of_summary(summary: &Summary, row: u8) -> Piece
    requires { row < 5 }
    ensures { slice_get (summary_lines summary.now) row ≡ Some result }
{
    let mut piece = Piece::new();
    summary_line(summary, row, &mut piece);
    piece
}

/// Adds how many words were printed and their fold, and ends the line.
fn end_line(piece: &mut Piece, prints: FoldValues)
    requires { length piece.old ≤ 400 }
    ensures { piece.new ≡ line (piece.old ++ spec.prints_text prints) }
{
    piece.text(b" prints ");
    piece.count(prints.count);
    piece.text(b" fold ");
    piece.number(prints.fold);
    piece.text(b"\n");
}

/// The line of the source's outcome.
pub(crate) fn source_line(evaluated: Evaluated) -> Piece
    ensures { result ≡ spec.source_line evaluated.end evaluated.prints }
{
    let mut piece = Piece::new();
    match evaluated.end {
        End::Done => piece.text(b"source done"),
        End::More => piece.text(b"source more"),
    }
    end_line(&mut piece, evaluated.prints);
    piece
}

/// Begins the line of a run with its unit and its pace.
fn name_of_run(kind: UnitKind, pace: Pace) -> Piece
    ensures text { result ≡ spec.unit_name kind ++ spec.pace_name pace }
    ensures length { length result ≤ 20 }
{
    let mut piece = Piece::new();
    match kind {
        UnitKind::Static => piece.text(b"sbm "),
        UnitKind::Dynamic => piece.text(b"dbm "),
    }
    match pace {
        Pace::Least => piece.text(b"least"),
        Pace::Most => piece.text(b"most"),
        Pace::Seeded => piece.text(b"seed"),
    }
    piece
}

/// Adds the clock at which a run has ended, or the budget after which it goes on.
fn end_of_run(piece: &mut Piece, end: Option<u64>)
    requires { length piece.old ≤ 100 }
    ensures text { piece.new ≡ piece.old ++ spec.end_text end }
    ensures length { length piece.new ≤ length piece.old + 40 }
{
    match end {
        Some(clock) => {
            piece.text(b" end ");
            piece.count(clock);
        }
        None => {
            piece.text(b" going ");
            piece.count(BUDGET);
        }
    }
}

/// The line of a run.
pub(crate) fn run_line(kind: UnitKind, pace: Pace, ran: Ran) -> Piece
    ensures { result ≡ spec.run_line kind pace ran.end ran.prints }
{
    let mut piece = name_of_run(kind, pace);
    end_of_run(&mut piece, ran.end);
    end_line(&mut piece, ran.prints);
    piece
}
