// The refusals of a machine file.
ghost use Rattle.std.specs.Prelude.{◌≡◌, ◌≤◌, ◌++◌, length, Some};
ghost use Rattle.std.specs.Option.{option_map};
ghost use Rattle.bm_course.specs.declared.status.TheConstants.{MACHINE};
ghost use Rattle.bm_course.specs.Refusals.{refused_as};
ghost use Rattle.bm_inputs.specs.MachineLines.{machine_refused};

use crate::pieces::{signed, words};
use bm_base::Piece;
use bm_course::{Refusal, status};
use machine_file::{KeyName, MachineFault};

/// A line with the bytes of a key in it.
fn quoting(before: &[u8], name: KeyName, after: Piece) -> Option<Refusal<'static>>
    requires { length before.now ≤ 200 }
    ensures { option_map refused_as result ≡ Some (record { status = MACHINE; line = before.now ++ name ++ after }) }
{
    Some(Refusal::Quoting {
        status: status::MACHINE,
        before: words(before),
        part: name.into_bytes(),
        after,
    })
}

/// What a fault of a machine file is refused with, none where it is want of memory.
pub fn machine_refusal(fault: MachineFault) -> Option<Refusal<'static>>
    ensures { option_map refused_as result ≡ machine_refused fault }
{
    match fault {
        MachineFault::NotToml => Some(Refusal::Plain {
            status: status::MACHINE,
            line: words(b"error 13: not TOML\n"),
        }),
        MachineFault::Key { name } => quoting(b"error 14: key ", name, words(b"\n")),
        MachineFault::Kind { name } => quoting(b"error 15: kind of ", name, words(b"\n")),
        MachineFault::Range { name, value } => {
            quoting(b"error 16: ", name, signed(b" has ", value, b"\n"))
        }
        MachineFault::Memory => None,
    }
}
