// The text of a script, read.
ghost use Rattle.std.specs.Prelude.{◌≡◌, ◌<◌, ◌-◌, ◌^◌, ◌⊎◌, ℕ, List, length, IfOk, IfErr, MatchResult};
ghost use Rattle.bm_base.specs.Numeral.{count_of};
ghost use Rattle.timing_script.specs.Reading as spec;
ghost use Rattle.timing_script.specs.Reading.{Takes, Reads, filled, taken, reading};
ghost use Rattle.timing_script.specs.Text.{IsTextOf, IsScriptOf, IsFirstWrong, IsFault};

use crate::{Fields, Offsets, Rows, Script};
use bm_base::count;
use std::alloc::Global;

/// Why a script is not read.
#[derive(Clone, Copy, Debug, PartialEq, Eq)]
pub enum ScriptFault {
    /// The first line that is neither white space, nor a comment, nor a processor's number and
    /// offsets.
    ScriptText {
        /// Its number, from 1.
        line: u32,
    },
    /// There is no memory.
    Memory,
}

/// Why a row is not taken.
#[derive(Clone, Copy, Debug, PartialEq, Eq)]
pub enum RowFault {
    /// It is no row of a script.
    Refused,
    /// There is no memory for it.
    Memory,
}

/// The number of a processor, from 0 to 255.
fn processor(field: &[u8]) -> Option<u8>
    ensures { result ≡ spec.processor_of field.now }
{
    match count(field) {
        Ok(number) => if number <= 255 {
            Some(number as u8)
        } else {
            None
        },
        Err(_) => None,
    }
}

/// Puts the offsets of these fields behind those of a processor.
fn take_offsets(
    offsets: &mut Offsets,
    processor: u8,
    mut fields: Fields<'_>,
) -> Result<(), RowFault>
    ensures { Takes (filled offsets.old processor fields.entry) offsets.new result }
{
    while let Some(field) = fields.next() {
        let Ok(offset) = count(field) else {
            return Err(RowFault::Refused);
        };
        if offsets.push(processor, offset).is_err() {
            return Err(RowFault::Memory);
        }
    }
    Ok(())
}

/// Puts the offsets of a row behind those of its processor.
fn take_row(offsets: &mut Offsets, mut fields: Fields<'_>) -> Result<(), RowFault>
    ensures { Takes (taken offsets.old fields.entry) offsets.new result }
{
    let Some(first) = fields.next() else {
        return Err(RowFault::Refused);
    };
    let Some(processor) = processor(first) else {
        return Err(RowFault::Refused);
    };
    take_offsets(offsets, processor, fields)
}

/// The offsets of a text.
fn read_rows(alloc: Global, bytes: &[u8]) -> Result<Offsets, ScriptFault>
    requires { length bytes.now < 2 ^ 32 - 1 }
    ensures { Reads (reading bytes.now) result }
{
    let Ok(mut offsets) = Offsets::new(alloc) else {
        return Err(ScriptFault::Memory);
    };
    let mut rows = Rows::new(bytes);
    while let Some(row) = rows.next() {
        match take_row(&mut offsets, row.fields) {
            Ok(()) => {}
            Err(RowFault::Refused) => return Err(ScriptFault::ScriptText { line: row.line }),
            Err(RowFault::Memory) => return Err(ScriptFault::Memory),
        }
    }
    Ok(offsets)
}

impl Script {
    /// The script of a text: on each line a processor's number from 0 to 255 and offsets from 0 to
    /// 2^64 - 1, all as digits, between spaces and tabs. A further line for a processor goes on where
    /// the one before it ended. Lines of white space and lines that begin with `#` are passed over.
    /// The work is linear in the text.
    ///
    /// # Errors
    ///
    /// `ScriptText` exactly where a line is none of these, with the first such line. Want of memory
    /// may come for any bytes.
    pub fn read(alloc: Global, bytes: &[u8]) -> Result<Script, ScriptFault>
        requires { length bytes.now < 2 ^ 32 - 1 }
        // What is read is spelled so.
        ensures found { IfOk result (λ script. IsScriptOf bytes.now script) }
        // What is spelled so is read, unless memory runs out.
        ensures only { (lists : List (List ℕ)) → IsTextOf bytes.now lists
            → MatchResult result (λ script. script ≡ Script.File lists) (λ e. e ≡ ScriptFault.Memory) }
        // What is told is the first line that is no row, and where there is one, it is told.
        ensures fault { IfErr result (λ e. IsFault bytes.now e) }
        ensures only_fault { (line : ℕ) → IsFirstWrong bytes.now line
            → MatchResult result (λ _. ⊥) (λ e. (e ≡ ScriptFault.ScriptText line) ⊎ (e ≡ ScriptFault.Memory)) }
    {
        let offsets = read_rows(alloc, bytes)?;
        Ok(Script::File(offsets))
    }
}
