// A file of data, read.
ghost use Rattle.std.specs.Prelude.{◌≡◌, ◌<◌, ◌≤◌, ◌-◌, ◌^◌, ◌⊎◌, ℕ, List, length, IfOk, OnOk, IfErr, MatchResult, Some};
ghost use Rattle.bm_base.specs.Memory.{Content};
ghost use Rattle.bm_base.specs.Memories.{IsMemoryOf};
ghost use Rattle.bm_base.specs.Names.{place_of, AreNames};
ghost use Rattle.timing_script.specs.Rows.{text_row};
ghost use Rattle.timing_script.specs.declared.fault.DataFault.{DataFault};
ghost use Rattle.timing_script.specs.Data.{IsDataOf, IsFirstFault};
ghost use Rattle.timing_script.specs.DataReading.{Takes, Reads, named, taken, reading, start};
ghost use Rattle.timing_script.specs.Shown.{gift_shown, state_of};

use crate::fault::{DataFault, RowFault};
use crate::gift::{Gift, read_gift};
use crate::laying::{lay, room};
use crate::{Row, Rows};
use bm_base::{Names, Store};
use std::alloc::{AllocError, Global};

/// The memory so far, and for each name the line that gave it its values.
#[derive(Drop)]
pub struct Draft {
    pub(crate) store: Store,
    pub(crate) firsts: Vec<Option<u32>>,
}

/// The declared memory. The error is want of memory.
fn begin(alloc: Global, names: &Names) -> Result<Draft, AllocError>
    ensures value { IfOk result (λ draft. state_of draft ≡ start names.now) }
    ensures memory { IfOk result (λ draft. IsMemoryOf names.now draft.store) }
    ensures lawful { AreNames names.now }
{
    let firsts = vec![in alloc; None; names.len()]?;
    let store = Store::new(alloc, names)?;
    Ok(Draft { store, firsts })
}

/// Lays values over what a name holds.
fn take_gift(names: &Names, draft: &mut Draft, line: u32, gift: &Gift<'_>) -> Result<(), DataFault>
    requires memory { IsMemoryOf names.now draft.old.store }
    requires firsts { length draft.old.firsts.items ≡ length names.now }
    requires some { 1 ≤ length gift.now.values }
    requires few { length gift.now.values < 2 ^ 32 - 1 }
    ensures taken { Takes (named names.now (state_of draft.old) line (gift_shown gift.now) (place_of gift.now.name.now names.now))
        (state_of draft.new) result }
    ensures memory { OnOk result (IsMemoryOf names.now draft.new.store) }
    ensures firsts { OnOk result (length draft.new.firsts.items ≡ length names.now) }
{
    let Some(id) = names.find(gift.name) else {
        return Err(DataFault::DataName { line });
    };
    if let Some(first) = draft.firsts[id as usize] {
        return Err(DataFault::DataTwice { line, first });
    }
    let kind = names.kind(id);
    let room = room(kind);
    let values = gift.values.items();
    if values.len() > room as usize {
        let given = values.len() as u32;
        return Err(DataFault::DataCount { line, given, room });
    }
    lay(&mut draft.store, id, kind, values);
    draft.firsts[id as usize] = Some(line);
    Ok(())
}

/// Takes a row.
fn take_row(alloc: Global, names: &Names, draft: &mut Draft, row: Row<'_>) -> Result<(), DataFault>
    requires memory { IsMemoryOf names.now draft.old.store }
    requires firsts { length draft.old.firsts.items ≡ length names.now }
    requires few { length row.fields < 2 ^ 32 - 1 }
    ensures taken { Takes (taken names.now (state_of draft.old) (text_row row.entry.line row.entry.fields)) (state_of draft.new) result }
    ensures memory { OnOk result (IsMemoryOf names.now draft.new.store) }
    ensures firsts { OnOk result (length draft.new.firsts.items ≡ length names.now) }
{
    let line = row.line;
    match read_gift(alloc, row.fields) {
        Ok(gift) => take_gift(names, draft, line, &gift),
        Err(RowFault::Refused) => Err(DataFault::DataText { line }),
        Err(RowFault::Memory) => Err(DataFault::Memory),
    }
}

/// The memory of a file.
fn read_rows(alloc: Global, names: &Names, bytes: &[u8]) -> Result<Store, DataFault>
    requires { length bytes.now < 2 ^ 32 - 1 }
    ensures read { Reads (reading names.now bytes.now) result }
    ensures memory { IfOk result (λ store. IsMemoryOf names.now store) }
    ensures lawful { AreNames names.now }
{
    let Ok(mut draft) = begin(alloc, names) else {
        return Err(DataFault::Memory);
    };
    let mut rows = Rows::new(bytes);
    while let Some(row) = rows.next() {
        take_row(alloc, names, &mut draft, row)?;
    }
    Ok(draft.store)
}

/// The memory that a file of data gives: the declared one with the file's values laid over it. On
/// each line a name and one value at least, between spaces and tabs: digits with an optional `-`, from
/// -2^63 to 2^63 - 1. A variable takes one value; an array takes up to its length, from element 0 on,
/// and its other elements stay 0. Lines of white space and lines that begin with `#` are passed over.
/// The work is linear in the text.
///
/// # Errors
///
/// What is wrong with the first line that has a fault; of its faults the first in the order of
/// `DataFault`. Want of memory may come for any bytes.
pub fn read_data(alloc: Global, names: &Names, bytes: &[u8]) -> Result<Store, DataFault>
    requires { length bytes.now < 2 ^ 32 - 1 }
    // What is read is what the file says.
    ensures found { IfOk result (λ store. IsDataOf names.now bytes.now store) }
    ensures memory { IfOk result (λ store. IsMemoryOf names.now store) }
    // What a file says is read, unless memory runs out.
    ensures only { (memory : List Content) → IsDataOf names.now bytes.now memory
        → MatchResult result (λ store. store ≡ memory) (λ e. e ≡ DataFault.Memory) }
    // What is told is the first fault, and where there is one, it is told.
    ensures fault { IfErr result (λ e. IsFirstFault names.now bytes.now e ⊎ (e ≡ DataFault.Memory)) }
    ensures only_fault { (fault : DataFault) → IsFirstFault names.now bytes.now fault
        → MatchResult result (λ _. ⊥) (λ e. (e ≡ fault) ⊎ (e ≡ DataFault.Memory)) }
{
    read_rows(alloc, names, bytes)
}
