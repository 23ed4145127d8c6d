// What a row of data gives.
ghost use Rattle.std.specs.Prelude.{◌≡◌, ◌≤◌, ◌∷◌, ◌++◌, [], length, IfOk, OnOk, IfErr};
ghost use Rattle.timing_script.specs.declared.fault.RowFault.{RowFault};
ghost use Rattle.timing_script.specs.DataReading.{Finds, gathered, gift_of};
ghost use Rattle.timing_script.specs.Shown.{gift_shown};

use crate::Fields;
use crate::fault::RowFault;
use bm_base::{Sequence, has_name_form, number};
use std::alloc::Global;

/// Values for a name.
#[derive(Drop)]
pub struct Gift<'a> {
    /// The name.
    pub name: &'a [u8],
    /// Its values: at least one.
    pub values: Sequence<i64>,
}

/// Puts a value at the end.
fn add(values: &mut Sequence<i64>, value: i64) -> Result<(), RowFault>
    ensures ok { OnOk result (values.new ≡ values.old ++ value ∷ []) }
    ensures err { IfErr result (λ e. e ≡ RowFault.Memory) }
{
    values.push(value)?;
    Ok(())
}

/// The values that the fields spell.
fn values(alloc: Global, mut fields: Fields<'_>) -> Result<Sequence<i64>, RowFault>
    ensures found { Finds (λ v. v) (gathered [] fields.entry) result }
    ensures few { IfOk result (λ v. length v ≤ length fields.entry) }
{
    let mut values = Sequence::new(alloc);
    while let Some(field) = fields.next() {
        match number(field) {
            Ok(value) => add(&mut values, value)?,
            Err(_) => return Err(RowFault::Refused),
        }
    }
    Ok(values)
}

/// What the fields of a row give.
pub(crate) fn read_gift<'a>(alloc: Global, mut fields: Fields<'a>) -> Result<Gift<'a>, RowFault>
    ensures found { Finds gift_shown (gift_of fields.entry) result }
    ensures some { IfOk result (λ g. 1 ≤ length g.values) }
    ensures few { IfOk result (λ g. length g.values ≤ length fields.entry) }
{
    let Some(name) = fields.next() else {
        return Err(RowFault::Refused);
    };
    if !has_name_form(name) {
        return Err(RowFault::Refused);
    }
    let values = values(alloc, fields)?;
    if values.items().is_empty() {
        return Err(RowFault::Refused);
    }
    Ok(Gift { name, values })
}
