// Values laid over what a name holds.
ghost use Rattle.std.specs.Prelude.{◌≡◌, ◌≤◌, List, length};
ghost use Rattle.bm_base.specs.Entry.{Entry};
ghost use Rattle.bm_base.specs.Memory.{IsVariable, IsArray};
ghost use Rattle.bm_base.specs.Memories.{IsMemoryOf};
ghost use Rattle.timing_script.specs.Data.{room_of};
ghost use Rattle.timing_script.specs.DataReading.{laid_at, HasRoom, HasKind};

use bm_base::{Kind, Store};

/// How many values a name of this kind holds.
pub(crate) fn room(kind: Kind) -> u32
    ensures { result ≡ room_of kind }
{
    match kind {
        Kind::Var { .. } => 1,
        Kind::Array { len } => len,
    }
}

/// Gives the first elements of an array these values.
fn lay_elements(store: &mut Store, id: u16, values: &[i64])
    requires array { IsArray store.old id }
    requires room { HasRoom store.old id values.now }
    ensures value { store.new ≡ laid_at store.old id values.now }
    ensures kept { (names : List Entry) → IsMemoryOf names store.old → IsMemoryOf names store.new }
{
    for (index, value) in values.iter().enumerate() {
        store.set_element(id, index as i64, *value);
    }
}

/// Gives a variable the first of these values, or an array's first elements all of them.
pub(crate) fn lay(store: &mut Store, id: u16, kind: Kind, values: &[i64])
    requires kind { HasKind store.old id kind }
    requires some { 1 ≤ length values.now }
    requires room { length values.now ≤ room_of kind }
    ensures value { store.new ≡ laid_at store.old id values.now }
    ensures kept { (names : List Entry) → IsMemoryOf names store.old → IsMemoryOf names store.new }
{
    match kind {
        Kind::Var { .. } => store.set(id, values[0]),
        Kind::Array { .. } => lay_elements(store, id, values),
    }
}
