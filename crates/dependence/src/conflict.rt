// Whether two tuples conflict, by what both touch.
ghost use Rattle.std.specs.Prelude.{◌≡◌, ◌<◌, length, slice_get};
ghost use Rattle.tuple_ir.specs.Conflict.{uses, share_variable, share_array, both_print, are_apart};
ghost use Rattle.dependence.specs.Producers.{in_conflict};

use tuple_ir::Tuple;

/// Whether the tuple has this cell among its operands.
fn takes(tuple: Tuple, cell: u8) -> bool
    ensures { result ≡ uses tuple cell }
{
    match tuple {
        Tuple::Const { .. } | Tuple::Load { .. } => false,
        Tuple::Store { value, .. } | Tuple::Print { value } => value == cell,
        Tuple::LoadEl { index, .. } => index == cell,
        Tuple::StoreEl { index, value, .. } => index == cell || value == cell,
        Tuple::One { a, .. } => a == cell,
        Tuple::Two { a, b, .. } => a == cell || b == cell,
    }
}

/// Whether both touch one variable and one of them writes it.
fn touch_one_variable(first: Tuple, second: Tuple) -> bool
    ensures { result ≡ share_variable first second }
{
    match (first, second) {
        (Tuple::Store { name: x, .. }, Tuple::Store { name: y, .. }) => x == y,
        (Tuple::Store { name: x, .. }, Tuple::Load { name: y }) => x == y,
        (Tuple::Load { name: x }, Tuple::Store { name: y, .. }) => x == y,
        _ => false,
    }
}

/// Whether the cells are two constants of different values.
fn differ(tuples: &[Tuple], i: u8, j: u8) -> bool
    ensures { result ≡ are_apart (slice_get tuples.now i) (slice_get tuples.now j) }
{
    match (tuples.get(i as usize), tuples.get(j as usize)) {
        (Some(Tuple::Const { value: v }), Some(Tuple::Const { value: w })) => *v != *w,
        _ => false,
    }
}

/// Whether both touch one array, one of them writes it, and their indices may be equal.
fn touch_one_element(tuples: &[Tuple], first: Tuple, second: Tuple) -> bool
    ensures { result ≡ share_array tuples.now first second }
{
    match (first, second) {
        (
            Tuple::StoreEl {
                name: x,
                index: i,
                ..
            },
            Tuple::StoreEl {
                name: y,
                index: j,
                ..
            },
        ) => x == y && !differ(tuples, i, j),
        (
            Tuple::StoreEl {
                name: x,
                index: i,
                ..
            },
            Tuple::LoadEl { name: y, index: j },
        ) => { x == y && !differ(tuples, i, j) }
        (
            Tuple::LoadEl { name: x, index: i },
            Tuple::StoreEl {
                name: y,
                index: j,
                ..
            },
        ) => { x == y && !differ(tuples, i, j) }
        _ => false,
    }
}

/// Whether both print.
fn print_both(first: Tuple, second: Tuple) -> bool
    ensures { result ≡ both_print first second }
{
    matches!((first, second), (Tuple::Print { .. }, Tuple::Print { .. }))
}

/// Whether tuple `a` and the later tuple `b` conflict.
pub(crate) fn conflict(tuples: &[Tuple], a: u8, b: u8) -> bool
    requires first { a < length tuples.now }
    requires second { b < length tuples.now }
    ensures { result ≡ in_conflict tuples.now b a }
{
    let first = tuples[a as usize];
    let second = tuples[b as usize];
    takes(second, a)
        || touch_one_variable(first, second)
        || touch_one_element(tuples, first, second)
        || print_both(first, second)
}
