// The producers of a tuple, by its operands and the links.
ghost use Rattle.std.specs.Prelude.{◌≡◌, ◌<◌, ◌≤◌, ◌++◌, ◌||◌, ℕ, Bool, nat_eq, OnOk, filter, length, slice_index, if◌then◌else◌};
ghost use Rattle.std.specs.List.{range_with_len};
ghost use Rattle.tuple_ir.specs.Conflict.{uses};
ghost use Rattle.dependence.specs.Producers.{in_conflict};
ghost use Rattle.dependence.specs.Links.{links_of, latest, thing_at, link_to};
ghost use Rattle.dependence.specs.Walk.{IsGreatest};

use crate::conflict::conflict;
use bm_base::MOST_TUPLES;
use smallvec::SmallVec;
use std::alloc::AllocError;
use tuple_ir::Tuple;

/// The number itself where it is below the bound.
fn below(number: u8, bound: u8) -> Option<u8>
    ensures { IsGreatest (nat_eq number) bound result }
{
    if number < bound { Some(number) } else { None }
}

/// The greater of two that are there.
fn greater(a: Option<u8>, b: Option<u8>, bound: u8) -> Option<u8>
    ensures { (p q : ℕ → Bool) → IsGreatest p bound a → IsGreatest q bound b → IsGreatest (λ c. p c || q c) bound result }
{
    match (a, b) {
        (Some(x), Some(y)) => Some(if x < y { y } else { x }),
        (Some(x), None) => Some(x),
        (None, y) => y,
    }
}

/// Of the cells that a tuple takes and its link the greatest below the bound.
fn greatest(tuple: Tuple, link: u8, bound: u8) -> Option<u8>
    ensures { IsGreatest (λ a. uses tuple a || nat_eq link a) bound result }
{
    let linked = below(link, bound);
    match tuple {
        Tuple::Const { .. } | Tuple::Load { .. } => linked,
        Tuple::Store { value, .. } => greater(below(value, bound), linked, bound),
        Tuple::Print { value } => greater(below(value, bound), linked, bound),
        Tuple::LoadEl { index, .. } => greater(below(index, bound), linked, bound),
        Tuple::One { a, .. } => greater(below(a, bound), linked, bound),
        Tuple::StoreEl { index, value, .. } => {
            let cells = greater(below(index, bound), below(value, bound), bound);
            greater(cells, linked, bound)
        }
        Tuple::Two { a, b, .. } => {
            let cells = greater(below(a, bound), below(b, bound), bound);
            greater(cells, linked, bound)
        }
    }
}

/// The link that leads on behind tuple a.
fn next(links: &[u8], link: u8, a: u8) -> u8
    requires { a < length links.now }
    ensures { result ≡ (if nat_eq link a then slice_index links.now a else link) }
{
    if link == a { links[a as usize] } else { link }
}

/// Puts the producers of tuple b below a bound at the end of the row, ascending: `link` is the
/// greatest number below the bound of a tuple that touches what b touches. It calls itself once for
/// each operand and each tuple that is linked.
pub(crate) fn walk(
    tuples: &[Tuple],
    links: &[u8],
    b: u8,
    link: u8,
    bound: u8,
    row: &mut SmallVec<u8, 8>,
) -> Result<(), AllocError>
    requires few { length tuples.now ≤ MOST_TUPLES }
    requires tuple { b < length tuples.now }
    requires bound { bound ≤ b }
    requires links { links.now ≡ links_of tuples.now }
    requires link { link ≡ link_to (latest tuples.now (thing_at tuples.now b) bound) }
    ensures { OnOk result (row.new.items ≡ row.old.items ++ filter (in_conflict tuples.now b) (range_with_len 0 bound)) }
{
    if let Some(a) = greatest(tuples[b as usize], link, bound) {
        walk(tuples, links, b, next(links, link, a), a, row)?;
        if conflict(tuples, a, b) {
            row.push(a)?;
        }
    }
    Ok(())
}
