// Links from each tuple to the one before it that touches the same.
ghost use Rattle.std.specs.Prelude.{◌≡◌, ◌≤◌, ℕ, Some, None, OnOk, IfOk, if◌then◌else◌, length};
ghost use Rattle.dependence.specs.Links.{Thing, touched, is_one, links_of};
ghost use Rattle.dependence.specs.Walk.{kept_of};

use bm_base::MOST_TUPLES;
use std::alloc::{AllocError, Global};
use std::collections::BTreeMap;
use tuple_ir::Tuple;

/// Stands for no tuple.
pub(crate) const NONE: u8 = 255;

/// The tuples that touched each name and the output last.
#[derive(Drop)]
struct Latest {
    names: BTreeMap<u16, u8>,
    print: Option<u8>,
}

impl Latest {
    /// Tuple b touches what it touches, and the one before it that did so last is told.
    fn touch(&mut self, tuple: Tuple, b: u8) -> Result<Option<u8>, AllocError>
        ensures before { IfOk result (λ before. before ≡ kept_of self.old (touched tuple)) }
        ensures kept { OnOk result ((thing : Thing) → kept_of self.new (Some thing)
            ≡ (if is_one (touched tuple) (Some thing) then Some b else kept_of self.old (Some thing))) }
    {
        match tuple {
            Tuple::Load { name }
            | Tuple::Store { name, .. }
            | Tuple::LoadEl { name, .. }
            | Tuple::StoreEl { name, .. } => {
                let before = self.names.insert(name, b)?;
                Ok(before)
            }
            Tuple::Print { .. } => {
                let before = self.print;
                self.print = Some(b);
                Ok(before)
            }
            Tuple::Const { .. } | Tuple::One { .. } | Tuple::Two { .. } => Ok(None),
        }
    }
}

/// For each tuple the greatest earlier one that touches the same name, for a print the greatest
/// earlier print, and `NONE` without one.
pub(crate) fn links(alloc: Global, tuples: &[Tuple]) -> Result<Vec<u8>, AllocError>
    requires { length tuples.now ≤ MOST_TUPLES }
    ensures { IfOk result (λ links. links.items ≡ links_of tuples.now) }
{
    let mut links = Vec::new(alloc);
    let mut latest = Latest {
        names: BTreeMap::new(alloc),
        print: None,
    };
    for b in 0..tuples.len() as u8 {
        let before = latest.touch(tuples[b as usize], b)?;
        links.push(before.unwrap_or(NONE))?;
    }
    Ok(links)
}
