// The producers of each tuple of a block.
ghost use Rattle.std.specs.Prelude.{◌≡◌, ◌<◌, ◌≤◌, [], All, IfOk, length, slice_index_or, sum_by};
ghost use Rattle.std.specs.List.Sorted.{IsStrictlyIncreasing};
ghost use Rattle.dependence.specs.Producers.{producers_at};
ghost use Rattle.dependence.specs.Links.{links_of};
ghost use Rattle.dependence.specs.Found.{AreDepsOf};

use crate::links::links;
use crate::walk::walk;
use bm_base::MOST_TUPLES;
use smallvec::SmallVec;
use std::alloc::{AllocError, Global};
use std::marker::Model;
use tuple_ir::{Block, Tuple};

/// For each tuple of a block its producers, which are the earlier tuples that it conflicts with, and
/// its link. Contracts see the lists of producers and the links, by the tuples' numbers.
#[derive(Drop)]
pub struct Deps {
    rows: Vec<SmallVec<u8, 8>>,
    links: Vec<u8>,
}

impl Model for Deps {
    ghost use Rattle.dependence.specs.Producers.{AreRows, rows_of};
    ghost use Rattle.dependence.specs.Found.{Found};

    ghost Value = { Found };

    ghost view = { λ d. record { producers = rows_of d.rows.items; links = d.links.items } };

    ghost invariant = { λ d. AreRows (rows_of d.rows.items) };
}

/// The producers of tuple `b`.
fn producers(
    alloc: Global,
    tuples: &[Tuple],
    links: &[u8],
    b: u8,
) -> Result<SmallVec<u8, 8>, AllocError>
    requires few { length tuples.now ≤ MOST_TUPLES }
    requires tuple { b < length tuples.now }
    requires links { links.now ≡ links_of tuples.now }
    ensures { IfOk result (λ row. row.items ≡ producers_at tuples.now b) }
{
    let mut row = SmallVec::new(alloc);
    walk(tuples, links, b, links[b as usize], b, &mut row)?;
    Ok(row)
}

/// The conflicts of a block of at most 128 tuples. The producers of a tuple are found by walking its
/// operands and the links, so the cost is that of the tuples and of the pairs that touch one name or
/// print. It fails only where memory runs out.
pub fn conflicts(alloc: Global, block: &Block) -> Result<Deps, AllocError>
    requires { length block.now.tuples ≤ MOST_TUPLES }
    ensures { IfOk result (λ deps. AreDepsOf deps block.now.tuples) }
{
    let tuples = block.tuples.items();
    let links = links(alloc, tuples)?;
    let mut rows = Vec::new(alloc);
    for b in 0..tuples.len() as u8 {
        let row = producers(alloc, tuples, &links, b)?;
        rows.push(row)?;
    }
    Ok(Deps { rows, links })
}

impl Deps {
    /// The number of tuples of the block, at most 128.
    pub fn len(&self) -> usize
        ensures value { result ≡ length self.now.producers }
        ensures few { result ≤ MOST_TUPLES }
    {
        self.rows.len()
    }

    /// The producers of tuple `i` of the block, ascending.
    pub fn producers(&self, i: u8) -> &[u8]
        requires { i < length self.now.producers }
        ensures value { result.now ≡ slice_index_or self.now.producers i [] }
        ensures ascending { IsStrictlyIncreasing result.now }
        ensures below { All (λ a. a < i) result.now }
    {
        self.rows[i as usize].as_slice()
    }

    /// The number of pairs of tuples that conflict.
    pub fn pairs(&self) -> u32
        ensures { result ≡ sum_by length self.now.producers }
    {
        let mut pairs: u32 = 0;
        for row in &self.rows {
            pairs += row.len() as u32;
        }
        pairs
    }

    /// For each tuple the greatest earlier one that touches the same variable or array, for a print
    /// the greatest earlier print, and 255 where there is none or the tuple touches no name and does
    /// not print.
    pub fn links(&self) -> &[u8]
        ensures { result.now ≡ self.now.links }
    {
        self.links.as_slice()
    }
}
