// Lists of values, one behind another in one vector.
ghost use Rattle.std.specs.Prelude.{◌≡◌, ◌<◌, ◌≤◌, ◌++◌, ◌∷◌, [], length, get_or, take, slice_range, OnOk, OnErr};
ghost use Rattle.stream_image.specs.Flat.{parts, IsCut, start_of};

use std::alloc::{AllocError, Global};
use std::marker::Model;

/// Lists of values. Contracts see the list of lists. All values lie in one vector, and each list is
/// told by where it ends there.
#[derive(Drop)]
pub(crate) struct Lists<T> {
    all: Vec<T>,
    ends: Vec<u32>,
}

impl<T> Model for Lists<T> {
    ghost use Rattle.std.specs.Prelude.{List, length};
    ghost use Rattle.stream_image.specs.Flat.{parts, IsCut};

    ghost Value = { List (List T) };

    ghost view = { λ l. parts l.ends.items 0 l.all.items };

    ghost invariant = { λ l. IsCut l.ends.items 0 (length l.all.items) };
}

/// Where list `i` begins, or where the next one will.
pub(crate) fn start(ends: &[u32], i: usize) -> usize
    requires { i ≤ length ends.now }
    ensures { result ≡ start_of ends.now 0 i }
{
    if i == 0 { 0 } else { ends[i - 1] as usize }
}

/// The values from one place to another.
fn part<T>(all: &[T], from: usize, to: usize) -> &[T]
    requires order { from ≤ to }
    requires within { to ≤ length all.now }
    ensures { result.now ≡ slice_range all.now from to }
{
    &all[from..to]
}

/// List `i`.
fn between<'a, T>(all: &'a [T], ends: &[u32], i: usize) -> &'a [T]
    requires here { i < length ends.now }
    requires cut { IsCut ends.now 0 (length all.now) }
    ensures { result.now ≡ get_or (parts ends.now 0 all.now) i [] }
{
    part(all, start(ends, i), ends[i] as usize)
}

/// Puts a list behind the others, or changes nothing.
fn put<T: Copy + Drop>(all: &mut Vec<T>, ends: &mut Vec<u32>, list: &[T]) -> Result<(), AllocError>
    requires { IsCut ends.old.items 0 (length all.old.items) }
    ensures cut { IsCut ends.new.items 0 (length all.new.items) }
    ensures ok { OnOk result (parts ends.new.items 0 all.new.items ≡ parts ends.old.items 0 all.old.items ++ list.now ∷ []) }
    ensures err { OnErr result (parts ends.new.items 0 all.new.items ≡ parts ends.old.items 0 all.old.items) }
{
    let before = all.as_slice().len();
    all.extend_from_slice(list)?;
    if let Ok(end) = u32::try_from(all.as_slice().len()) {
        if ends.push(end).is_ok() {
            return Ok(());
        }
    }
    all.truncate(before);
    Err(AllocError)
}

impl<T> Lists<T> {
    /// No lists. It takes no memory.
    pub(crate) fn new(alloc: Global) -> Lists<T>
        ensures { result ≡ [] }
    {
        Lists {
            all: Vec::new(alloc),
            ends: Vec::new(alloc),
        }
    }

    /// How many lists.
    pub(crate) fn len(&self) -> usize
        ensures { result ≡ length self.now }
    {
        self.ends.as_slice().len()
    }

    /// The list of a number.
    pub(crate) fn list(&self, i: usize) -> &[T]
        requires { i < length self.now }
        ensures { result.now ≡ get_or self.now i [] }
    {
        between(&self.all, &self.ends, i)
    }
}

impl<T: Copy + Drop> Lists<T> {
    /// Puts a list behind the others; after an error nothing has changed. The error is want of
    /// memory, or of room for more than 2^32 - 1 values.
    pub(crate) fn push(&mut self, list: &[T]) -> Result<(), AllocError>
        ensures ok { OnOk result (self.new ≡ self.old ++ list.now ∷ []) }
        ensures err { OnErr result (self.new ≡ self.old) }
    {
        put(&mut self.all, &mut self.ends, list)
    }

    /// Leaves the first lists, so many.
    pub(crate) fn truncate(&mut self, count: usize)
        ensures { self.new ≡ take count self.old }
    {
        if count < self.ends.as_slice().len() {
            self.all.truncate(start(&self.ends, count));
            self.ends.truncate(count);
        }
    }
}
