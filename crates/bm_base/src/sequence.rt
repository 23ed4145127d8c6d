// A list of values in order.
ghost use Rattle.std.specs.Prelude.{◌≡◌, ◌++◌, ◌∷◌, ◌-◌, ◌<◌, [], OnOk, OnErr, length, slice_get, slice_set, take};

use std::alloc::{AllocError, Global};
use std::marker::Model;

/// Values in order. A contract sees the list.
#[derive(Drop)]
pub struct Sequence<T> {
    list: Vec<T>,
}

impl<T> Model for Sequence<T> {
    ghost use Rattle.std.specs.Prelude.{List};

    ghost Value = { List T };

    ghost view = { λ s. s.list.items };
}

impl<T> Sequence<T> {
    /// No values. It takes no memory.
    pub fn new(alloc: Global) -> Sequence<T>
        ensures { result ≡ [] }
    {
        Sequence {
            list: Vec::new(alloc),
        }
    }

    /// The values of the vector. It takes no memory.
    pub fn from_vec(list: Vec<T>) -> Sequence<T>
        ensures { result ≡ list.items }
    {
        Sequence { list }
    }

    /// The values in order, as the vector that holds them. It takes no memory.
    pub fn into_vec(self) -> Vec<T>
        ensures { result.items ≡ self }
    {
        self.list
    }

    /// The values in order.
    pub fn items(&self) -> &[T]
        ensures { result.now ≡ self.now }
    {
        &self.list
    }
}

impl<T: Drop> Sequence<T> {
    /// Puts a value at the end; after want of memory the list is as before, and the value is gone.
    pub fn push(&mut self, value: T) -> Result<(), AllocError>
        ensures ok { OnOk result (self.new ≡ self.old ++ value ∷ []) }
        ensures err { OnErr result (self.new ≡ self.old) }
    {
        self.list.push(value)?;
        Ok(())
    }

    /// Puts a value in the place of the one at `at`, counted from 0.
    pub fn set(&mut self, at: usize, value: T)
        requires { at < length self.old }
        ensures { self.new ≡ slice_set self.old at value }
    {
        self.list[at] = value;
    }

    /// Takes the last value away; None exactly where there is none.
    pub fn pop(&mut self) -> Option<T>
        ensures value { result ≡ slice_get self.old (length self.old - 1) }
        ensures left { self.new ≡ take (length self.old - 1) self.old }
    {
        self.list.pop()
    }
}
