// Tuples: the instructions of a block.
ghost use Rattle.std.specs.Prelude.{◌≡◌};
ghost use Rattle.tuple_ir.specs.Kinds.{class_of, has_value};

use bm_base::{Bin, Class, Un};

/// One instruction of a block. It is numbered by its place in the block, from 0, and has a cell of
/// that number. Operands (`value`, `index`, `a`, `b`) are the cells of earlier tuples of the block;
/// `name` is the number of a declared name.
#[derive(Clone, Copy)]
pub enum Tuple {
    /// Gives the word `value`.
    Const { value: i64 },
    /// Gives the value of a variable.
    Load { name: u16 },
    /// Writes a cell's value to a variable.
    Store { name: u16, value: u8 },
    /// Gives the element of an array at a cell's value.
    LoadEl { name: u16, index: u8 },
    /// Writes a cell's value to the element of an array at another cell's value.
    StoreEl { name: u16, index: u8, value: u8 },
    /// Gives the value of a unary operator.
    One { op: Un, a: u8 },
    /// Gives the value of a binary operator.
    Two { op: Bin, a: u8, b: u8 },
    /// Prints a cell's value.
    Print { value: u8 },
}

/// The class of a tuple, which decides its times: `Mul` for a product, `Div` for a quotient or a
/// remainder, `Alu` for every other operator.
pub fn class(tuple: Tuple) -> Class
    ensures { result ≡ class_of tuple }
{
    match tuple {
        Tuple::Const { .. } => Class::Const,
        Tuple::Load { .. } => Class::Load,
        Tuple::Store { .. } => Class::Store,
        Tuple::LoadEl { .. } => Class::LoadEl,
        Tuple::StoreEl { .. } => Class::StoreEl,
        Tuple::Two { op: Bin::Mul, .. } => Class::Mul,
        Tuple::Two { op: Bin::Div, .. } => Class::Div,
        Tuple::Two { op: Bin::Rem, .. } => Class::Div,
        Tuple::One { .. } | Tuple::Two { .. } => Class::Alu,
        Tuple::Print { .. } => Class::Print,
    }
}

/// Whether a tuple leaves a value in its cell: all do but `Store`, `StoreEl` and `Print`.
pub fn gives_value(tuple: Tuple) -> bool
    ensures { result ≡ has_value tuple }
{
    match tuple {
        Tuple::Store { .. } | Tuple::StoreEl { .. } | Tuple::Print { .. } => false,
        _ => true,
    }
}
