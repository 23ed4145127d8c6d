//! The operators of expressions: their symbols, and how tightly they bind.

ghost use Rattle.std.specs.Prelude.{◌≡◌, ◌≤◌};
ghost use Rattle.src_tree.specs.Operators as ops;

use bm_base::{Bin, Un};
use src_lexer::Symbol;

/// How tightly a binary operator binds, from 0 (the loosest) to 6.
pub fn level(op: Bin) -> u8
    ensures value { result ≡ ops.level op }
    ensures small { result ≤ 6 }
{
    match op {
        Bin::Or => 0,
        Bin::Xor => 1,
        Bin::And => 2,
        Bin::Eq | Bin::Ne | Bin::Lt | Bin::Le | Bin::Gt | Bin::Ge => 3,
        Bin::Shl | Bin::Shr => 4,
        Bin::Add | Bin::Sub => 5,
        Bin::Mul | Bin::Div | Bin::Rem => 6,
    }
}

pub(crate) fn bin_symbol(op: Bin) -> Symbol
    ensures { result ≡ ops.bin_symbol op }
{
    match op {
        Bin::Or => Symbol::Or,
        Bin::Xor => Symbol::Xor,
        Bin::And => Symbol::And,
        Bin::Eq => Symbol::Eq,
        Bin::Ne => Symbol::Ne,
        Bin::Lt => Symbol::Lt,
        Bin::Le => Symbol::Le,
        Bin::Gt => Symbol::Gt,
        Bin::Ge => Symbol::Ge,
        Bin::Shl => Symbol::Shl,
        Bin::Shr => Symbol::Shr,
        Bin::Add => Symbol::Add,
        Bin::Sub => Symbol::Sub,
        Bin::Mul => Symbol::Mul,
        Bin::Div => Symbol::Div,
        Bin::Rem => Symbol::Rem,
    }
}

pub(crate) fn un_symbol(op: Un) -> Symbol
    ensures { result ≡ ops.un_symbol op }
{
    match op {
        Un::Neg => Symbol::Sub,
        Un::Not => Symbol::Not,
    }
}
