//! What was expected, by what stands before.

ghost use Rattle.std.specs.Prelude.{◌≡◌, reverse};
ghost use Rattle.src_parser.specs.Wanted.{want_text};
ghost use Rattle.src_parser.specs.Machine as spec;

use crate::machine::{Goal, Mode, Part};
use src_lexer::Symbol;

/// What could have come where a token was refused.
#[derive(Clone, Copy, Debug, PartialEq, Eq)]
pub enum Want {
    /// A declaration, a statement, `}` or the end of the text.
    Item,
    /// A name.
    Name,
    /// A number.
    Number,
    /// An expression or an operand.
    Expr,
    /// This symbol.
    Sym(Symbol),
}

impl Want {
    /// How it is printed: `item`, `name`, `number`, `expression`, or the symbol itself.
    pub fn text(self) -> &'static [u8]
        ensures { result.now ≡ want_text self }
    {
        match self {
            Want::Item => b"item",
            Want::Name => b"name",
            Want::Number => b"number",
            Want::Expr => b"expression",
            Want::Sym(symbol) => symbol.text(),
        }
    }
}

/// The symbol that ends a whole expression.
fn ender(goal: &Goal) -> Symbol
    ensures { result ≡ spec.ender goal.now }
{
    match goal {
        Goal::Assign { .. } => Symbol::Semi,
        Goal::SetIndex { .. } => Symbol::RBracket,
        Goal::SetValue { .. } => Symbol::Semi,
        Goal::Print => Symbol::Semi,
        Goal::If => Symbol::LBrace,
        Goal::While => Symbol::LBrace,
    }
}

/// The symbol that ends the innermost open part. The parts stand with the innermost last.
#[tactic(auto, using(crate::proofs::Lists::reverse_last))]
fn inner(goal: &Goal, parts: &[Part]) -> Symbol
    ensures { result ≡ spec.inner goal.now (reverse parts.now) }
{
    match parts {
        [] => ender(goal),
        [outer @ .., last] => match last {
            Part::Paren => Symbol::RParen,
            Part::Index { .. } => Symbol::RBracket,
            Part::Unary { .. } => inner(goal, outer),
            Part::Binary { .. } => inner(goal, outer),
        },
    }
}

/// What could come.
pub fn want_of(mode: &Mode) -> Want
    ensures { result ≡ spec.want_of mode.now }
{
    match mode {
        Mode::Item => Want::Item,
        Mode::Var => Want::Name,
        Mode::VarName { .. } => Want::Sym(Symbol::Semi),
        Mode::VarAssign { .. } => Want::Number,
        Mode::VarMinus { .. } => Want::Number,
        Mode::Array => Want::Name,
        Mode::ArrayName { .. } => Want::Sym(Symbol::LBracket),
        Mode::ArrayOpen { .. } => Want::Number,
        Mode::ArrayLen { .. } => Want::Sym(Symbol::RBracket),
        Mode::Declared { .. } => Want::Sym(Symbol::Semi),
        Mode::Name { .. } => Want::Sym(Symbol::Assign),
        Mode::Target { .. } => Want::Sym(Symbol::Assign),
        Mode::Operand { .. } => Want::Expr,
        Mode::Named { goal, parts, .. } => Want::Sym(inner(goal, parts.as_slice())),
        Mode::Value { goal, parts, .. } => Want::Sym(inner(goal, parts.as_slice())),
        Mode::AfterIf { .. } => Want::Item,
        Mode::Else { .. } => Want::Sym(Symbol::LBrace),
    }
}
