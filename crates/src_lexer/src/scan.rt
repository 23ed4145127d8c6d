//! From a text to its tokens.

ghost use Rattle.std.specs.Prelude.{◌≡◌, ◌++◌, ◌≤◌, ◌<◌, ◌^◌, ◌-◌, ◌≢◌, ◌⊎◌, length};
ghost use Rattle.std.specs.Prelude.{IfOk, IfErr, OnOk, MatchResult, List};
ghost use Rattle.src_lexer.specs.declared.token.Token.{Token};
ghost use Rattle.src_lexer.specs.declared.fault.LexFault.{LexFault};
ghost use Rattle.src_lexer.specs.Spell as spec;
ghost use Rattle.src_lexer.specs.Laws.{Ordered};

use crate::fault::LexFault;
use crate::pieces::piece;
use crate::token::{Token, TokenKind};
use std::alloc::Global;

fn add(tokens: &mut Vec<Token>, kind: Option<TokenKind>, at: u32, end: u32) -> Result<(), LexFault>
    ensures ok { OnOk result (tokens.new.items ≡ tokens.old.items ++ spec.tokens kind at end) }
    ensures err { IfErr result (λ e. e ≡ LexFault.Memory) }
{
    if let Some(kind) = kind {
        tokens.push(Token { kind, at, end })?;
    }
    Ok(())
}

/// The tokens of a text, in order. There are no more of them than bytes, and each is the slice of
/// the text from its `at` to its `end`.
///
/// # Errors
///
/// The first fault by place: a byte that begins no token, a number over 2^63 - 1, a name of over
/// 64 bytes. Want of memory may come for any text.
pub fn lex(alloc: Global, src: &[u8]) -> Result<Vec<Token>, LexFault>
    requires { length src.now < 2 ^ 32 - 1 }
    // What is read, the text spells, within the limits.
    ensures found { IfOk result (λ v. spec.Spells src.now 0 v.items × spec.AreAllowed src.now v.items) }
    ensures ordered { IfOk result (λ v. Ordered src.now v.items) }
    // What the text spells within the limits is read, unless memory runs out.
    ensures only { (ts : List Token) → spec.Spells src.now 0 ts → spec.AreAllowed src.now ts
        → MatchResult result (λ v. v.items ≡ ts) (λ e. e ≡ LexFault.Memory) }
    // A fault is the first, and where there is one, it is told.
    ensures fault { IfErr result (λ e. (e ≢ LexFault.Memory) → spec.Faults src.now 0 e) }
    ensures only_fault { (e : LexFault) → spec.Faults src.now 0 e → MatchResult result (λ _. ⊥) (λ x. (x ≡ e) ⊎ (x ≡ LexFault.Memory)) }
{
    let mut tokens = Vec::new(alloc);
    let mut at = 0;
    while at < src.len() {
        let (to, kind) = piece(src, at)?;
        add(&mut tokens, kind, at as u32, to as u32)?;
        at = to;
    }
    Ok(tokens)
}
