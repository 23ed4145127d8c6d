//! The program that tokens spell.

ghost use Rattle.std.specs.Prelude.{◌≡◌, ◌≢◌, ◌∷◌, ◌++◌, [], List, Some, None, IfOk, OnOk, IfErr, MatchResult, All, ◌⊎◌, if◌then◌else◌};
ghost use Rattle.std.specs.Prelude.{◌≤◌, ◌<◌, ◌^◌, ◌-◌, length};
ghost use Rattle.src_lexer.specs.Spell.{Spells};
ghost use Rattle.src_tree.specs.declared.tree.Program.{Program};
ghost use Rattle.src_tree.specs.Grammar.{Derives};
ghost use Rattle.src_tree.specs.Limits.{KeepsLimits};
ghost use Rattle.src_parser.specs.Tokens.{IsPlain};
ghost use Rattle.src_parser.specs.Machine as spec;
ghost use Rattle.src_parser.specs.Tally as counts;
ghost use Rattle.src_parser.specs.Turn.{Goes, Stops};
ghost use Rattle.src_parser.specs.Fault.{Faults};
ghost use Rattle.src_parser.specs.Statements.{statements};

use crate::act::act;
use crate::apply::apply;
use crate::fault::ParseFault;
use crate::machine::{Mode, State};
use crate::stack::Stack;
use crate::tally::{self, Tally};
use crate::want::want_of;
use bm_base::{MOST_DEPTH, MOST_NODES};
use sqlite_items::Items;
use src_lexer::{Token, spelled_tokens_are_in_order};
use src_tree::{Decl, Program, Stmt};
use std::alloc::{AllocError, Global};
use std::mem;

/// One token more, or false where no program goes on with it.
#[tactic(auto, using(crate::proofs::Steps::apply_mode))]
fn step(alloc: Global, src: &[u8], state: &mut State, token: Token) -> Result<bool, AllocError>
    requires low { token.at ≤ token.end }
    requires high { token.end ≤ length src.now }
    requires plain { IsPlain token }
    ensures { IfOk result (λ went. spec.step src.now state.old token ≡ (if went then Some state.new else None)) }
{
    let mode = mem::replace(&mut state.mode, Mode::Item);
    let action = act(alloc, src, mode, token)?;
    apply(alloc, state, action)
}

/// One token more, within the limits.
fn turn(
    alloc: Global,
    src: &[u8],
    state: &mut State,
    counted: &mut Tally,
    token: Token,
) -> Result<(), ParseFault>
    requires low { token.at ≤ token.end }
    requires high { token.end ≤ length src.now }
    requires plain { IsPlain token }
    requires depth { counted.old.depth ≤ MOST_DEPTH }
    requires signs { counted.old.signs ≤ MOST_DEPTH }
    requires nodes { counted.old.nodes ≤ MOST_NODES }
    ensures goes { OnOk result (Goes src.now state.old counted.old token state.new counted.new) }
    ensures stops { IfErr result (λ e. Stops src.now state.old counted.old token e) }
{
    let what = want_of(&state.mode);
    if !step(alloc, src, state, token)? {
        return Err(ParseFault::Expected { at: token.at, what });
    }
    tally::take(counted, token)?;
    if counted.depth > MOST_DEPTH {
        return Err(ParseFault::TooDeep { at: token.at });
    }
    if counted.nodes > MOST_NODES {
        return Err(ParseFault::TooManyNodes {
            at: token.at,
            first: counted.first,
        });
    }
    Ok(())
}

/// Reads the tokens, one after another.
fn read(alloc: Global, src: &[u8], tokens: &[Token], state: &mut State) -> Result<(), ParseFault>
    requires start { state.old ≡ spec.start }
    requires tokens { All (λ t. (t.at ≤ t.end) × (t.end ≤ length src.now) × IsPlain t) tokens.now }
    ensures ok { OnOk result (spec.run src.now spec.start tokens.now ≡ Some state.new) }
    ensures limits { OnOk result (KeepsLimits tokens.now) }
    ensures fault { IfErr result (λ e. (e ≢ ParseFault.Memory) → Faults src.now tokens.now e) }
{
    let mut counted = tally::nothing(alloc);
    for token in tokens {
        turn(alloc, src, state, &mut counted, *token)?;
    }
    Ok(())
}

/// The end of the text is expected to be the end of a program.
fn unfinished(src: &[u8], mode: &Mode) -> ParseFault
    requires { length src.now < 2 ^ 32 - 1 }
    ensures { result ≡ ParseFault.Expected (length src.now) (spec.want_of mode.now) }
{
    ParseFault::Expected {
        at: src.len() as u32,
        what: want_of(mode),
    }
}

fn with_last(decls: Items<Decl>, mut body: Items<Stmt>, last: Stmt) -> Result<Program, ParseFault>
    ensures { MatchResult result (λ p. p ≡ record { decls = decls; body = body ++ last ∷ [] }) (λ e. e ≡ ParseFault.Memory) }
{
    body.push(last)?;
    Ok(Program { decls, body })
}

fn start(alloc: Global) -> State
    ensures { result ≡ spec.start }
{
    State {
        decls: Items::new(alloc),
        bodies: Stack::new(alloc),
        body: Items::new(alloc),
        mode: Mode::Item,
    }
}

/// The program where no part of an item is open; else the fault.
fn last(
    alloc: Global,
    decls: Items<Decl>,
    body: Items<Stmt>,
    mode: Mode,
    fault: ParseFault,
) -> Result<Program, ParseFault>
    ensures { MatchResult result (λ p. spec.last_in decls body mode ≡ Some p) (λ e. (e ≡ ParseFault.Memory)
        ⊎ ((e ≡ fault) × (spec.last_in decls body mode ≡ None))) }
{
    match mode {
        Mode::Item => Ok(Program { decls, body }),
        Mode::AfterIf { cond, yes } => {
            let no = Items::new(alloc);
            with_last(decls, body, Stmt::If { cond, yes, no })
        }
        mode => {
            drop((decls, body, mode));
            Err(fault)
        }
    }
}

/// The program where no body is open either.
fn finish(alloc: Global, state: State, fault: ParseFault) -> Result<Program, ParseFault>
    ensures { MatchResult result (λ p. spec.whole state ≡ Some p) (λ e. (e ≡ ParseFault.Memory)
        ⊎ ((e ≡ fault) × (spec.whole state ≡ None))) }
{
    let State {
        decls,
        bodies,
        body,
        mode,
    } = state;
    if bodies.is_empty() {
        last(alloc, decls, body, mode, fault)
    } else {
        drop((decls, body, mode));
        Err(fault)
    }
}

/// The program that the tokens of a text spell, with each identifier's place.
///
/// # Errors
///
/// The first by token: one with which no program goes on, or the end of the text where no program
/// ends; an allowed token that would make depth 65; an allowed token that would be the 121st node of
/// its statement. Want of memory may come for any text.
pub fn parse(alloc: Global, src: &[u8], tokens: &[Token]) -> Result<Program, ParseFault>
    requires short { length src.now < 2 ^ 32 - 1 }
    requires spelled { Spells src.now 0 tokens.now }
    // What is read, the tokens derive, and they keep the limits.
    ensures found { IfOk result (λ p. Derives src.now tokens.now p × KeepsLimits tokens.now) }
    // A program has no more statements, those in bodies included, than tokens.
    ensures few { IfOk result (λ p. statements p.body ≤ length tokens.now) }
    // What the tokens derive within the limits is read, unless memory runs out.
    ensures only { (p : Program) → Derives src.now tokens.now p → KeepsLimits tokens.now
        → MatchResult result (λ q. q ≡ p) (λ e. e ≡ ParseFault.Memory) }
    // A fault is the first, and where there is one, it is told.
    ensures fault { IfErr result (λ e. (e ≢ ParseFault.Memory) → Faults src.now tokens.now e) }
    ensures only_fault { (e : ParseFault) → Faults src.now tokens.now e
        → MatchResult result (λ _. ⊥) (λ x. (x ≡ e) ⊎ (x ≡ ParseFault.Memory)) }
{
    // Only for its contract.
    spelled_tokens_are_in_order();
    let mut state = start(alloc);
    match read(alloc, src, tokens, &mut state) {
        Ok(()) => {
            let fault = unfinished(src, &state.mode);
            finish(alloc, state, fault)
        }
        Err(fault) => {
            drop(state);
            Err(fault)
        }
    }
}
