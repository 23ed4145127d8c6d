//! What an action does to the state.

ghost use Rattle.std.specs.Prelude.{◌≡◌, ◌∷◌, ◌++◌, [], Some, None, IfOk, OnOk, if◌then◌else◌};
ghost use Rattle.src_parser.specs.Machine as spec;

use crate::machine::{Action, Head, Mode, OpenBody, State};
use sqlite_items::Items;
use src_tree::{Decl, Stmt};
use std::alloc::{AllocError, Global};
use std::mem;

/// A body is complete: the statements before it with its own, and what stands before the next
/// token.
fn closed_body(open: OpenBody, body: Items<Stmt>) -> Result<(Items<Stmt>, Mode), AllocError>
    ensures { IfOk result (λ r. (r.0, r.1) ≡ spec.closed_body open.before open.head body) }
{
    let OpenBody { mut before, head } = open;
    match head {
        Head::While { cond } => {
            before.push(Stmt::While { cond, body })?;
            Ok((before, Mode::Item))
        }
        Head::If { cond } => Ok((before, Mode::AfterIf { cond, yes: body })),
        Head::Else { cond, yes } => {
            before.push(Stmt::If {
                cond,
                yes,
                no: body,
            })?;
            Ok((before, Mode::Item))
        }
    }
}

/// What stood before the next token is dropped by a call: in place, a check takes each of its kinds apart.
fn go(state: &mut State, mode: Mode)
    ensures { state.new ≡ record state.old { mode = mode } }
{
    drop(mem::replace(&mut state.mode, mode));
}

fn close(alloc: Global, state: &mut State) -> Result<bool, AllocError>
    ensures { IfOk result (λ went. spec.close state.old state.old.bodies ≡ (if went then Some state.new else None)) }
{
    match state.bodies.pop() {
        None => Ok(false),
        Some(open) => {
            let body = mem::replace(&mut state.body, Items::new(alloc));
            let (body, mode) = closed_body(open, body)?;
            state.body = body;
            go(state, mode);
            Ok(true)
        }
    }
}

fn begin(state: &mut State, mode: Mode) -> bool
    ensures { spec.begin state.old mode state.old.bodies state.old.body ≡ (if result then Some state.new else None) }
{
    if state.bodies.is_empty() && state.body.is_empty() {
        go(state, mode);
        true
    } else {
        drop(mode);
        false
    }
}

fn declare(state: &mut State, decl: Decl) -> Result<(), AllocError>
    ensures { OnOk result (state.new ≡ record state.old { decls = state.old.decls ++ decl ∷ []; mode = Mode.Item }) }
{
    state.decls.push(decl)?;
    go(state, Mode::Item);
    Ok(())
}

fn add(state: &mut State, stmt: Stmt) -> Result<(), AllocError>
    ensures { OnOk result (state.new ≡ spec.behind state.old stmt) }
{
    state.body.push(stmt)?;
    go(state, Mode::Item);
    Ok(())
}

fn open_body(alloc: Global, state: &mut State, head: Head) -> Result<(), AllocError>
    ensures { OnOk result (Some state.new ≡ spec.apply state.old (Action.Open head)) }
{
    let before = mem::replace(&mut state.body, Items::new(alloc));
    state.bodies.push(OpenBody { before, head })?;
    go(state, Mode::Item);
    Ok(())
}

fn add_and_go(state: &mut State, stmt: Stmt, mode: Mode) -> Result<(), AllocError>
    ensures { OnOk result (Some state.new ≡ spec.apply state.old (Action.FinishGo stmt mode)) }
{
    let added = add(state, stmt);
    go(state, mode);
    added
}

fn add_and_close(alloc: Global, state: &mut State, stmt: Stmt) -> Result<bool, AllocError>
    ensures { IfOk result (λ went. spec.apply state.old (Action.FinishClose stmt) ≡ (if went then Some state.new else None)) }
{
    add(state, stmt)?;
    close(alloc, state)
}

/// The action's state, or false where no program goes on.
pub fn apply(alloc: Global, state: &mut State, action: Action) -> Result<bool, AllocError>
    ensures { IfOk result (λ went. spec.apply state.old action ≡ (if went then Some state.new else None)) }
{
    match action {
        Action::Refuse => return Ok(false),
        Action::Go(mode) => go(state, mode),
        Action::Begin(mode) => return Ok(begin(state, mode)),
        Action::Declare(decl) => declare(state, decl)?,
        Action::Finish(stmt) => add(state, stmt)?,
        Action::Open(head) => open_body(alloc, state, head)?,
        Action::Close => return close(alloc, state),
        Action::FinishGo(stmt, mode) => add_and_go(state, stmt, mode)?,
        Action::FinishClose(stmt) => return add_and_close(alloc, state, stmt),
    }
    Ok(true)
}
