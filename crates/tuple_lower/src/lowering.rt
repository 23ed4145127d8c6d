// From a resolved program to its blocks.
ghost use Rattle.std.specs.Prelude.{◌≡◌, ◌<◌, ◌≤◌, ◌+◌, ◌^◌, length, IfOk, OnOk};
ghost use Rattle.src_names.specs.declared.resolved.RStmt.TheVariants.{Assign, SetElement, Print};
ghost use Rattle.src_names.specs.Sizes.{nodes, AllFewNodes, statements};
ghost use Rattle.tuple_lower.specs.Lowered.{last_of, expr_tuples};
ghost use Rattle.tuple_lower.specs.Blocks.{with_row, put, lower_stmt as spec_stmt, lower_body as spec_body, lowered_blocks};
ghost use Rattle.tuple_lower.specs.Drafted.{continued, StmtFits, BodyFits, opened_choice, closed_choice, opened_loop, closed_loop};

use crate::draft::Draft;
use bm_base::{MOST_NODES, MOST_TUPLES};
use src_names::{RExpr, RStmt, Resolved};
use std::alloc::{AllocError, Global};
use tuple_ir::{Blocks, Next, Tuple};

/// How many nodes an expression has.
fn size(x: &RExpr) -> usize
    requires { nodes x.now ≤ MOST_NODES }
    ensures { result ≡ nodes x.now }
{
    match x {
        RExpr::Number { .. } => 1,
        RExpr::Var { .. } => 1,
        RExpr::Element { index, .. } => 1 + size(index.get()),
        RExpr::One { a, .. } => 1 + size(a.get()),
        RExpr::Two { a, b, .. } => 1 + size(a.get()) + size(b.get()),
    }
}

/// Puts the tuples of an expression behind those of the current block, and gives the number of the
/// one that has its value.
fn put_value(x: &RExpr, draft: &mut Draft) -> Result<u8, AllocError>
    requires { length draft.old.current + nodes x.now ≤ MOST_TUPLES }
    ensures row { OnOk result (draft.new ≡ with_row (expr_tuples x.now) draft.old) }
    ensures cell { IfOk result (λ cell. cell + 1 ≡ length draft.new.current) }
{
    match x {
        RExpr::Number { value } => draft.push(Tuple::Const { value: *value }),
        RExpr::Var { name } => draft.push(Tuple::Load { name: *name }),
        RExpr::Element { name, index } => {
            let index = put_value(index.get(), draft)?;
            draft.push(Tuple::LoadEl { name: *name, index })
        }
        RExpr::One { op, a } => {
            let a = put_value(a.get(), draft)?;
            draft.push(Tuple::One { op: *op, a })
        }
        RExpr::Two { op, a, b } => {
            let a = put_value(a.get(), draft)?;
            let b = put_value(b.get(), draft)?;
            draft.push(Tuple::Two { op: *op, a, b })
        }
    }
}

/// A variable takes a value.
fn put_assign(name: u16, x: &RExpr, draft: &mut Draft) -> Result<(), AllocError>
    requires { StmtFits (Assign name x.now) draft.old }
    ensures { OnOk result (draft.new ≡ continued draft.old (spec_stmt (Assign name x.now))) }
{
    draft.make_room(size(x) + 1)?;
    let value = put_value(x, draft)?;
    draft.push(Tuple::Store { name, value })?;
    Ok(())
}

/// An element of an array takes a value.
fn put_element(name: u16, i: &RExpr, x: &RExpr, draft: &mut Draft) -> Result<(), AllocError>
    requires { StmtFits (SetElement name i.now x.now) draft.old }
    ensures { OnOk result (draft.new ≡ continued draft.old (spec_stmt (SetElement name i.now x.now))) }
{
    draft.make_room(size(i) + size(x) + 1)?;
    let index = put_value(i, draft)?;
    let value = put_value(x, draft)?;
    draft.push(Tuple::StoreEl { name, index, value })?;
    Ok(())
}

/// A value is printed.
fn put_print(x: &RExpr, draft: &mut Draft) -> Result<(), AllocError>
    requires { StmtFits (Print x.now) draft.old }
    ensures { OnOk result (draft.new ≡ continued draft.old (spec_stmt (Print x.now))) }
{
    draft.make_room(size(x) + 1)?;
    let value = put_value(x, draft)?;
    draft.push(Tuple::Print { value })?;
    Ok(())
}

/// A block that ends by a condition: its number, and the cell that is asked.
#[derive(Clone, Copy)]
struct Test {
    number: u32,
    cell: u8,
}

/// Puts the condition of an `if` and opens its then-block.
fn open_choice(cond: &RExpr, draft: &mut Draft) -> Result<Test, AllocError>
    requires few { nodes cond.now ≤ MOST_NODES }
    requires numbers { length draft.old.ended < 4294967294 }
    requires cells { length draft.old.current ≤ MOST_TUPLES }
    ensures opened { OnOk result (draft.new ≡ opened_choice cond.now draft.old) }
    ensures number { IfOk result (λ test. test.number + 1 ≡ length draft.new.ended) }
    ensures cell { IfOk result (λ test. test.cell + 1
        ≡ length (put (expr_tuples cond.now) (length draft.old.ended) draft.old.current).current) }
{
    draft.make_room(size(cond))?;
    let cell = put_value(cond, draft)?;
    let number = draft.number();
    draft.end_by(Next::Halt)?;
    Ok(Test { number, cell })
}

/// Opens the join of an `if`, whose then-body ends by block `end`.
fn close_choice(test: Test, end: u32, draft: &mut Draft) -> Result<(), AllocError>
    requires numbers { length draft.old.ended < 4294967295 }
    requires test { test.number < length draft.old.ended }
    requires end { end < length draft.old.ended }
    ensures { OnOk result (draft.new ≡ closed_choice test.number test.cell end draft.old) }
{
    let join = draft.number() + 1;
    draft.end_by(Next::Goto { block: join })?;
    draft.set_next(end, Next::Goto { block: join });
    draft.set_next(
        test.number,
        Next::If {
            cell: test.cell,
            yes: test.number + 1,
            no: end + 1,
        },
    );
    Ok(())
}

/// Opens the header of a `while`, puts the condition there, and opens the body block.
fn open_loop(cond: &RExpr, draft: &mut Draft) -> Result<Test, AllocError>
    requires few { nodes cond.now ≤ MOST_NODES }
    requires numbers { length draft.old.ended < 4294967294 }
    ensures opened { OnOk result (draft.new ≡ opened_loop cond.now draft.old) }
    ensures number { IfOk result (λ test. test.number ≡ length draft.old.ended + 1) }
    ensures cell { IfOk result (λ test. test.cell + 1 ≡ length (expr_tuples cond.now 0)) }
{
    let number = draft.number() + 1;
    draft.end_by(Next::Goto { block: number })?;
    let cell = put_value(cond, draft)?;
    draft.end_by(Next::Halt)?;
    Ok(Test { number, cell })
}

/// Leads the body of a `while` back to its header, and opens the exit.
fn close_loop(test: Test, draft: &mut Draft) -> Result<(), AllocError>
    requires numbers { length draft.old.ended < 4294967295 }
    requires test { test.number < length draft.old.ended }
    ensures { OnOk result (draft.new ≡ closed_loop test.number test.cell draft.old) }
{
    let exit = draft.number() + 1;
    draft.end_by(Next::Goto { block: test.number })?;
    draft.set_next(
        test.number,
        Next::If {
            cell: test.cell,
            yes: test.number + 1,
            no: exit,
        },
    );
    Ok(())
}

/// Lowers a statement behind the current block.
#[cycle(lower_stmt)]
fn lower_stmt(stmt: &RStmt, draft: &mut Draft) -> Result<(), AllocError>
    requires { StmtFits stmt.now draft.old }
    ensures { OnOk result (draft.new ≡ continued draft.old (spec_stmt stmt.now)) }
{
    match stmt {
        RStmt::Assign { name, value } => put_assign(*name, value, draft),
        RStmt::SetElement { name, index, value } => put_element(*name, index, value, draft),
        RStmt::Print { value } => put_print(value, draft),
        RStmt::If { cond, yes, no } => {
            let test = open_choice(cond, draft)?;
            lower_body(yes.as_slice(), draft)?;
            let end = draft.number();
            draft.end_by(Next::Halt)?;
            lower_body(no.as_slice(), draft)?;
            close_choice(test, end, draft)
        }
        RStmt::While { cond, body } => {
            let test = open_loop(cond, draft)?;
            lower_body(body.as_slice(), draft)?;
            close_loop(test, draft)
        }
    }
}

/// Lowers statements, in order.
#[cycle(lower_stmt)]
fn lower_body(body: &[RStmt], draft: &mut Draft) -> Result<(), AllocError>
    requires { BodyFits body.now draft.old }
    ensures { OnOk result (draft.new ≡ continued draft.old (spec_body body.now)) }
{
    for stmt in body {
        lower_stmt(stmt, draft)?;
    }
    Ok(())
}

/// The blocks of a program, with its names. `specs/Blocks.antt` says which they are.
///
/// # Errors
///
/// `AllocError` where there is no memory for the blocks.
pub fn lower(alloc: Global, program: &Resolved) -> Result<Blocks, AllocError>
    requires nodes { AllFewNodes program.now.body }
    requires statements { statements program.now.body < 2 ^ 28 }
    ensures { IfOk result (λ blocks. blocks ≡ lowered_blocks program.now) }
{
    let mut draft = Draft::new(alloc);
    lower_body(program.body(), &mut draft)?;
    let names = program.names().copy(alloc)?;
    let blocks = draft.finish()?;
    Ok(Blocks { names, blocks })
}
