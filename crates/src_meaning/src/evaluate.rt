// The evaluation of a resolved program.
ghost use Rattle.std.specs.Prelude.{◌≡◌, IsTrue, IsOk, IfOk, OnOk};
ghost use Rattle.bm_io.specs.declared.sinks.SinkFault.TheVariants.{Failed};
ghost use Rattle.bm_io.specs.Causes.{HasCause};
ghost use Rattle.bm_io.specs.Values.{Took};
ghost use Rattle.bm_base.specs.Memory.{set_variable, set_element};
ghost use Rattle.src_names.specs.declared.resolved.RStmt.TheVariants.{Assign, SetElement};
ghost use Rattle.bm_base.specs.Memories.{IsMemoryOf};
ghost use Rattle.src_meaning.specs.Meaning.{value_of, statement, statements, meaning};
ghost use Rattle.src_meaning.specs.Evaluates.{seen, Evaluates, SuitsExpr, SuitsStmt, SuitsBody};

use bm_base::{Store, apply1, apply2};
use bm_io::{SinkFault, Values};
use src_names::{RExpr, RStmt, Resolved};

/// How a program stands once its turns are spent.
#[derive(Clone, Copy, Debug, PartialEq, Eq)]
pub enum End {
    /// It is done.
    Done,
    /// A loop goes on.
    More,
}

/// The value of an expression.
#[tactic(auto, using(crate::proofs::Equations::values))]
fn value_in(x: &RExpr, store: &Store) -> i64
    requires { SuitsExpr x.now store.now }
    ensures { result ≡ value_of x.now store.now }
{
    match x {
        RExpr::Number { value } => *value,
        RExpr::Var { name } => store.get(*name),
        RExpr::Element { name, index } => store.element(*name, value_in(index.get(), store)),
        RExpr::One { op, a } => apply1(*op, value_in(a.get(), store)),
        RExpr::Two { op, a, b } => apply2(*op, value_in(a.get(), store), value_in(b.get(), store)),
    }
}

/// A variable takes a value.
fn assign(name: u16, x: &RExpr, store: &mut Store)
    requires { SuitsStmt (Assign name x.now) store.old }
    ensures { store.new ≡ set_variable store.old name (value_of x.now store.old) }
{
    let value = value_in(x, store);
    store.set(name, value);
}

/// An element of an array takes a value.
fn set_element(name: u16, index: &RExpr, x: &RExpr, store: &mut Store)
    requires { SuitsStmt (SetElement name index.now x.now) store.old }
    ensures { store.new ≡ set_element store.old name (value_of index.now store.old) (value_of x.now store.old) }
{
    let index = value_in(index, store);
    let value = value_in(x, store);
    store.set_element(name, index, value);
}

/// Does what a statement does, with the turns that are left.
#[cycle(run)]
fn run<V: Values>(
    stmt: &RStmt,
    store: &mut Store,
    turns: &mut u64,
    out: &mut V,
) -> Result<End, SinkFault>
    requires { SuitsStmt stmt.now store.old }
    ensures evaluates { Evaluates V.with_value V.leaves V.is_sure (seen (V.held out.old) (V.faults out.old) turns.old store.old)
        (seen (V.held out.new) (V.faults out.new) turns.new store.new)
        (statement stmt.now turns.old store.old) result }
    ensures lender { V.lender out.new ≡ V.lender out.old }
{
    match stmt {
        RStmt::Assign { name, value } => {
            assign(*name, value, store);
            Ok(End::Done)
        }
        RStmt::SetElement { name, index, value } => {
            set_element(*name, index, value, store);
            Ok(End::Done)
        }
        RStmt::Print { value: x } => {
            out.value(value_in(x, store))?;
            Ok(End::Done)
        }
        RStmt::If { cond, yes, no } => {
            if value_in(cond, store) == 0 {
                run_all(no.as_slice(), store, turns, out)
            } else {
                run_all(yes.as_slice(), store, turns, out)
            }
        }
        RStmt::While { cond, body } => {
            while value_in(cond, store) != 0 {
                if *turns == 0 {
                    return Ok(End::More);
                }
                *turns -= 1;
                match run_all(body.as_slice(), store, turns, out)? {
                    End::Done => {}
                    End::More => return Ok(End::More),
                }
            }
            Ok(End::Done)
        }
    }
}

/// Does what statements do, in order; after More nothing further runs.
#[cycle(run)]
fn run_all<V: Values>(
    body: &[RStmt],
    store: &mut Store,
    turns: &mut u64,
    out: &mut V,
) -> Result<End, SinkFault>
    requires { SuitsBody body.now store.old }
    ensures evaluates { Evaluates V.with_value V.leaves V.is_sure (seen (V.held out.old) (V.faults out.old) turns.old store.old)
        (seen (V.held out.new) (V.faults out.new) turns.new store.new)
        (statements body.now turns.old store.old) result }
    ensures lender { V.lender out.new ≡ V.lender out.old }
{
    for stmt in body {
        match run(stmt, store, turns, out)? {
            End::Done => {}
            End::More => return Ok(End::More),
        }
    }
    Ok(End::Done)
}

/// Runs a program with so many turns: each test of a loop that is not 0 spends one, and where none is
/// left the answer is [`End::More`]. `out` takes the words that it prints, in order. `store` is the
/// memory, before and after. It takes no memory of its own.
///
/// # Errors
///
/// The fault of the first word that `out` refuses. `out` took those before it; `store` is then a
/// memory of the same names, and nothing more is said of it.
pub fn eval<V: Values>(
    program: &Resolved,
    store: &mut Store,
    turns: u64,
    out: &mut V,
) -> Result<End, SinkFault>
    requires { IsMemoryOf program.now.names store.old }
    ensures took { Took V.with_value V.leaves (V.held out.old) (V.held out.new) (meaning program.now store.old turns).output result }
    ensures end { IfOk result (λ end. end ≡ (meaning program.now store.old turns).end) }
    ensures memory { OnOk result (store.new ≡ (meaning program.now store.old turns).memory) }
    ensures names { IsMemoryOf program.now.names store.new }
    ensures cause { HasCause Failed (V.faults out.old) (V.faults out.new) result }
    ensures sure { IsTrue V.is_sure → IsOk result }
    ensures lender { V.lender out.new ≡ V.lender out.old }
{
    let mut left = turns;
    run_all(program.body(), store, &mut left, out)
}
