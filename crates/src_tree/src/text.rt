//! The canonical text of a tree.

ghost use Rattle.std.specs.Prelude.{◌≡◌, ◌++◌, ◌≤◌, OnOk, IfOk, codes, map};
ghost use Rattle.std.specs.Fmt.{signed_decimal};
ghost use Rattle.src_tree.specs.Operators.{bin_symbol as spec_symbol};
ghost use Rattle.src_tree.specs.Text.{text_of, tight, spaced, expr_text, stmt_text, body_text, decl_text, program_text, joined};

use crate::operators::{bin_symbol, level, un_symbol};
use crate::tree::{Decl, Expr, Ident, Program, Stmt};
use bm_base::Bin;
use std::alloc::{AllocError, Global};

const OPERAND: u8 = 7;

#[tactic(auto, using(crate::proofs::Equations::texts))]
fn expr_level(x: &Expr) -> u8
    ensures { result ≡ (text_of x.now).level }
{
    match x {
        Expr::Two { op, .. } => level(*op),
        Expr::Number { .. } => OPERAND,
        Expr::Var { .. } => OPERAND,
        Expr::Element { .. } => OPERAND,
        Expr::One { .. } => OPERAND,
    }
}

fn write_number(out: &mut Vec<u8>, value: i64) -> Result<(), AllocError>
    ensures { OnOk result (out.new.items ≡ out.old.items ++ signed_decimal value) }
{
    let text = value.to_string(*out.allocator())?;
    out.extend_from_slice(text.as_bytes())
}

/// A binary operator with a blank on each side.
#[tactic(auto, using(std::proofs::Common::append_assoc))]
fn write_operator(out: &mut Vec<u8>, op: Bin) -> Result<(), AllocError>
    ensures { OnOk result (out.new.items ≡ out.old.items ++ spaced (spec_symbol op)) }
{
    out.extend_from_slice(b" ")?;
    out.extend_from_slice(bin_symbol(op).text())?;
    out.extend_from_slice(b" ")
}

#[cycle(write)]
fn write_tight(out: &mut Vec<u8>, least: u8, x: &Expr) -> Result<(), AllocError>
    ensures { OnOk result (out.new.items ≡ out.old.items ++ tight least (text_of x.now)) }
{
    if expr_level(x) < least {
        out.extend_from_slice(b"(")?;
        write_expr(out, x)?;
        out.extend_from_slice(b")")
    } else {
        write_expr(out, x)
    }
}

#[cycle(write)]
#[tactic(auto, using(crate::proofs::Equations::texts, std::proofs::Common::append_assoc))]
fn write_expr(out: &mut Vec<u8>, x: &Expr) -> Result<(), AllocError>
    ensures { OnOk result (out.new.items ≡ out.old.items ++ expr_text x.now) }
{
    match x {
        Expr::Number { value } => write_number(out, *value),
        Expr::Var { name } => out.extend_from_slice(name.text.as_slice()),
        Expr::Element { name, index } => {
            out.extend_from_slice(name.text.as_slice())?;
            out.extend_from_slice(b"[")?;
            write_expr(out, index.get())?;
            out.extend_from_slice(b"]")
        }
        Expr::One { op, a } => {
            out.extend_from_slice(un_symbol(*op).text())?;
            write_tight(out, OPERAND, a.get())
        }
        Expr::Two { op, a, b } => {
            let level = level(*op);
            write_tight(out, level, a.get())?;
            write_operator(out, *op)?;
            write_tight(out, level + 1, b.get())
        }
    }
}

/// An expression between two texts.
#[tactic(auto, using(std::proofs::Common::append_assoc))]
fn write_between(out: &mut Vec<u8>, before: &[u8], x: &Expr, after: &[u8]) -> Result<(), AllocError>
    ensures { OnOk result (out.new.items ≡ out.old.items ++ (before.now ++ expr_text x.now ++ after.now)) }
{
    out.extend_from_slice(before)?;
    write_expr(out, x)?;
    out.extend_from_slice(after)
}

/// An assignment to a variable.
#[tactic(auto, using(std::proofs::Common::append_assoc))]
fn write_assign(out: &mut Vec<u8>, name: &Ident, value: &Expr) -> Result<(), AllocError>
    ensures { OnOk result (out.new.items ≡ out.old.items ++ (name.now.text ++ codes " = " ++ expr_text value.now ++ codes ";\n")) }
{
    out.extend_from_slice(name.text.as_slice())?;
    write_between(out, b" = ", value, b";\n")
}

/// An assignment to an element.
#[tactic(auto, using(std::proofs::Common::append_assoc))]
fn write_set(out: &mut Vec<u8>, name: &Ident, index: &Expr, value: &Expr) -> Result<(), AllocError>
    ensures { OnOk result (out.new.items ≡ out.old.items ++
        (name.now.text ++ codes "[" ++ expr_text index.now ++ codes "] = " ++ expr_text value.now ++ codes ";\n")) }
{
    out.extend_from_slice(name.text.as_slice())?;
    write_between(out, b"[", index, b"] = ")?;
    write_between(out, b"", value, b";\n")
}

#[cycle(write_statements)]
#[tactic(auto, using(crate::proofs::Equations::statement_texts, std::proofs::Common::append_assoc))]
fn write_stmt(out: &mut Vec<u8>, stmt: &Stmt) -> Result<(), AllocError>
    ensures { OnOk result (out.new.items ≡ out.old.items ++ stmt_text stmt.now) }
{
    match stmt {
        Stmt::Assign { name, value } => write_assign(out, name, value),
        Stmt::SetElement { name, index, value } => write_set(out, name, index, value),
        Stmt::Print { value } => write_between(out, b"print ", value, b";\n"),
        Stmt::If { cond, yes, no } => {
            write_between(out, b"if ", cond, b" {\n")?;
            write_body(out, yes.as_slice())?;
            out.extend_from_slice(b"} else {\n")?;
            write_body(out, no.as_slice())?;
            out.extend_from_slice(b"}\n")
        }
        Stmt::While { cond, body } => {
            write_between(out, b"while ", cond, b" {\n")?;
            write_body(out, body.as_slice())?;
            out.extend_from_slice(b"}\n")
        }
    }
}

#[cycle(write_statements)]
fn write_body(out: &mut Vec<u8>, body: &[Stmt]) -> Result<(), AllocError>
    ensures { OnOk result (out.new.items ≡ out.old.items ++ body_text body.now) }
{
    for stmt in body {
        write_stmt(out, stmt)?;
    }
    Ok(())
}

#[tactic(auto, using(std::proofs::Common::append_assoc))]
fn write_decl(out: &mut Vec<u8>, decl: &Decl) -> Result<(), AllocError>
    ensures { OnOk result (out.new.items ≡ out.old.items ++ decl_text decl.now) }
{
    match decl {
        Decl::Var { name, initial } => {
            out.extend_from_slice(b"var ")?;
            out.extend_from_slice(name.text.as_slice())?;
            out.extend_from_slice(b" = ")?;
            write_number(out, *initial)?;
            out.extend_from_slice(b";\n")
        }
        Decl::Array { name, len } => {
            out.extend_from_slice(b"array ")?;
            out.extend_from_slice(name.text.as_slice())?;
            out.extend_from_slice(b"[")?;
            write_number(out, *len)?;
            out.extend_from_slice(b"];\n")
        }
    }
}

fn write_decls(out: &mut Vec<u8>, decls: &[Decl]) -> Result<(), AllocError>
    ensures { OnOk result (out.new.items ≡ out.old.items ++ joined (map decl_text decls.now)) }
{
    for decl in decls {
        write_decl(out, decl)?;
    }
    Ok(())
}

/// The canonical text of a program: a statement a line, without indentation, with a blank on each
/// side of a binary operator, and with parentheses only where the levels of the operators ask for
/// them. It is written for every tree.
///
/// # Errors
///
/// `AllocError` where there is no memory for the text.
pub fn source(alloc: Global, program: &Program) -> Result<Vec<u8>, AllocError>
    ensures { IfOk result (λ text. text.items ≡ program_text program.now) }
{
    let mut out = Vec::new(alloc);
    write_decls(&mut out, program.decls.as_slice())?;
    write_body(&mut out, program.body.as_slice())?;
    Ok(out)
}
