//! Laws of trees and their resolved programs.
ghost use Rattle.src_names.specs.Laws.{HaveOneAnswer, HaveOneProgram};

/// A tree is named by at most one resolved program.
pub fn trees_have_one_program()
    ensures { HaveOneProgram }
{}

/// A tree whose identifiers and numbers are as they are read is named by a program, or it has a first
/// fault; no tree is both, or has another first fault.
pub fn trees_have_one_answer()
    ensures { HaveOneAnswer }
{}
