//! Laws of texts and the programs that they read as.

ghost use Rattle.src_front.specs.Laws.{HaveOneAnswer, ReadFewNodes, ReadFewStatements, ReadInRange, ReadOnce, ReadRight};

use src_lexer::{spelled_tokens_are_in_order, text_has_one_spelling, texts_have_one_answer};
use src_names::{trees_have_one_answer, trees_have_one_program};
use src_parser::{tokens_have_one_answer, tokens_have_one_tree};
use src_tree::derived_trees_are_plain;

/// A text reads as at most one resolved program.
pub fn texts_read_once()
    ensures { ReadOnce }
{
    text_has_one_spelling();
    tokens_have_one_tree();
    trees_have_one_program();
}

/// Each text reads as a program or has a first fault; not both, and no other first fault.
pub fn sources_have_one_answer()
    ensures { HaveOneAnswer }
{
    text_has_one_spelling();
    tokens_have_one_tree();
    derived_trees_are_plain();
    texts_have_one_answer();
    tokens_have_one_answer();
    trees_have_one_answer();
}

/// What a text reads as has lawful names, each name number in it is declared and of the right
/// kind, each statement has at most 120 nodes, there are no more statements than bytes, each declared
/// kind is in range and each number is a word.
pub fn programs_are_read_right()
    ensures right { ReadRight }
    ensures nodes { ReadFewNodes }
    ensures statements { ReadFewStatements }
    ensures range { ReadInRange }
{
    spelled_tokens_are_in_order();
    derived_trees_are_plain();
}
