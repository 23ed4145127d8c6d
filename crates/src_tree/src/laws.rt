//! Laws of trees and their texts.

ghost use Rattle.src_tree.specs.Laws.{AreReadAgain, DerivedArePlain};

use src_lexer::spelled_tokens_are_in_order;

/// The canonical text of a plain tree spells tokens that keep all limits and derive the same tree,
/// places aside.
pub fn text_of_a_plain_tree_is_read_again()
    ensures { AreReadAgain }
{}

/// A tree that the tokens of a text derive has names for its identifiers, and no negative number but
/// an initial value.
pub fn derived_trees_are_plain()
    ensures { DerivedArePlain }
{
    spelled_tokens_are_in_order();
}
