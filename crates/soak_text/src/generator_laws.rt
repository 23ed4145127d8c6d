//! Laws of generated programs.

ghost use Rattle.soak_text.specs.GeneratorLaws.{AreNamed, ArePlain, AreReadBack, AreShort, SameAreNamedAlike};

use src_lexer::text_has_one_spelling;
use src_tree::text_of_a_plain_tree_is_read_again;

/// Each generated tree is named by a program, so its naming is not refused.
pub fn generated_trees_are_named()
    ensures { AreNamed }
{}

/// The canonical text of a generated tree has at most `MOST_ITEM_BYTES` an item, and
/// `MOST_DECLARATION_BYTES` for the declarations.
pub fn generated_texts_are_short()
    ensures { AreShort }
{}

/// A generated tree of at most `MOST_STATEMENTS` items is plain: its text is short enough to be read, and keeps
/// the limits on depth and nodes.
pub fn generated_trees_are_plain()
    ensures { ArePlain }
{
    text_has_one_spelling();
}

/// A tree that is the same as another, places aside, is named by the same program.
pub fn same_trees_are_named_alike()
    ensures { SameAreNamedAlike }
{}

/// The text of a generated tree of at most `MOST_STATEMENTS` items reads as the program that the tree is named
/// by.
pub fn generated_texts_are_read_back()
    ensures { AreReadBack }
{
    generated_trees_are_plain();
    text_of_a_plain_tree_is_read_again();
}
