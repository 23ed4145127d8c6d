//! Laws of texts and their trees.

ghost use Rattle.src_parser.specs.Laws.{AreParsedAgain, HaveOneAnswer, HaveOneTree};

use src_lexer::text_has_one_spelling;
use src_tree::text_of_a_plain_tree_is_read_again;

/// Tokens derive at most one program.
pub fn tokens_have_one_tree()
    ensures { HaveOneTree }
{}

/// The canonical text of a plain tree is lexed and parsed as the same tree, places aside: it spells
/// certain tokens within all limits and no others, and they derive that tree and no other.
pub fn text_of_a_plain_tree_is_parsed_again()
    ensures { AreParsedAgain }
{
    text_has_one_spelling();
    text_of_a_plain_tree_is_read_again();
}

/// Tokens derive a tree within the limits on depth and nodes, or they have a first fault; not both,
/// and no other first fault.
pub fn tokens_have_one_answer()
    ensures { HaveOneAnswer }
{}
