//! Laws of texts and their tokens.
ghost use Rattle.src_lexer.specs.Laws.{HasOneSpelling, AreOrdered, HaveOneAnswer};

/// A text spells at most one list of tokens.
pub fn text_has_one_spelling()
    ensures { HasOneSpelling }
{}

/// The tokens that a text spells stand in order within it, none is empty, they are no more than its
/// bytes, and each is its slice: a name, digits with their value, a reserved word or a symbol.
pub fn spelled_tokens_are_in_order()
    ensures { AreOrdered }
{}

/// A text spells tokens within the limits on values and names, or it has a first fault; not both,
/// and no other first fault.
pub fn texts_have_one_answer()
    ensures { HaveOneAnswer }
{}
