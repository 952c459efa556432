//! The grammar of programs: what is read is in it, and what is in it is read. Each function does nothing: what it ensures
//! is the law.
#![tactic(auto)]

ghost use Rattle.sp_grammar.specs.Laws.{ReadsGrammar, GrammarIsRead, HasOneTree, TextsAreRead};

/// The tree that is read of a list of tokens is one that the tokens spell by the grammar.
pub fn reads_grammar()
    ensures { ReadsGrammar }
{}

/// A tree that a list of tokens spells by the grammar is read of it.
pub fn grammar_is_read()
    ensures { GrammarIsRead }
{}

/// No list of tokens spells two trees.
pub fn has_one_tree()
    ensures { HasOneTree }
{}

/// A text is read as a tree exactly where it is UTF-8, passes no limit, and its tokens spell the tree by the grammar.
pub fn texts_are_read()
    ensures { TextsAreRead }
{}
