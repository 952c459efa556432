//! What every tree that is read keeps.
#![tactic(auto)]

ghost use Rattle.sp_read_trees.specs.Laws.{TreesKeepTheirRules};

/// A tree that is read has names for names and numbers in their ranges, an index at each access, and no more controllers
/// one inside another than brackets may be open. The function does nothing: what it ensures is the law.
pub fn read_trees_keep_their_rules()
    ensures { TreesKeepTheirRules }
{}
