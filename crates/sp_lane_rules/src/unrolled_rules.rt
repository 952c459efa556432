//! Laws of the rules of cores in lanes. Each function does nothing: what it ensures is the law.

ghost use Rattle.sp_core.specs.PlainCore.{PlainCore};
ghost use Rattle.sp_lane_rules.specs.UnrolledLaws.{KeepRules, ListsKeepRules};

/// Lists of operations keep the rules in a lane.
pub fn lists_keep_rules()
    ensures { (core lanes : PlainCore) → ListsKeepRules core lanes }
{}

/// A core in lanes keeps every rule of cores, where of the controllers of several lanes only inner bodies combine, by operators
/// that give the same in whatever order they are done.
pub fn cores_keep_rules()
    ensures { (core : PlainCore) → KeepRules core }
{}
