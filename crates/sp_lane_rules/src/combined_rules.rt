//! Laws of combinations in lanes. Each function does nothing: what it ensures is the law.

ghost use Rattle.sp_core.specs.PlainCore.{PlainCore};
ghost use Rattle.sp_lane_rules.specs.CombinedLaws.{KeepRules, LanesKeepRules};

/// The bodies of lanes and a combination after them keep the rules of cores, whether its operator gives the same in whatever
/// order it is done or the lanes meet the accumulator in order.
pub fn lanes_keep_rules()
    ensures { (core lanes : PlainCore) → LanesKeepRules core lanes }
{}

/// A core in lanes keeps every rule of cores.
pub fn combined_cores_keep_rules()
    ensures { (core : PlainCore) → KeepRules core }
{}
