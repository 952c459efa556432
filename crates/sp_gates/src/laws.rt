//! Laws of drafts and runs. A law is a function whose contract is the law, and whose body is empty.

ghost use Rattle.sp_gates.specs.Laws.{GateLaws};

/// What runs on a draft runs on each earlier one; what is known of a net stays known; parts one after the other are one
/// part; and a draft in which no net is open can be finished.
pub fn gate_laws()
    ensures { GateLaws }
{}
