//! Laws of ports.

ghost use Rattle.sp_core.specs.PlainCore.{PlainCore};
ghost use Rattle.sp_machine.specs.Transfers.{Delays};
ghost use Rattle.sp_plan.specs.PlainPlan.{PlainPlan};
ghost use Rattle.sp_ports.specs.Laws.{BodiesShareNoPort, InnersShareNoPort, PortsTakeTurns, SchemesKeepApart};
ghost use Rattle.sp_ports.specs.Whole.{PlannedInnersShareNoPort};

/// Two accesses whose forms differ in their constants alone, and whose constants a scheme keeps apart, are in one bank only
/// where they are at one element, whatever the counters and the symbol are.
pub fn schemes_keep_apart()
    ensures { SchemesKeepApart }
{}

/// Two accesses of an inner body to one port of a memory act in one cycle only where they are of one group of iterations and
/// the memory has a scheme.
pub fn ports_take_turns()
    ensures { (core : PlainCore) → PortsTakeTurns core }
{}

/// In an inner body no two accesses share a port of a bank, other than two reads that are one tap.
pub fn bodies_share_no_port()
    ensures { (core : PlainCore) (plan : PlainPlan) (delays : Delays) → BodiesShareNoPort core plan delays }
{}

/// Nor do they in a whole run of an inner body, with its bounds, by the rules of a valid plan.
pub fn inner_bodies_share_no_port()
    ensures { (core : PlainCore) (plan : PlainPlan) (delays : Delays) → InnersShareNoPort core plan delays }
{}

/// By a valid plan of a core no run of an inner body in it shares a port of a bank, whatever the delays of its transfers are.
pub fn planned_inner_bodies_share_no_port()
    ensures { (core : PlainCore) (plan : PlainPlan) (delays : Delays) → PlannedInnersShareNoPort core plan delays }
{}
