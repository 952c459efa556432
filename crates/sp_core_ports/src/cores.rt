//! Laws of the ports of whole cores.

ghost use Rattle.sp_core.specs.PlainCore.{PlainCore};
ghost use Rattle.sp_core_ports.specs.CoreLaws.{CoresUseNoPortTwice, ReadsHaveDuplicates, StagesTakeTurns};
ghost use Rattle.sp_machine.specs.Transfers.{Delays};
ghost use Rattle.sp_plan.specs.PlainPlan.{PlainPlan};

/// In an outer body whose plan is right, two runs of stages that use one port come one after the other, by beats or in a chain.
pub fn stages_take_turns()
    ensures { (core : PlainCore) (plan : PlainPlan) (delays : Delays) → StagesTakeTurns core plan delays }
{}

/// By a valid plan each read of a memory with banks has a duplicate that no other reader has.
pub fn reads_have_duplicates()
    ensures { (core : PlainCore) (plan : PlainPlan) (delays : Delays) → ReadsHaveDuplicates core plan delays }
{}

/// By a valid plan no port of a bank is used twice in one cycle of a run of a core, other than as one tap, whatever the delays of
/// its transfers are.
pub fn cores_use_no_port_twice()
    ensures { (core : PlainCore) (plan : PlainPlan) (delays : Delays) → CoresUseNoPortTwice core plan delays }
{}
