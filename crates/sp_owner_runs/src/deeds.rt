//! The law of what owners do in a run. The function does nothing: what it ensures is the law.

ghost use Rattle.sp_core.specs.PlainCore.{PlainCore, PlainNode};
ghost use Rattle.sp_owner_runs.specs.Deeds.{OwnersDo};

/// In the runs of a node its loops alone make memories fresh that count, and its FSMs alone keep states.
pub fn owners_do()
    ensures { (core : PlainCore) (node : PlainNode) → OwnersDo core node }
{}
