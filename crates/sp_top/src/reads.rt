//! Texts that stand under names.
ghost use Rattle.std.specs.Prelude.{◌≡◌, ◌≤◌, ℕ, List, [], ◌∷◌, IfOk, IfErr, OnOk, string_bytes};
ghost use Rattle.sp_edges.specs.Counts.{Rose};
ghost use Rattle.sp_edges.specs.Calls.{given};
ghost use Rattle.sp_top.specs.Status.{plain_status};
ghost use Rattle.sp_top.specs.Reads.{GivesText, ReadRefuses, TooLongOrMemory};

use crate::status::Status;
use sp_edges::{InputFault, Inputs};
use std::alloc::Global;

/// The refusal of a name under which too much stands.
pub fn too_long(alloc: Global, name: &str) -> Status
    ensures { TooLongOrMemory name.now (plain_status result) }
{
    match String::from_str(alloc, name) {
        Ok(name) => Status::TooLong { name },
        Err(_) => Status::Memory,
    }
}

/// The bytes that stand under a name, at most so many.
pub fn read_text<I: Inputs>(
    alloc: Global,
    name: &str,
    most: usize,
    inputs: &mut I,
) -> Result<Vec<u8>, Status>
    ensures given { IfOk result (λ bytes. GivesText (I.told inputs.old name.now) most bytes.items) }
    ensures asks { OnOk result (I.asked inputs.old (given name.now ∷ []) inputs.new) }
    ensures refused { IfErr result (λ status. ReadRefuses (I.told inputs.old name.now)
        (Rose (I.faults inputs.old) (I.faults inputs.new) × (I.sure inputs.old name.now → ⊥)) (λ calls. I.asked inputs.old calls inputs.new) most name.now (plain_status status)) }

    // What stays of the inputs.
    ensures counts { I.faults inputs.old ≤ I.faults inputs.new }
    ensures tells { (n : List ℕ) → I.told inputs.new n ≡ I.told inputs.old n }
    ensures stays_sure { (n : List ℕ) → I.sure inputs.old n → I.sure inputs.new n }
{
    let mut bytes = Vec::new(alloc);
    match inputs.read_into(name, most, &mut bytes) {
        Ok(()) => Ok(bytes),
        Err(InputFault::Failed) => Err(Status::ReadFault),
        Err(InputFault::TooLong) => Err(too_long(alloc, name)),
        Err(InputFault::Memory) => Err(Status::Memory),
    }
}
