//! The circuit of a branch around the circuits of its sides.
ghost use Rattle.std.specs.Prelude.{◌≡◌, ◌+◌, ◌<◌, ◌^◌, ◌∷◌, ◌++◌, [], length, IfOk, OnOk};
ghost use Rattle.sp_words.specs.declared.types.Ty.TheVariants.{Bit};
ghost use Rattle.sp_netlist.specs.Signals.{Signals};
ghost use Rattle.sp_gates.specs.Grows.{Fills};
ghost use Rattle.sp_gates.specs.Nets.{Awaits, HasNet};
ghost use Rattle.sp_gates.specs.Runs.{RunsOn};
ghost use Rattle.sp_core.specs.CoreParts.{plain_core};
ghost use Rattle.sp_core.specs.Plain.{plain_ops};
ghost use Rattle.sp_ctrl.specs.Fits.{BranchFits};
ghost use Rattle.sp_ctrl.specs.Runs.{RunsBranch};
ghost use Rattle.sp_op_nets.specs.Acted.{answers_of};
ghost use Rattle.sp_op_nets.specs.Reserved.{Reserves};
ghost use Rattle.sp_list_circuits.specs.Turns.{IsInTurns, IsWordRight};
ghost use Rattle.sp_tree_handed.specs.Lists.{numbered};
ghost use Rattle.sp_tree_handed.specs.Standing.{IsListStanding};

use crate::tree::append;
use sp_core::{Core, Op};
use sp_ctrl::{Part, emit};
use sp_gates::reserve;
use sp_list_circuits::{Turns, emit_turns};
use sp_netlist::{Builder, Child, NetId, NoMemory};
use sp_op_nets::{ActedList, AroundNets};
use sp_words::Ty;
use std::alloc::Global;

/// A branch whose sides are to be emitted: its test, and the starts of both sides, which are to be driven behind them.
#[derive(Debug, Drop)]
pub(crate) struct OpenBranch {
    pub(crate) test: Turns,
    pub(crate) yes: NetId,
    pub(crate) no: NetId,
}

/// Reserves the starts of a branch's test and of its sides, and emits the test.
pub(crate) fn begin_branch(
    alloc: Global,
    builder: &mut Builder,
    core: &Core,
    test: &[Op],
    number: u32,
    around: &[AroundNets],
) -> Result<OpenBranch, NoMemory>
    requires right { IsWordRight builder.old (plain_core core.now) around.now (plain_ops test.now) Bit }
    requires numbers { number + length test.now < 2 ^ 32 }
    ensures reserves { IfOk result (λ begun. Reserves builder.old builder.new (begun.test.child.start ∷ begun.yes ∷ begun.no ∷ answers_of begun.test.acted.ops.items)) }
    ensures start { IfOk result (λ begun. Awaits builder.new begun.test.child.start 1) }
    ensures yes { IfOk result (λ begun. Awaits builder.new begun.yes 1) }
    ensures no { IfOk result (λ begun. Awaits builder.new begun.no 1) }
    ensures yes_net { IfOk result (λ begun. HasNet builder.new begun.yes 1) }
    ensures no_net { IfOk result (λ begun. HasNet builder.new begun.no 1) }
    ensures done { IfOk result (λ begun. HasNet builder.new begun.test.child.done 1) }
    ensures word { IfOk result (λ begun. HasNet builder.new begun.test.word 1) }
    ensures list { IfOk result (λ begun. IsListStanding builder.new (plain_core core.now) (numbered number (plain_ops test.now)) begun.test.acted) }
    ensures turns { IfOk result (λ begun. IsInTurns builder.old builder.new (plain_core core.now) around.now number (plain_ops test.now) begun.test.child begun.test.word begun.test.acted) }
{
    let start = reserve(builder, 1)?;
    let yes = reserve(builder, 1)?;
    let no = reserve(builder, 1)?;
    let test = emit_turns(alloc, builder, core, test, Ty::Bit, number, around, start)?;
    Ok(OpenBranch { test, yes, no })
}

/// Drives the starts of a branch's test and of its sides.
pub(crate) fn end_branch(
    alloc: Global,
    builder: &mut Builder,
    start: NetId,
    test: Child,
    tested: NetId,
    yes: Child,
    no: Child,
) -> Result<Child, NoMemory>
    requires { BranchFits builder.old start test tested yes no }
    ensures fills { OnOk result (Fills builder.old builder.new (test.start ∷ yes.start ∷ no.start ∷ [])) }
    ensures start { IfOk result (λ child. child.start ≡ start) }
    ensures done { IfOk result (λ child. HasNet builder.new child.done 1) }
    ensures runs { IfOk result (λ child. (s : Signals) → RunsOn s builder.new.cells → RunsBranch s start test tested yes no child.done) }
{
    let part = Part::Branch {
        start,
        test,
        tested,
        yes,
        no,
    };
    let ends = emit(alloc, builder, part)?;
    Ok(Child {
        start,
        done: ends.done,
    })
}

/// The list of a branch's test, and behind it those of its sides.
pub(crate) fn branch_lists(
    alloc: Global,
    test: ActedList,
    one: Vec<ActedList>,
    other: Vec<ActedList>,
) -> Result<Vec<ActedList>, NoMemory>
    ensures { IfOk result (λ all. all.items ≡ test ∷ (one.items ++ other.items)) }
{
    let mut all = Vec::new(alloc);
    all.push(test)?;
    append(&mut all, one)?;
    append(&mut all, other)?;
    Ok(all)
}
