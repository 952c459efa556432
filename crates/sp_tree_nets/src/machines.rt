//! The circuit of an FSM around the circuit of its body.
ghost use Rattle.std.specs.Prelude.{◌≡◌, ◌+◌, ◌<◌, ◌^◌, ◌∷◌, ◌++◌, [], length, IfOk, OnOk};
ghost use Rattle.sp_words.specs.declared.types.Ty.TheVariants.{Bit};
ghost use Rattle.sp_words.specs.Types.{width_of};
ghost use Rattle.sp_netlist.specs.Signals.{Signals};
ghost use Rattle.sp_gates.specs.Grows.{Fills};
ghost use Rattle.sp_gates.specs.Nets.{Awaits, HasNet};
ghost use Rattle.sp_gates.specs.Runs.{RunsOn};
ghost use Rattle.sp_core.specs.CoreParts.{plain_core};
ghost use Rattle.sp_core.specs.Declarations.{mem};
ghost use Rattle.sp_core.specs.Plain.{plain_ops};
ghost use Rattle.sp_ctrl.specs.Fits.{FsmFits};
ghost use Rattle.sp_ctrl.specs.Runs.{RunsFsm};
ghost use Rattle.sp_op_nets.specs.Acted.{answers_of};
ghost use Rattle.sp_op_nets.specs.Reserved.{Reserves};
ghost use Rattle.sp_list_circuits.specs.Turns.{IsInTurns, IsWordRight};
ghost use Rattle.sp_tree_handed.specs.Lists.{numbered};
ghost use Rattle.sp_tree_handed.specs.Standing.{IsListStanding};

use crate::tree::append;
use sp_core::{Core, Op};
use sp_ctrl::{Part, emit};
use sp_gates::reserve;
use sp_list_circuits::{Turns, emit_turns};
use sp_netlist::{Builder, Child, NetId, NoMemory};
use sp_op_nets::{ActedList, AroundNets};
use sp_words::Ty;
use std::alloc::Global;

/// The type of the words of a memory.
pub(crate) fn mem_ty(core: &Core, m: u32) -> Ty
    ensures { result ≡ (mem (plain_core core.now) m).ty }
{
    match core.mems().get(m as usize) {
        Some(mem) => mem.ty,
        None => Ty::Bit,
    }
}

/// An FSM whose body is to be emitted: its first state and its test, and the starts of its body and of its next state, which are to be
/// driven behind them.
#[derive(Debug, Drop)]
pub(crate) struct OpenMachine {
    pub(crate) first: Turns,
    pub(crate) test: Turns,
    pub(crate) body: NetId,
    pub(crate) next: NetId,
}

/// Reserves the starts of an FSM's parts, and emits its first state, whose words have this type, and its test.
pub(crate) fn begin_machine(
    alloc: Global,
    builder: &mut Builder,
    core: &Core,
    first: &[Op],
    ty: Ty,
    test: &[Op],
    number: u32,
    around: &[AroundNets],
) -> Result<OpenMachine, NoMemory>
    requires first_right { IsWordRight builder.old (plain_core core.now) around.now (plain_ops first.now) ty }
    requires test_right { IsWordRight builder.old (plain_core core.now) around.now (plain_ops test.now) Bit }
    requires numbers { number + (length first.now + length test.now) < 2 ^ 32 }
    ensures reserves { IfOk result (λ begun. Reserves builder.old builder.new (begun.first.child.start ∷ begun.test.child.start ∷ begun.body ∷ begun.next ∷ (answers_of begun.first.acted.ops.items ++ answers_of begun.test.acted.ops.items))) }
    ensures first_start { IfOk result (λ begun. Awaits builder.new begun.first.child.start 1) }
    ensures test_start { IfOk result (λ begun. Awaits builder.new begun.test.child.start 1) }
    ensures body { IfOk result (λ begun. Awaits builder.new begun.body 1) }
    ensures next { IfOk result (λ begun. Awaits builder.new begun.next 1) }
    ensures body_net { IfOk result (λ begun. HasNet builder.new begun.body 1) }
    ensures next_net { IfOk result (λ begun. HasNet builder.new begun.next 1) }
    ensures first_done { IfOk result (λ begun. HasNet builder.new begun.first.child.done 1) }
    ensures test_done { IfOk result (λ begun. HasNet builder.new begun.test.child.done 1) }
    ensures word { IfOk result (λ begun. HasNet builder.new begun.test.word 1) }
    ensures begun_word { IfOk result (λ begun. HasNet builder.new begun.first.word (width_of ty)) }
    ensures first_list { IfOk result (λ begun. IsListStanding builder.new (plain_core core.now) (numbered number (plain_ops first.now)) begun.first.acted) }
    ensures test_list { IfOk result (λ begun. IsListStanding builder.new (plain_core core.now) (numbered (number + length first.now) (plain_ops test.now)) begun.test.acted) }
    ensures begins { IfOk result (λ begun. IsInTurns builder.old builder.new (plain_core core.now) around.now number (plain_ops first.now) begun.first.child begun.first.word begun.first.acted) }
    ensures tests { IfOk result (λ begun. IsInTurns builder.old builder.new (plain_core core.now) around.now (number + length first.now) (plain_ops test.now) begun.test.child begun.test.word begun.test.acted) }
{
    let first_start = reserve(builder, 1)?;
    let test_start = reserve(builder, 1)?;
    let body = reserve(builder, 1)?;
    let next = reserve(builder, 1)?;
    let middle = number + first.len() as u32;
    let first = emit_turns(alloc, builder, core, first, ty, number, around, first_start)?;
    let test = emit_turns(
        alloc,
        builder,
        core,
        test,
        Ty::Bit,
        middle,
        around,
        test_start,
    )?;
    Ok(OpenMachine {
        first,
        test,
        body,
        next,
    })
}

/// Drives the starts of an FSM's parts.
pub(crate) fn end_machine(
    alloc: Global,
    builder: &mut Builder,
    start: NetId,
    first: Child,
    test: Child,
    tested: NetId,
    body: Child,
    next: Child,
) -> Result<Child, NoMemory>
    requires { FsmFits builder.old start first test tested body next }
    ensures fills { OnOk result (Fills builder.old builder.new (first.start ∷ test.start ∷ body.start ∷ next.start ∷ [])) }
    ensures start { IfOk result (λ child. child.start ≡ start) }
    ensures done { IfOk result (λ child. HasNet builder.new child.done 1) }
    ensures runs { IfOk result (λ child. (s : Signals) → RunsOn s builder.new.cells → RunsFsm s start first test tested body next child.done) }
{
    let part = Part::Fsm {
        start,
        first,
        test,
        tested,
        body,
        next,
    };
    let ends = emit(alloc, builder, part)?;
    Ok(Child {
        start,
        done: ends.done,
    })
}

/// The lists of an FSM's first state and its test, those of its body, and that of its next state.
pub(crate) fn machine_lists(
    alloc: Global,
    first: ActedList,
    test: ActedList,
    body: Vec<ActedList>,
    next: ActedList,
) -> Result<Vec<ActedList>, NoMemory>
    ensures { IfOk result (λ all. all.items ≡ first ∷ test ∷ (body.items ++ next ∷ [])) }
{
    let mut all = Vec::new(alloc);
    all.push(first)?;
    all.push(test)?;
    append(&mut all, body)?;
    all.push(next)?;
    Ok(all)
}
