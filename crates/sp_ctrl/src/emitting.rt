//! The circuits of control.
ghost use Rattle.std.specs.Prelude.{◌≡◌, ℕ, [], ◌∷◌, IfOk, OnOk};
ghost use Rattle.sp_gates.specs.Bits.{IsOne};
ghost use Rattle.sp_gates.specs.Grows.{Fills};
ghost use Rattle.sp_gates.specs.Nets.{HasNet};
ghost use Rattle.sp_gates.specs.Runs.{RunsOn};
ghost use Rattle.sp_gates.specs.Tested.{is_on};
ghost use Rattle.sp_netlist.specs.Signals.{Signals};
ghost use Rattle.sp_ctrl.specs.Fits.{BranchFits, FsmFits, PartFits, starts_of};
ghost use Rattle.sp_ctrl.specs.Runs.{RunsBranch, RunsFsm, Runs, start_of};

use crate::choices::{after, after_either, decided};
use crate::part::Part;
use sp_gates::{drive_after, on_either, one};
use sp_netlist::{Builder, Child, Ends, NetId, NoMemory};
use std::alloc::Global;

/// Runs a test, and then one of two children. `one` is always 1.
fn branch(
    builder: &mut Builder,
    start: NetId,
    test: Child,
    tested: NetId,
    yes: Child,
    no: Child,
    one: NetId,
) -> Result<NetId, NoMemory>
    requires fits { BranchFits builder.old start test tested yes no }
    requires one { IsOne builder.old one }
    ensures fills { OnOk result (Fills builder.old builder.new (test.start ∷ yes.start ∷ no.start ∷ [])) }
    ensures net { IfOk result (λ done. HasNet builder.new done 1) }
    ensures runs { IfOk result (λ done. (s : Signals) → RunsOn s builder.new.cells → RunsBranch s start test tested yes no done) }
{
    let decision = decided(builder, test.done, tested)?;
    let done = after_either(builder, yes.done, no.done, one)?;
    drive_after(builder, test.start, start, one)?;
    drive_after(builder, yes.start, decision.yes, one)?;
    drive_after(builder, no.start, decision.no, one)?;
    Ok(done)
}

/// Runs a child, then a test; as long as it gives 1 two further children and the test again. `one` is always 1.
fn fsm(
    builder: &mut Builder,
    start: NetId,
    first: Child,
    test: Child,
    tested: NetId,
    body: Child,
    next: Child,
    one: NetId,
) -> Result<NetId, NoMemory>
    requires fits { FsmFits builder.old start first test tested body next }
    requires one { IsOne builder.old one }
    ensures fills { OnOk result (Fills builder.old builder.new (first.start ∷ test.start ∷ body.start ∷ next.start ∷ [])) }
    ensures net { IfOk result (λ done. HasNet builder.new done 1) }
    ensures runs { IfOk result (λ done. (s : Signals) → RunsOn s builder.new.cells → RunsFsm s start first test tested body next done) }
{
    let decision = decided(builder, test.done, tested)?;
    let again = on_either(builder, first.done, next.done)?;
    let done = after(builder, decision.no, one)?;
    drive_after(builder, first.start, start, one)?;
    drive_after(builder, test.start, again, one)?;
    drive_after(builder, body.start, decision.yes, one)?;
    drive_after(builder, next.start, body.done, one)?;
    Ok(done)
}

/// Emits a part of control. Its done comes a cycle after that of the child that is run last; it has no other nets.
pub fn emit(alloc: Global, builder: &mut Builder, part: Part) -> Result<Ends, NoMemory>
    requires { PartFits builder.old part }
    ensures fills { OnOk result (Fills builder.old builder.new (starts_of part)) }
    ensures start { IfOk result (λ ends. ends.start ≡ start_of part) }
    ensures done { IfOk result (λ ends. HasNet builder.new ends.done 1) }
    ensures nets { IfOk result (λ ends. ends.nets.items ≡ []) }
    ensures runs { IfOk result (λ ends. (s : Signals) → RunsOn s builder.new.cells → Runs part s ends.done) }
{
    let one = one(builder)?;
    match part {
        Part::Branch {
            start,
            test,
            tested,
            yes,
            no,
        } => {
            let done = branch(builder, start, test, tested, yes, no, one)?;
            Ok(Ends {
                start,
                done,
                nets: Vec::new(alloc),
            })
        }
        Part::Fsm {
            start,
            first,
            test,
            tested,
            body,
            next,
        } => {
            let done = fsm(builder, start, first, test, tested, body, next, one)?;
            Ok(Ends {
                start,
                done,
                nets: Vec::new(alloc),
            })
        }
    }
}
