//! A whole register.
ghost use Rattle.std.specs.Prelude.{◌≡◌, ℕ, [], length, All, IfOk, OnOk};
ghost use Rattle.sp_words.specs.Types.{width_of};
ghost use Rattle.sp_netlist.specs.Signals.{Signals};
ghost use Rattle.sp_gates.specs.Grows.{Fills};
ghost use Rattle.sp_gates.specs.Nets.{HasNet};
ghost use Rattle.sp_gates.specs.Runs.{RunsOn};
ghost use Rattle.sp_mem.specs.Fits.{RegisterFits, words_of};
ghost use Rattle.sp_mem.specs.Runs.{RunsRegister};

use crate::copies::emit_copies;
use crate::part::Register;
use crate::readers::emit_readers;
use sp_gates::one;
use sp_netlist::{Builder, Ends, NoMemory};
use std::alloc::Global;

/// Emits a register. The nets of its ends are the registers of its copies; a reader's word comes in the cycle after.
pub fn emit_register(
    alloc: Global,
    builder: &mut Builder,
    part: &Register,
) -> Result<Ends, NoMemory>
    requires { RegisterFits builder.old part.now }
    ensures fills { OnOk result (Fills builder.old builder.new (words_of part.now.reads.items)) }
    ensures start { IfOk result (λ ends. ends.start ≡ part.now.start) }
    ensures done { IfOk result (λ ends. ends.done ≡ part.now.start) }
    ensures each { IfOk result (λ ends. length ends.nets.items ≡ part.now.copies) }
    ensures nets { IfOk result (λ ends. All (λ net. HasNet builder.new net (width_of part.now.ty)) ends.nets.items) }
    ensures runs { IfOk result (λ ends. (s : Signals) → RunsOn s builder.new.cells → RunsRegister s part.now ends.nets.items) }
{
    let one = one(builder)?;
    let nets = emit_copies(alloc, builder, part, one)?;
    emit_readers(
        builder,
        part.ty.width(),
        &part.reads,
        &nets,
        part.copies,
        one,
    )?;
    Ok(Ends {
        start: part.start,
        done: part.start,
        nets,
    })
}
