//! A body with its operations.
ghost use Rattle.sp_gates.specs.Grows.{Fills};
ghost use Rattle.std.specs.Prelude.{IfOk, OnOk};
ghost use Rattle.sp_pipe.specs.Emitted.{PartFits, driven_of};
ghost use Rattle.sp_inner_circuits.specs.Bodies.{IsBody};

use sp_netlist::{Builder, Child, NoMemory};
use sp_op_nets::ActedList;
use sp_pipe::{Part, emit};
use std::alloc::Global;

/// A body's start and end, and its operations.
#[derive(Debug, Drop)]
pub(crate) struct Body {
    pub(crate) child: Child,
    pub(crate) acted: ActedList,
}

/// Emits a body, and hands its operations on. `number` is that of the first one.
pub(crate) fn emit_body(
    alloc: Global,
    builder: &mut Builder,
    part: Part,
    number: u32,
) -> Result<Body, NoMemory>
    requires { PartFits builder.old part }
    ensures fills { OnOk result (Fills builder.old builder.new (driven_of part.groups)) }
    ensures body { IfOk result (λ body. IsBody builder.new part number body.child body.acted) }
{
    let ends = emit(alloc, builder, &part)?;
    let child = Child {
        start: ends.start,
        done: ends.done,
    };
    let acted = ActedList {
        number,
        ops: part.ops,
        nets: ends.nets,
    };
    Ok(Body { child, acted })
}
