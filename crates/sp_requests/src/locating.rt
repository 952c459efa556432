//! Accesses with their copies, banks and places.
ghost use Rattle.std.specs.Prelude.{◌≡◌, ℕ, [], All, IfOk, OnOk};
ghost use Rattle.std.specs.List.{AllZip};
ghost use Rattle.sp_netlist.specs.Signals.{Signals};
ghost use Rattle.sp_gates.specs.Grows.{Fills};
ghost use Rattle.sp_gates.specs.Nets.{HasNet};
ghost use Rattle.sp_gates.specs.Runs.{RunsOn};
ghost use Rattle.sp_mem.specs.Copies.{copy_at};
ghost use Rattle.sp_mem.specs.Fits.{CopyFits};
ghost use Rattle.sp_places.specs.Layouts.{IsLayout};
ghost use Rattle.sp_requests.specs.Requests.{TouchFits, IsRequest};

use crate::part::Request;
use sp_gates::constant;
use sp_mem::Touch;
use sp_netlist::{Builder, NetId, NoMemory};
use sp_places::{Layout, locate};
use std::alloc::Global;

/// A net with the number of a copy: 0 where none was given.
fn copy_number(builder: &mut Builder, copy: Option<NetId>) -> Result<NetId, NoMemory>
    requires { CopyFits builder.old copy }
    ensures fills { OnOk result (Fills builder.old builder.new []) }
    ensures net { IfOk result (λ net. HasNet builder.new net 32) }
    ensures word { IfOk result (λ net. (s : Signals) → RunsOn s builder.new.cells → (t : ℕ) → s.net t net ≡ copy_at s t copy) }
{
    match copy {
        None => {
            let net = constant(builder, 32, 0)?;
            Ok(net)
        }
        Some(net) => Ok(net),
    }
}

/// The request of one access.
fn request(
    alloc: Global,
    builder: &mut Builder,
    layout: &Layout,
    touch: &Touch,
) -> Result<Request, NoMemory>
    requires layout { IsLayout layout.now }
    requires touch { TouchFits builder.old layout.now touch.now }
    ensures fills { OnOk result (Fills builder.old builder.new []) }
    ensures request { IfOk result (IsRequest builder.new layout.now touch.now) }
{
    let copy = copy_number(builder, touch.copy)?;
    let spot = locate(alloc, builder, layout, &touch.index)?;
    Ok(Request {
        enable: touch.enable,
        copy,
        bank: spot.bank,
        place: spot.place,
        word: touch.word,
        duplicate: touch.duplicate,
    })
}

/// The requests of a list of accesses, in order.
pub fn requests(
    alloc: Global,
    builder: &mut Builder,
    layout: &Layout,
    touches: &[Touch],
) -> Result<Vec<Request>, NoMemory>
    requires layout { IsLayout layout.now }
    requires touches { All (TouchFits builder.old layout.now) touches.now }
    ensures fills { OnOk result (Fills builder.old builder.new []) }
    ensures requests { IfOk result (λ list. AllZip (IsRequest builder.new layout.now) touches.now list.items) }
{
    let mut list = Vec::new(alloc);
    for touch in touches {
        let next = request(alloc, builder, layout, touch)?;
        list.push(next)?;
    }
    Ok(list)
}
