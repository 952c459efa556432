//! What requests ask of one bank of one copy.
ghost use Rattle.std.specs.Prelude.{◌≡◌, ℕ, [], length, map, All, IfOk, OnOk};
ghost use Rattle.std.specs.List.{AllZip};
ghost use Rattle.sp_netlist.specs.Signals.{Signals};
ghost use Rattle.sp_gates.specs.Grows.{Fills};
ghost use Rattle.sp_gates.specs.Nets.{HasNet};
ghost use Rattle.sp_gates.specs.Runs.{RunsOn};
ghost use Rattle.sp_gates.specs.Tested.{is_on};
ghost use Rattle.sp_access.specs.Asking.{AccessFits};
ghost use Rattle.sp_requests.specs.Requests.{RequestFits, is_for, Asks};

use crate::part::Request;
use sp_access::Access;
use sp_gates::{equals, on_both};
use sp_netlist::{Builder, NetId, NoMemory};
use sp_words::Ty;
use std::alloc::Global;

/// A net that is 1 where a request is for this bank of this copy.
fn wanted(builder: &mut Builder, request: &Request, copy: u32, bank: u32) -> Result<NetId, NoMemory>
    requires { RequestFits builder.old request.now }
    ensures fills { OnOk result (Fills builder.old builder.new []) }
    ensures net { IfOk result (λ net. HasNet builder.new net 1) }
    ensures on { IfOk result (λ net. (s : Signals) → RunsOn s builder.new.cells → (t : ℕ) → is_on s net t ≡ is_for s t copy bank request.now) }
{
    let same_copy = equals(builder, Ty::int(), request.copy, u64::from(copy))?;
    let same_bank = equals(builder, Ty::int(), request.bank, u64::from(bank))?;
    let here = on_both(builder, same_copy, same_bank)?;
    let net = on_both(builder, request.enable, here)?;
    Ok(net)
}

/// The accesses to this bank of this copy, one for each request.
pub fn accesses_to(
    alloc: Global,
    builder: &mut Builder,
    requests: &[Request],
    copy: u32,
    bank: u32,
) -> Result<Vec<Access>, NoMemory>
    requires { All (RequestFits builder.old) requests.now }
    ensures fills { OnOk result (Fills builder.old builder.new []) }
    ensures each { IfOk result (λ list. length list.items ≡ length requests.now) }
    ensures fit { IfOk result (λ list. All (AccessFits builder.new) list.items) }
    ensures accesses { IfOk result (λ list. (s : Signals) → RunsOn s builder.new.cells → (t : ℕ) → AllZip (Asks s t copy bank) requests.now list.items) }
{
    let mut list = Vec::new(alloc);
    for r in requests {
        let on = wanted(builder, r, copy, bank)?;
        list.push(Access { on, place: r.place })?;
    }
    Ok(list)
}

/// The nets of the words of requests.
pub fn words_asked(alloc: Global, requests: &[Request]) -> Result<Vec<NetId>, NoMemory>
    ensures { IfOk result (λ list. list.items ≡ map (λ r. r.word) requests.now) }
{
    requests.iter().map(|r| r.word).collect(alloc)
}
