//! What requests ask of one bank of one copy.
ghost use Rattle.std.specs.Prelude.{◌≡◌, [], ◌==◌, filter, All, IfOk, OnOk};
ghost use Rattle.sp_netlist.specs.Rules.{IsWidth};
ghost use Rattle.sp_gates.specs.Grows.{Fills};
ghost use Rattle.sp_gates.specs.Nets.{HasNet};
ghost use Rattle.sp_access.specs.Asking.{AccessFits};
ghost use Rattle.sp_bank_ports.specs.Ports.{WriteFits};
ghost use Rattle.sp_requests.specs.Requests.{RequestFits};
ghost use Rattle.sp_stores.specs.Lines.{of_duplicate, IsWriteLine, IsReadLine};

use sp_access::Access;
use sp_bank_ports::{WritePort, read_port, write_port};
use sp_netlist::{Builder, NoMemory};
use sp_requests::{Request, accesses_to, words_asked};
use std::alloc::Global;

/// The port to write of a bank: the last request that is enabled for it counts.
pub(crate) fn write_line(
    alloc: Global,
    builder: &mut Builder,
    width: u8,
    requests: &[Request],
    copy: u32,
    bank: u32,
) -> Result<WritePort, NoMemory>
    requires width { IsWidth width }
    requires requests { All (RequestFits builder.old) requests.now }
    requires words { All (λ r. HasNet builder.old r.word width) requests.now }
    ensures fills { OnOk result (Fills builder.old builder.new []) }
    ensures fits { IfOk result (WriteFits builder.new width) }
    ensures line { IfOk result (IsWriteLine builder.new copy bank requests.now) }
{
    let accesses = accesses_to(alloc, builder, requests, copy, bank)?;
    let words = words_asked(alloc, requests)?;
    let port = write_port(builder, width, &accesses, &words)?;
    Ok(port)
}

/// The requests of one duplicate.
fn requests_of(
    alloc: Global,
    requests: &[Request],
    duplicate: u32,
) -> Result<Vec<Request>, NoMemory>
    ensures { IfOk result (λ list. list.items ≡ of_duplicate duplicate requests.now) }
{
    requests
        .iter()
        .filter(|r| r.duplicate == duplicate)
        .copied()
        .collect(alloc)
}

/// The port to read of a bank, for the requests of its duplicate.
pub(crate) fn read_line(
    alloc: Global,
    builder: &mut Builder,
    requests: &[Request],
    duplicate: u32,
    copy: u32,
    bank: u32,
) -> Result<Access, NoMemory>
    requires { All (RequestFits builder.old) requests.now }
    ensures fills { OnOk result (Fills builder.old builder.new []) }
    ensures fits { IfOk result (AccessFits builder.new) }
    ensures line { IfOk result (IsReadLine builder.new copy bank (of_duplicate duplicate requests.now)) }
{
    let list = requests_of(alloc, requests, duplicate)?;
    let accesses = accesses_to(alloc, builder, &list, copy, bank)?;
    let port = read_port(builder, &accesses)?;
    Ok(port)
}
