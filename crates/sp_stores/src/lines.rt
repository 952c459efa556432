//! The ports to write of the banks of all copies. The duplicates of a memory share them.
ghost use Rattle.std.specs.Prelude.{◌≡◌, ◌*◌, ◌^◌, ◌<◌, [], length, All, IfOk, OnOk};
ghost use Rattle.sp_netlist.specs.Rules.{IsWidth};
ghost use Rattle.sp_gates.specs.Grows.{Fills};
ghost use Rattle.sp_gates.specs.Nets.{HasNet};
ghost use Rattle.sp_bank_ports.specs.Ports.{WriteFits};
ghost use Rattle.sp_requests.specs.Requests.{RequestFits};
ghost use Rattle.sp_stores.specs.Lines.{AreWriteLines};

use crate::line::write_line;
use sp_bank_ports::WritePort;
use sp_netlist::{Builder, NoMemory};
use sp_requests::Request;
use std::alloc::Global;

/// The ports to write of so many banks of each copy, the banks of a copy after those of the one before.
pub fn write_lines(
    alloc: Global,
    builder: &mut Builder,
    width: u8,
    requests: &[Request],
    copies: u32,
    banks: u32,
) -> Result<Vec<WritePort>, NoMemory>
    requires width { IsWidth width }
    requires requests { All (RequestFits builder.old) requests.now }
    requires words { All (λ r. HasNet builder.old r.word width) requests.now }
    requires some { 0 < banks }
    requires few { copies * banks < 2 ^ 32 }
    ensures fills { OnOk result (Fills builder.old builder.new []) }
    ensures each { IfOk result (λ ports. length ports.items ≡ copies * banks) }
    ensures fit { IfOk result (λ ports. All (WriteFits builder.new width) ports.items) }
    ensures lines { IfOk result (λ ports. AreWriteLines builder.new banks requests.now ports.items) }
{
    let mut ports = Vec::new(alloc);
    for i in 0..copies * banks {
        let port = write_line(alloc, builder, width, requests, i / banks, i % banks)?;
        ports.push(port)?;
    }
    Ok(ports)
}
