//! Load and store units.
ghost use Rattle.std.specs.Prelude.{◌≢◌, ℕ, MatchOption};
ghost use Rattle.sp_netlist.specs.Cells.{plain_cell, load_unit, store_unit};
ghost use Rattle.sp_listing.specs.declared.kind.Kind.TheVariants.{Load, Store};
ghost use Rattle.sp_listing.specs.Reading.{IsFormed};
ghost use Rattle.sp_listing.specs.Readers.{texts, parts_of, IsOf};

use crate::parts::{dram_of, net_of, number_of};
use sp_netlist::Cell;

pub fn load(parts: &[&str]) -> Option<Cell>
    ensures { MatchOption result ((channel dram ready net request last addr : ℕ) → IsFormed (load_unit channel dram ready net request last addr) → texts parts.now ≢ parts_of (load_unit channel dram ready net request last addr)) (λ cell. IsOf Load (texts parts.now) (plain_cell cell)) }
{
    let [channel, dram, ready, net, request, last, addr] = parts else {
        return None;
    };
    let channel = number_of(channel)?;
    let dram = dram_of(dram)?;
    let ready = net_of(ready)?;
    let net = net_of(net)?;
    let request = net_of(request)?;
    let last = net_of(last)?;
    let addr = net_of(addr)?;
    Some(Cell::LoadUnit(channel, dram, ready, net, request, last, addr))
}

pub fn store(parts: &[&str]) -> Option<Cell>
    ensures { MatchOption result ((channel dram ready request last addr word : ℕ) → IsFormed (store_unit channel dram ready request last addr word) → texts parts.now ≢ parts_of (store_unit channel dram ready request last addr word)) (λ cell. IsOf Store (texts parts.now) (plain_cell cell)) }
{
    let [channel, dram, ready, request, last, addr, word] = parts else {
        return None;
    };
    let channel = number_of(channel)?;
    let dram = dram_of(dram)?;
    let ready = net_of(ready)?;
    let request = net_of(request)?;
    let last = net_of(last)?;
    let addr = net_of(addr)?;
    let word = net_of(word)?;
    Some(Cell::StoreUnit(channel, dram, ready, request, last, addr, word))
}
