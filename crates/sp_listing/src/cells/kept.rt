//! Constants, registers and banks, and the net that tells the end.
ghost use Rattle.std.specs.Prelude.{◌≢◌, ℕ, MatchOption};
ghost use Rattle.sp_netlist.specs.Cells.{plain_cell, done_cell, const_cell, reg_cell, bank_cell, read_tap, write_tap};
ghost use Rattle.sp_listing.specs.declared.kind.Kind.TheVariants.{Done, Const, Reg, Bank, Read, Write};
ghost use Rattle.sp_listing.specs.Reading.{IsFormed};
ghost use Rattle.sp_listing.specs.Readers.{texts, parts_of, IsOf};

use crate::parts::{length_of, net_of, number_of, width_of, word_of};
use sp_netlist::Cell;

pub fn done(parts: &[&str]) -> Option<Cell>
    ensures { MatchOption result ((net : ℕ) → IsFormed (done_cell net) → texts parts.now ≢ parts_of (done_cell net)) (λ cell. IsOf Done (texts parts.now) (plain_cell cell)) }
{
    let [net] = parts else {
        return None;
    };
    let net = net_of(net)?;
    Some(Cell::Done(net))
}

pub fn constant(parts: &[&str]) -> Option<Cell>
    ensures { MatchOption result ((net width word : ℕ) → IsFormed (const_cell net width word) → texts parts.now ≢ parts_of (const_cell net width word)) (λ cell. IsOf Const (texts parts.now) (plain_cell cell)) }
{
    let [net, width, word] = parts else {
        return None;
    };
    let net = net_of(net)?;
    let width = width_of(width)?;
    let word = word_of(word, width)?;
    Some(Cell::Const(net, width, word))
}

pub fn register(parts: &[&str]) -> Option<Cell>
    ensures { MatchOption result ((net width first next enable : ℕ) → IsFormed (reg_cell net width first next enable) → texts parts.now ≢ parts_of (reg_cell net width first next enable)) (λ cell. IsOf Reg (texts parts.now) (plain_cell cell)) }
{
    let [net, width, first, next, enable] = parts else {
        return None;
    };
    let net = net_of(net)?;
    let width = width_of(width)?;
    let first = word_of(first, width)?;
    let next = net_of(next)?;
    let enable = net_of(enable)?;
    Some(Cell::Hold(net, width, first, next, enable))
}

pub fn bank(parts: &[&str]) -> Option<Cell>
    ensures { MatchOption result ((bank width len : ℕ) → IsFormed (bank_cell bank width len) → texts parts.now ≢ parts_of (bank_cell bank width len)) (λ cell. IsOf Bank (texts parts.now) (plain_cell cell)) }
{
    let [bank, width, len] = parts else {
        return None;
    };
    let bank = number_of(bank)?;
    let width = width_of(width)?;
    let len = length_of(len)?;
    Some(Cell::Bank(bank, width, len))
}

pub fn read_tap(parts: &[&str]) -> Option<Cell>
    ensures { MatchOption result ((net bank enable addr : ℕ) → IsFormed (read_tap net bank enable addr) → texts parts.now ≢ parts_of (read_tap net bank enable addr)) (λ cell. IsOf Read (texts parts.now) (plain_cell cell)) }
{
    let [net, bank, enable, addr] = parts else {
        return None;
    };
    let net = net_of(net)?;
    let bank = number_of(bank)?;
    let enable = net_of(enable)?;
    let addr = net_of(addr)?;
    Some(Cell::ReadTap(net, bank, enable, addr))
}

pub fn write_tap(parts: &[&str]) -> Option<Cell>
    ensures { MatchOption result ((bank enable addr word : ℕ) → IsFormed (write_tap bank enable addr word) → texts parts.now ≢ parts_of (write_tap bank enable addr word)) (λ cell. IsOf Write (texts parts.now) (plain_cell cell)) }
{
    let [bank, enable, addr, word] = parts else {
        return None;
    };
    let bank = number_of(bank)?;
    let enable = net_of(enable)?;
    let addr = net_of(addr)?;
    let word = net_of(word)?;
    Some(Cell::WriteTap(bank, enable, addr, word))
}
