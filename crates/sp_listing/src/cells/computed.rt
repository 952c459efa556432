//! Cells that compute their net in each cycle.
ghost use Rattle.std.specs.Prelude.{◌≢◌, ℕ, MatchOption};
ghost use Rattle.sp_words.specs.declared.types.Ty.{Ty};
ghost use Rattle.sp_netlist.specs.declared.cell.CellOp.{CellOp};
ghost use Rattle.sp_netlist.specs.declared.cell.CellShift.{CellShift};
ghost use Rattle.sp_netlist.specs.Cells.{plain_cell, op_cell, not_cell, shift_cell, cast_cell, mux_cell};
ghost use Rattle.sp_listing.specs.declared.kind.Kind.TheVariants.{Op, Not, Shift, Cast, Mux};
ghost use Rattle.sp_listing.specs.Reading.{IsFormed};
ghost use Rattle.sp_listing.specs.Readers.{texts, parts_of, IsOf};

use crate::parts::{net_of, operator_of, places_of, side_of, type_of, width_of};
use sp_netlist::Cell;

pub fn operator(parts: &[&str]) -> Option<Cell>
    ensures { MatchOption result ((net : ℕ) (ty : Ty) (op : CellOp) (a b : ℕ) → IsFormed (op_cell net ty op a b) → texts parts.now ≢ parts_of (op_cell net ty op a b)) (λ cell. IsOf Op (texts parts.now) (plain_cell cell)) }
{
    let [net, ty, op, a, b] = parts else {
        return None;
    };
    let net = net_of(net)?;
    let ty = type_of(ty)?;
    let op = operator_of(op)?;
    let a = net_of(a)?;
    let b = net_of(b)?;
    Some(Cell::Op(net, ty, op, a, b))
}

pub fn not(parts: &[&str]) -> Option<Cell>
    ensures { MatchOption result ((net : ℕ) (ty : Ty) (a : ℕ) → IsFormed (not_cell net ty a) → texts parts.now ≢ parts_of (not_cell net ty a)) (λ cell. IsOf Not (texts parts.now) (plain_cell cell)) }
{
    let [net, ty, a] = parts else {
        return None;
    };
    let net = net_of(net)?;
    let ty = type_of(ty)?;
    let a = net_of(a)?;
    Some(Cell::Not(net, ty, a))
}

pub fn shift(parts: &[&str]) -> Option<Cell>
    ensures { MatchOption result ((net : ℕ) (ty : Ty) (side : CellShift) (a places : ℕ) → IsFormed (shift_cell net ty side a places) → texts parts.now ≢ parts_of (shift_cell net ty side a places)) (λ cell. IsOf Shift (texts parts.now) (plain_cell cell)) }
{
    let [net, ty, side, a, places] = parts else {
        return None;
    };
    let net = net_of(net)?;
    let ty = type_of(ty)?;
    let side = side_of(side)?;
    let a = net_of(a)?;
    let places = places_of(places)?;
    Some(Cell::Shift(net, ty, side, a, places))
}

pub fn cast(parts: &[&str]) -> Option<Cell>
    ensures { MatchOption result ((net : ℕ) (from to : Ty) (a : ℕ) → IsFormed (cast_cell net from to a) → texts parts.now ≢ parts_of (cast_cell net from to a)) (λ cell. IsOf Cast (texts parts.now) (plain_cell cell)) }
{
    let [net, from, to, a] = parts else {
        return None;
    };
    let net = net_of(net)?;
    let from = type_of(from)?;
    let to = type_of(to)?;
    let a = net_of(a)?;
    Some(Cell::Cast(net, from, to, a))
}

pub fn mux(parts: &[&str]) -> Option<Cell>
    ensures { MatchOption result ((net width choice a b : ℕ) → IsFormed (mux_cell net width choice a b) → texts parts.now ≢ parts_of (mux_cell net width choice a b)) (λ cell. IsOf Mux (texts parts.now) (plain_cell cell)) }
{
    let [net, width, choice, a, b] = parts else {
        return None;
    };
    let net = net_of(net)?;
    let width = width_of(width)?;
    let choice = net_of(choice)?;
    let a = net_of(a)?;
    let b = net_of(b)?;
    Some(Cell::Mux(net, width, choice, a, b))
}
