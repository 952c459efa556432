//! The listing of a netlist.
ghost use Rattle.std.specs.Prelude.{◌≡◌, ◌++◌, ◌∷◌, [], map, decimal, OnOk, IfOk, string_bytes};
ghost use Rattle.sp_netlist.specs.Cells.{plain_cell, plain_cells, op_cell, not_cell, shift_cell, cast_cell, dram_cell};
ghost use Rattle.sp_listing.specs.Text.{cell_line, listing_text, joined, type_text};

use crate::NoMemory;
use crate::words::{Dimensions, Numbers, OpWord, ShiftWord, TypeCode};
use sp_netlist::{Cell, CellOp, CellShift, NetId, Netlist};
use sp_words::Ty;
use std::alloc::Global;
use std::fmt::Write;

// Appends the line of a cell that has only numbers.
fn push_numbers(text: &mut String, kind: &str, numbers: &[u64]) -> Result<(), NoMemory>
    ensures { OnOk result (string_bytes text.new ≡ string_bytes text.old ++ (joined (kind.now ∷ map decimal numbers.now) ++ 10 ∷ [])) }
{
    writeln!(text, "{kind}{}", Numbers(numbers))
}

// Appends the line of a port.
fn push_port(text: &mut String, kind: &str, name: &str, net: NetId, ty: Ty) -> Result<(), NoMemory>
    ensures { OnOk result (string_bytes text.new ≡ string_bytes text.old ++ (joined (kind.now ∷ name.now ∷ decimal net ∷ type_text ty ∷ []) ++ 10 ∷ [])) }
{
    writeln!(text, "{kind} {name} {net} {}", TypeCode(ty))
}

fn push_op(
    text: &mut String,
    net: NetId,
    ty: Ty,
    op: CellOp,
    a: NetId,
    b: NetId,
) -> Result<(), NoMemory>
    ensures { OnOk result (string_bytes text.new ≡ string_bytes text.old ++ cell_line (op_cell net ty op a b)) }
{
    writeln!(text, "op {net} {} {} {a} {b}", TypeCode(ty), OpWord(op))
}

fn push_not(text: &mut String, net: NetId, ty: Ty, a: NetId) -> Result<(), NoMemory>
    ensures { OnOk result (string_bytes text.new ≡ string_bytes text.old ++ cell_line (not_cell net ty a)) }
{
    writeln!(text, "not {net} {} {a}", TypeCode(ty))
}

fn push_shift(
    text: &mut String,
    net: NetId,
    ty: Ty,
    side: CellShift,
    a: NetId,
    places: u8,
) -> Result<(), NoMemory>
    ensures { OnOk result (string_bytes text.new ≡ string_bytes text.old ++ cell_line (shift_cell net ty side a places)) }
{
    writeln!(
        text,
        "shift {net} {} {} {a} {places}",
        TypeCode(ty),
        ShiftWord(side)
    )
}

fn push_cast(text: &mut String, net: NetId, from: Ty, to: Ty, a: NetId) -> Result<(), NoMemory>
    ensures { OnOk result (string_bytes text.new ≡ string_bytes text.old ++ cell_line (cast_cell net from to a)) }
{
    writeln!(text, "cast {net} {} {} {a}", TypeCode(from), TypeCode(to))
}

fn push_dram(text: &mut String, dram: u32, name: &str, ty: Ty, dims: &[u32]) -> Result<(), NoMemory>
    ensures { OnOk result (string_bytes text.new ≡ string_bytes text.old ++ cell_line (dram_cell dram name.now ty dims.now)) }
{
    writeln!(
        text,
        "dram {dram} {name} {}{}",
        TypeCode(ty),
        Dimensions(dims)
    )
}

// Appends the line of a cell.
fn push_line(text: &mut String, cell: &Cell) -> Result<(), NoMemory>
    ensures { OnOk result (string_bytes text.new ≡ string_bytes text.old ++ cell_line (plain_cell cell.now)) }
{
    match cell {
        Cell::In(name, net, ty) => push_port(text, "in", name, *net, *ty),
        Cell::Out(name, net, ty) => push_port(text, "out", name, *net, *ty),
        Cell::Done(net) => push_numbers(text, "done", &[net.number()]),
        Cell::Const(net, width, word) => {
            push_numbers(text, "const", &[net.number(), u64::from(*width), *word])
        }
        Cell::Op(net, ty, op, a, b) => push_op(text, *net, *ty, *op, *a, *b),
        Cell::Not(net, ty, a) => push_not(text, *net, *ty, *a),
        Cell::Shift(net, ty, side, a, places) => push_shift(text, *net, *ty, *side, *a, *places),
        Cell::Cast(net, from, to, a) => push_cast(text, *net, *from, *to, *a),
        Cell::Mux(net, width, choice, a, b) => push_numbers(
            text,
            "mux",
            &[
                net.number(),
                u64::from(*width),
                choice.number(),
                a.number(),
                b.number(),
            ],
        ),
        Cell::Hold(net, width, first, next, enable) => push_numbers(
            text,
            "reg",
            &[
                net.number(),
                u64::from(*width),
                *first,
                next.number(),
                enable.number(),
            ],
        ),
        Cell::Bank(bank, width, len) => {
            push_numbers(text, "bank", &[*bank, u64::from(*width), u64::from(*len)])
        }
        Cell::ReadTap(net, bank, enable, addr) => push_numbers(
            text,
            "read",
            &[net.number(), *bank, enable.number(), addr.number()],
        ),
        Cell::WriteTap(bank, enable, addr, word) => push_numbers(
            text,
            "write",
            &[*bank, enable.number(), addr.number(), word.number()],
        ),
        Cell::Dram(dram, name, ty, dims) => push_dram(text, *dram, name, *ty, dims),
        Cell::LoadUnit(channel, dram, ready, net, request, last, addr) => push_numbers(
            text,
            "load",
            &[
                *channel,
                u64::from(*dram),
                ready.number(),
                net.number(),
                request.number(),
                last.number(),
                addr.number(),
            ],
        ),
        Cell::StoreUnit(channel, dram, ready, request, last, addr, word) => push_numbers(
            text,
            "store",
            &[
                *channel,
                u64::from(*dram),
                ready.number(),
                request.number(),
                last.number(),
                addr.number(),
                word.number(),
            ],
        ),
    }
}

/// The listing of these cells.
pub fn listing_of(alloc: Global, cells: &[Cell]) -> Result<String, NoMemory>
    ensures { IfOk result (λ text. string_bytes text ≡ listing_text (plain_cells cells.now)) }
{
    let mut text = String::from_str(alloc, "netlist 1\n")?;
    for cell in cells {
        push_line(&mut text, cell)?;
    }
    Ok(text)
}

/// The listing of a netlist: a first line that names the format, then one line a cell, in the netlist's
/// order. `docs/listing.md` has the lines.
pub fn write(alloc: Global, netlist: &Netlist) -> Result<String, NoMemory>
    ensures { IfOk result (λ text. string_bytes text ≡ listing_text netlist.now) }
{
    listing_of(alloc, netlist.cells())
}
