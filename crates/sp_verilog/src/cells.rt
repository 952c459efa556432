//! The ports and the lines of each cell.

ghost use Rattle.std.specs.Prelude.{◌≡◌, ◌++◌, ◌∷◌, [], codes, flat_map, OnOk, string_bytes};
ghost use Rattle.sp_netlist.specs.Cells.{plain_cell, plain_cells};
ghost use Rattle.sp_verilog.specs.Pieces.{result_name, assign, choose, sized, net_name, channel_port};
ghost use Rattle.sp_verilog.specs.Text.{input, output, next_port, indented, at_clock, on_reset, enabled, on_enable, on_write, is_inside, element, asking_lines, asking_ports, load_ports, store_ports, read_line, write_line, register_line, load_lines, store_lines, cell_ports, cell_lines, bank_text, lines_text, ports_text};

use crate::NoMemory;
use crate::arithmetic::push_cast;
use crate::computed::{push_op, push_shift};
use crate::memories::{BankSize, Memories};
use crate::pieces::{Range, Sized};
use sp_netlist::{Cell, NetId};
use std::fmt::Write;

#[tactic(auto, unfolding(crate::specs::Text::input))]
fn push_input(text: &mut String, width: u8, channel: u64, port: &str) -> Result<(), NoMemory>
    ensures { OnOk result (string_bytes text.new ≡ string_bytes text.old ++ next_port (input width (channel_port channel port.now))) }
{
    let bits = Range(width);
    write!(text, ",\n  input wire {bits} c{channel}_{port}")
}

#[tactic(auto, unfolding(crate::specs::Text::output))]
fn push_output(text: &mut String, width: u8, channel: u64, port: &str) -> Result<(), NoMemory>
    ensures { OnOk result (string_bytes text.new ≡ string_bytes text.old ++ next_port (output width (channel_port channel port.now))) }
{
    let bits = Range(width);
    write!(text, ",\n  output wire {bits} c{channel}_{port}")
}

fn push_asking_ports(text: &mut String, channel: u64) -> Result<(), NoMemory>
    ensures { OnOk result (string_bytes text.new ≡ string_bytes text.old ++ ports_text (asking_ports channel)) }
{
    push_output(text, 1, channel, "req")?;
    push_output(text, 1, channel, "last")?;
    push_output(text, 32, channel, "addr")
}

fn push_load_ports(text: &mut String, channel: u64, width: u8) -> Result<(), NoMemory>
    ensures { OnOk result (string_bytes text.new ≡ string_bytes text.old ++ ports_text (load_ports channel width)) }
{
    push_input(text, 1, channel, "ready")?;
    push_input(text, width, channel, "word")?;
    push_asking_ports(text, channel)
}

fn push_store_ports(text: &mut String, channel: u64, width: u8) -> Result<(), NoMemory>
    ensures { OnOk result (string_bytes text.new ≡ string_bytes text.old ++ ports_text (store_ports channel width)) }
{
    push_input(text, 1, channel, "ready")?;
    push_asking_ports(text, channel)?;
    push_output(text, width, channel, "word")
}

#[tactic(auto, unfolding(crate::specs::Text::input))]
fn push_argument(text: &mut String, width: u8, name: &str) -> Result<(), NoMemory>
    ensures { OnOk result (string_bytes text.new ≡ string_bytes text.old ++ next_port (input width (codes "in_" ++ name.now))) }
{
    let bits = Range(width);
    write!(text, ",\n  input wire {bits} in_{name}")
}

#[tactic(auto, unfolding(crate::specs::Pieces::result_name))]
fn push_result_name(text: &mut String, name: &str) -> Result<(), NoMemory>
    ensures { OnOk result (string_bytes text.new ≡ string_bytes text.old ++ result_name name.now) }
{
    write!(text, "out_{name}")
}

#[tactic(auto, unfolding(crate::specs::Text::output, crate::specs::Pieces::result_name))]
fn push_result(text: &mut String, width: u8, name: &str) -> Result<(), NoMemory>
    ensures { OnOk result (string_bytes text.new ≡ string_bytes text.old ++ next_port (output width (result_name name.now))) }
{
    let bits = Range(width);
    write!(text, ",\n  output wire {bits} out_{name}")
}

#[tactic(auto, unfolding(crate::specs::Text::output))]
fn push_done(text: &mut String) -> Result<(), NoMemory>
    ensures { OnOk result (string_bytes text.new ≡ string_bytes text.old ++ next_port (output 1 (codes "done"))) }
{
    let bit = Range(1);
    write!(text, ",\n  output wire {bit} done")
}

/// Appends the ports of a cell, each after a comma.
fn push_ports(text: &mut String, memories: &Memories, cell: &Cell) -> Result<(), NoMemory>
    ensures { OnOk result (string_bytes text.new ≡ string_bytes text.old ++ ports_text (cell_ports memories.now.banks.items memories.now.drams.items (plain_cell cell.now))) }
{
    match cell {
        Cell::In(name, _, ty) => push_argument(text, ty.width(), name),
        Cell::Out(name, _, ty) => push_result(text, ty.width(), name),
        Cell::Done(_) => push_done(text),
        Cell::LoadUnit(channel, dram, _, _, _, _, _) => {
            push_load_ports(text, *channel, memories.dram(*dram))
        }
        Cell::StoreUnit(channel, dram, _, _, _, _, _) => {
            push_store_ports(text, *channel, memories.dram(*dram))
        }
        _ => Ok(()),
    }
}

/// Appends the ports of all cells.
pub fn push_all_ports(
    text: &mut String,
    memories: &Memories,
    cells: &[Cell],
) -> Result<(), NoMemory>
    ensures { OnOk result (string_bytes text.new ≡ string_bytes text.old ++ flat_map (λ c. ports_text (cell_ports memories.now.banks.items memories.now.drams.items c)) (plain_cells cells.now)) }
{
    for cell in cells {
        push_ports(text, memories, cell)?;
    }
    Ok(())
}

/// Appends the line of a bank.
fn push_bank(text: &mut String, cell: &Cell) -> Result<(), NoMemory>
    ensures { OnOk result (string_bytes text.new ≡ string_bytes text.old ++ bank_text (plain_cell cell.now)) }
{
    match cell {
        Cell::Bank(bank, width, len) => {
            let bits = Range(*width);
            let last = len.saturating_sub(1);
            writeln!(text, "  reg {bits} b{bank} [0:{last}];")
        }
        _ => Ok(()),
    }
}

/// Appends the lines of the banks.
pub fn push_banks(text: &mut String, cells: &[Cell]) -> Result<(), NoMemory>
    ensures { OnOk result (string_bytes text.new ≡ string_bytes text.old ++ flat_map bank_text (plain_cells cells.now)) }
{
    for cell in cells {
        push_bank(text, cell)?;
    }
    Ok(())
}

#[tactic(auto, unfolding(crate::specs::Text::at_clock))]
fn push_clock(text: &mut String) -> Result<(), NoMemory>
    ensures { OnOk result (string_bytes text.new ≡ string_bytes text.old ++ (codes "  " ++ at_clock)) }
{
    text.push_str("  always @(posedge clk) ")
}

#[tactic(auto, unfolding(crate::specs::Text::on_reset))]
fn push_reset(text: &mut String, net: NetId, first: Sized) -> Result<(), NoMemory>
    ensures { OnOk result (string_bytes text.new ≡ string_bytes text.old ++ on_reset net (sized first.width first.word)) }
{
    write!(text, "if (rst) n{net} <= {first}; else ")
}

#[tactic(auto, unfolding(crate::specs::Text::enabled))]
fn push_enabled(text: &mut String, enable: NetId, net: NetId) -> Result<(), NoMemory>
    ensures { OnOk result (string_bytes text.new ≡ string_bytes text.old ++ enabled enable net) }
{
    write!(text, "if (n{enable}) n{net} <= ")
}

fn push_next(text: &mut String, enable: NetId, net: NetId, next: NetId) -> Result<(), NoMemory>
    ensures { OnOk result (string_bytes text.new ≡ string_bytes text.old ++ (on_enable enable net (net_name next) ++ 10 ∷ [])) }
{
    push_enabled(text, enable, net)?;
    writeln!(text, "n{next};")
}

fn push_register(
    text: &mut String,
    net: NetId,
    first: Sized,
    next: NetId,
    enable: NetId,
) -> Result<(), NoMemory>
    ensures { OnOk result (string_bytes text.new ≡ string_bytes text.old ++ lines_text (register_line first.width net first.word next enable ∷ [])) }
{
    push_clock(text)?;
    push_reset(text, net, first)?;
    push_next(text, enable, net, next)
}

#[tactic(auto, unfolding(crate::specs::Pieces::choose))]
fn push_element(
    text: &mut String,
    size: BankSize,
    net: NetId,
    bank: u64,
    enable: NetId,
    addr: NetId,
) -> Result<(), NoMemory>
    ensures { OnOk result (string_bytes text.new ≡ string_bytes text.old ++ (on_enable enable net (choose (codes "(" ++ (is_inside addr size.len ++ codes ")")) (element bank addr) (sized size.width 0)) ++ 10 ∷ [])) }
{
    let zero = Sized {
        width: size.width,
        word: 0,
    };
    let len = Sized {
        width: 32,
        word: u64::from(size.len),
    };
    push_enabled(text, enable, net)?;
    write!(text, "(n{addr} < {len}) ? ")?;
    writeln!(text, "b{bank}[n{addr}] : {zero};")
}

fn push_read(
    text: &mut String,
    size: BankSize,
    net: NetId,
    bank: u64,
    enable: NetId,
    addr: NetId,
) -> Result<(), NoMemory>
    ensures { OnOk result (string_bytes text.new ≡ string_bytes text.old ++ lines_text (read_line size net bank enable addr ∷ [])) }
{
    let zero = Sized {
        width: size.width,
        word: 0,
    };
    push_clock(text)?;
    push_reset(text, net, zero)?;
    push_element(text, size, net, bank, enable, addr)
}

#[tactic(auto, unfolding(crate::specs::Text::on_write))]
fn push_write_test(text: &mut String, len: u32, enable: NetId, addr: NetId) -> Result<(), NoMemory>
    ensures { OnOk result (string_bytes text.new ≡ string_bytes text.old ++ on_write enable addr len) }
{
    let len = Sized {
        width: 32,
        word: u64::from(len),
    };
    write!(text, "if (!rst && n{enable} && ")?;
    write!(text, "n{addr} < {len}) ")
}

fn push_write(
    text: &mut String,
    size: BankSize,
    bank: u64,
    enable: NetId,
    addr: NetId,
    word: NetId,
) -> Result<(), NoMemory>
    ensures { OnOk result (string_bytes text.new ≡ string_bytes text.old ++ lines_text (write_line size bank enable addr word ∷ [])) }
{
    push_clock(text)?;
    push_write_test(text, size.len, enable, addr)?;
    writeln!(text, "b{bank}[n{addr}] <= n{word};")
}

/// What a net hears from a port of a channel.
#[tactic(auto, unfolding(crate::specs::Pieces::assign))]
fn push_heard(text: &mut String, net: NetId, channel: u64, port: &str) -> Result<(), NoMemory>
    ensures { OnOk result (string_bytes text.new ≡ string_bytes text.old ++ indented (assign (net_name net) (channel_port channel port.now))) }
{
    writeln!(text, "  assign n{net} = c{channel}_{port};")
}

/// What a port of a channel is told by a net.
#[tactic(auto, unfolding(crate::specs::Pieces::assign))]
fn push_told(text: &mut String, channel: u64, port: &str, net: NetId) -> Result<(), NoMemory>
    ensures { OnOk result (string_bytes text.new ≡ string_bytes text.old ++ indented (assign (channel_port channel port.now) (net_name net))) }
{
    writeln!(text, "  assign c{channel}_{port} = n{net};")
}

fn push_asking(
    text: &mut String,
    channel: u64,
    request: NetId,
    last: NetId,
    addr: NetId,
) -> Result<(), NoMemory>
    ensures { OnOk result (string_bytes text.new ≡ string_bytes text.old ++ lines_text (asking_lines channel request last addr)) }
{
    push_told(text, channel, "req", request)?;
    push_told(text, channel, "last", last)?;
    push_told(text, channel, "addr", addr)
}

fn push_load(
    text: &mut String,
    channel: u64,
    ready: NetId,
    net: NetId,
    request: NetId,
    last: NetId,
    addr: NetId,
) -> Result<(), NoMemory>
    ensures { OnOk result (string_bytes text.new ≡ string_bytes text.old ++ lines_text (load_lines channel ready net request last addr)) }
{
    push_heard(text, ready, channel, "ready")?;
    push_heard(text, net, channel, "word")?;
    push_asking(text, channel, request, last, addr)
}

fn push_store(
    text: &mut String,
    channel: u64,
    ready: NetId,
    request: NetId,
    last: NetId,
    addr: NetId,
    word: NetId,
) -> Result<(), NoMemory>
    ensures { OnOk result (string_bytes text.new ≡ string_bytes text.old ++ lines_text (store_lines channel ready request last addr word)) }
{
    push_heard(text, ready, channel, "ready")?;
    push_asking(text, channel, request, last, addr)?;
    push_told(text, channel, "word", word)
}

#[tactic(auto, unfolding(crate::specs::Pieces::assign))]
fn push_result_line(text: &mut String, name: &str, net: NetId) -> Result<(), NoMemory>
    ensures { OnOk result (string_bytes text.new ≡ string_bytes text.old ++ indented (assign (result_name name.now) (net_name net))) }
{
    text.push_str("  assign ")?;
    push_result_name(text, name)?;
    writeln!(text, " = n{net};")
}

/// Appends the lines of a cell that reads or drives a memory or a port.
#[tactic(auto, unfolding(crate::specs::Pieces::assign, crate::specs::Pieces::choose))]
fn push_lines(text: &mut String, memories: &Memories, cell: &Cell) -> Result<(), NoMemory>
    ensures { OnOk result (string_bytes text.new ≡ string_bytes text.old ++ lines_text (cell_lines memories.now.banks.items memories.now.drams.items (plain_cell cell.now))) }
{
    match cell {
        Cell::In(name, net, _) => writeln!(text, "  assign n{net} = in_{name};"),
        Cell::Out(name, net, _) => push_result_line(text, name, *net),
        Cell::Done(net) => writeln!(text, "  assign done = n{net};"),
        Cell::Const(net, width, word) => {
            let word = Sized {
                width: *width,
                word: *word,
            };
            writeln!(text, "  assign n{net} = {word};")
        }
        Cell::Op(net, ty, op, a, b) => push_op(text, *net, *ty, *op, *a, *b),
        Cell::Not(net, _, a) => writeln!(text, "  assign n{net} = ~n{a};"),
        Cell::Shift(net, ty, side, a, places) => push_shift(text, *net, *ty, *side, *a, *places),
        Cell::Cast(net, from, to, a) => push_cast(text, *net, *from, *to, *a),
        Cell::Mux(net, _, choice, a, b) => {
            writeln!(text, "  assign n{net} = n{choice} ? n{a} : n{b};")
        }
        Cell::Hold(net, width, first, next, enable) => {
            let first = Sized {
                width: *width,
                word: *first,
            };
            push_register(text, *net, first, *next, *enable)
        }
        Cell::ReadTap(net, bank, enable, addr) => {
            push_read(text, memories.bank(*bank), *net, *bank, *enable, *addr)
        }
        Cell::WriteTap(bank, enable, addr, word) => {
            push_write(text, memories.bank(*bank), *bank, *enable, *addr, *word)
        }
        Cell::LoadUnit(channel, _, ready, net, request, last, addr) => {
            push_load(text, *channel, *ready, *net, *request, *last, *addr)
        }
        Cell::StoreUnit(channel, _, ready, request, last, addr, word) => {
            push_store(text, *channel, *ready, *request, *last, *addr, *word)
        }
        Cell::Bank(_, _, _) | Cell::Dram(_, _, _, _) => Ok(()),
    }
}

/// Appends the lines of all cells, in order.
pub fn push_all_lines(
    text: &mut String,
    memories: &Memories,
    cells: &[Cell],
) -> Result<(), NoMemory>
    ensures { OnOk result (string_bytes text.new ≡ string_bytes text.old ++ flat_map (λ c. lines_text (cell_lines memories.now.banks.items memories.now.drams.items c)) (plain_cells cells.now)) }
{
    for cell in cells {
        push_lines(text, memories, cell)?;
    }
    Ok(())
}
