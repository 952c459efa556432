//! The header of a dump: what it shows, and under which identifiers.
ghost use Rattle.std.specs.Prelude.{◌≡◌, ◌++◌, map, flat_map, codes, OnOk, string_bytes};
ghost use Rattle.sp_netlist.specs.Cells.{plain_cell, plain_cells};
ghost use Rattle.sp_listing.specs.Text.{type_text};
ghost use Rattle.sp_waves.specs.Signals.{plain_signal};
ghost use Rattle.sp_waves.specs.Text as texts;

use crate::NoMemory;
use crate::identifier::push_identifier;
use crate::signal::{Signal, name_of_argument, name_of_output};
use sp_listing::TypeCode;
use sp_netlist::Cell;
use sp_words::Ty;
use std::alloc::Global;
use std::fmt::Write;

#[tactic(auto, unfolding(crate::specs::Text::version))]
fn push_version(text: &mut String) -> Result<(), NoMemory>
    ensures { OnOk result (string_bytes text.new ≡ string_bytes text.old ++ texts.version) }
{
    text.push_str("$version spatialc $end\n")
}

#[tactic(auto, unfolding(crate::specs::Text::time_scale))]
fn push_time_scale(text: &mut String) -> Result<(), NoMemory>
    ensures { OnOk result (string_bytes text.new ≡ string_bytes text.old ++ texts.time_scale) }
{
    text.push_str("$timescale 1ns $end\n")
}

#[tactic(auto, unfolding(crate::specs::Text::scope_begin))]
fn push_scope_begin(text: &mut String) -> Result<(), NoMemory>
    ensures { OnOk result (string_bytes text.new ≡ string_bytes text.old ++ texts.scope_begin) }
{
    text.push_str("$scope module spatial $end\n")
}

#[tactic(auto, unfolding(crate::specs::Text::scope_end))]
fn push_scope_end(text: &mut String) -> Result<(), NoMemory>
    ensures { OnOk result (string_bytes text.new ≡ string_bytes text.old ++ texts.scope_end) }
{
    text.push_str("$upscope $end\n")
}

#[tactic(auto, unfolding(crate::specs::Text::definitions_end))]
fn push_definitions_end(text: &mut String) -> Result<(), NoMemory>
    ensures { OnOk result (string_bytes text.new ≡ string_bytes text.old ++ texts.definitions_end) }
{
    text.push_str("$enddefinitions $end\n")
}

/// Appends the comment that tells the type of a port.
#[tactic(auto, unfolding(crate::specs::Text::comment))]
fn push_comment(text: &mut String, name: &str, ty: Ty) -> Result<(), NoMemory>
    ensures { OnOk result (string_bytes text.new ≡ string_bytes text.old ++ texts.comment name.now (type_text ty)) }
{
    writeln!(text, "$comment {name} {} $end", TypeCode(ty))
}

/// Appends the comment of a cell that is a port.
fn push_port_comment(alloc: Global, text: &mut String, cell: &Cell) -> Result<(), NoMemory>
    ensures { OnOk result (string_bytes text.new ≡ string_bytes text.old ++ texts.port_comment (plain_cell cell.now)) }
{
    match cell {
        Cell::In(name, _, ty) => push_comment(text, &name_of_argument(alloc, name)?, *ty),
        Cell::Out(name, _, ty) => push_comment(text, &name_of_output(alloc, name)?, *ty),
        Cell::Dram(_, name, ty, _) => push_comment(text, name, *ty),
        _ => Ok(()),
    }
}

/// Appends the comments of all ports.
fn push_comments(alloc: Global, text: &mut String, cells: &[Cell]) -> Result<(), NoMemory>
    ensures { OnOk result (string_bytes text.new ≡ string_bytes text.old ++ flat_map texts.port_comment (plain_cells cells.now)) }
{
    for cell in cells {
        push_port_comment(alloc, text, cell)?;
    }
    Ok(())
}

#[tactic(auto, unfolding(crate::specs::Text::declaration_head))]
fn push_head(text: &mut String, width: u8) -> Result<(), NoMemory>
    ensures { OnOk result (string_bytes text.new ≡ string_bytes text.old ++ texts.declaration_head width) }
{
    write!(text, "$var wire {width} ")
}

#[tactic(auto, unfolding(crate::specs::Text::declaration_tail))]
fn push_tail(text: &mut String, name: &str) -> Result<(), NoMemory>
    ensures { OnOk result (string_bytes text.new ≡ string_bytes text.old ++ texts.declaration_tail name.now) }
{
    writeln!(text, " {name} $end")
}

/// Appends the declaration of a variable.
fn push_declaration(text: &mut String, number: usize, width: u8, name: &str) -> Result<(), NoMemory>
    ensures { OnOk result (string_bytes text.new ≡ string_bytes text.old ++ texts.declaration number width name.now) }
{
    push_head(text, width)?;
    push_identifier(text, number)?;
    push_tail(text, name)
}

/// Appends the declarations of the signals, which are numbered from 1.
fn push_declarations(text: &mut String, signals: &[Signal]) -> Result<(), NoMemory>
    ensures { OnOk result (string_bytes text.new ≡ string_bytes text.old ++ texts.declarations 1 (map plain_signal signals.now)) }
{
    for i in 0..signals.len() {
        let signal = &signals[i];
        push_declaration(text, i + 1, signal.width, &signal.name)?;
    }
    Ok(())
}

/// Appends the header.
pub(crate) fn push_header(
    alloc: Global,
    text: &mut String,
    cells: &[Cell],
    signals: &[Signal],
) -> Result<(), NoMemory>
    ensures { OnOk result (string_bytes text.new ≡ string_bytes text.old ++ texts.header (plain_cells cells.now) (map plain_signal signals.now)) }
{
    push_version(text)?;
    push_time_scale(text)?;
    push_comments(alloc, text, cells)?;
    push_scope_begin(text)?;
    push_declaration(text, 0, 1, "clk")?;
    push_declarations(text, signals)?;
    push_scope_end(text)?;
    push_definitions_end(text)
}
