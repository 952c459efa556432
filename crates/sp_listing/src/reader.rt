//! Reading a listing.
ghost use Rattle.std.specs.Prelude.{◌≡◌, ◌≤◌, ◌↔◌, [], ◌∷◌, length, IsTrue, IfOk, IfErr, MatchResult};
ghost use Rattle.sp_netlist.specs.Cells.{plain_cells};
ghost use Rattle.sp_netlist.specs.Refusals.{IsWithinLimits};
ghost use Rattle.sp_listing.specs.Reading.{pieces, heading, BreaksAt, IsListing};
ghost use Rattle.sp_listing.specs.Refusal.{RefusesText, RefusesLines};

use crate::declared_lines::DeclaredLines;
use crate::error::ListError;
use crate::line_ends::split_line;
use crate::reading::read_body;
use sp_netlist::{Cell, Netlist};
use std::alloc::Global;

fn is_heading(line: &[u8]) -> bool
    ensures { IsTrue result ↔ (line.now ≡ heading) }
{
    line == b"netlist 1".as_slice()
}

// The line that breaks a rule in a text that has no line end.
fn broken_line(text: &[u8]) -> u32
    requires { pieces text.now ≡ text.now ∷ [] }
    ensures { BreaksAt (pieces text.now) result }
{
    if is_heading(text) { 2 } else { 1 }
}

// The cells of a text. It is read twice, a line at a time, and none of its lines is kept: first for the banks and the
// DRAMs that have a line, then for the cells.
fn read_cells(alloc: Global, text: &[u8]) -> Result<Vec<Cell>, ListError>
    requires { length text.now ≤ 268435456 }
    ensures { MatchResult result (λ cells. IsListing text.now (plain_cells cells.items)) (RefusesLines (pieces text.now)) }
{
    let Some((first, body)) = split_line(text) else {
        let line = broken_line(text);
        return Err(ListError::NoListing { line });
    };
    if !is_heading(first) {
        return Err(ListError::NoListing { line: 1 });
    }
    let declared = DeclaredLines::of_text(alloc, text)?;
    read_body(alloc, &declared, body)
}

/// The netlist of a listing, within the limits of a list of cells. A text that isn't one is refused at its first
/// line that breaks a rule, or as `Netlist::check` refuses its cells; `docs/listing.md` has the rules. Takes time
/// near linear in the bytes.
pub fn read(alloc: Global, bytes: &[u8]) -> Result<Netlist, ListError>
    requires { length bytes.now ≤ 268435456 }
    ensures listing { IfOk result (IsListing bytes.now) }
    ensures within { IfOk result (λ netlist. IsWithinLimits netlist) }
    ensures refused { IfErr result (RefusesText bytes.now) }
{
    let cells = read_cells(alloc, bytes)?;
    let netlist = Netlist::check(alloc, cells)?;
    Ok(netlist)
}
