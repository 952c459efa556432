//! The least net that isn't driven once, and the least that stands at two widths.
ghost use Rattle.std.specs.Prelude.{◌≡◌, ℕ, ◌<◌, ◌^◌, ◌==◌, All, Some, None, is_some, is_none, if◌then◌else◌, IfOk, OnOk};
ghost use Rattle.std.specs.BTreeMap.{get};
ghost use Rattle.std.specs.Ordering.{nat_cmp};
ghost use Rattle.sp_netlist.specs.Cells.{plain_cells};
ghost use Rattle.sp_netlist.specs.Rules.{driven_nets};
ghost use Rattle.sp_netlist.specs.Draft.{net_count};
ghost use Rattle.sp_netlist.specs.Refusals.{AreLines, DrivenNotOnce, WidthsDiffer};
ghost use Rattle.sp_netlist.specs.Tables.{IsLeastOrNone, least_with, least_of, latest, wire_pairs, IsMissing, IsClash, differs_from};

use crate::NoMemory;
use crate::cell::{Cell, NetId};
use crate::parts::Wire;
use crate::tables::Widths;
use std::alloc::Global;
use std::collections::BTreeMap;

/// The lesser of the two.
fn lesser(best: Option<u64>, net: u64) -> u64
    ensures { result ≡ least_with best net }
{
    match best {
        Some(other) => other.min(net),
        None => net,
    }
}

/// The least so far, after one more that may be bad.
fn noted(best: Option<u64>, bad: bool, net: NetId) -> Option<u64>
    ensures { result ≡ (if bad then Some (least_with best net) else best) }
{
    if bad {
        Some(lesser(best, net.number()))
    } else {
        best
    }
}

/// Puts the width of the net into the map, and tells whether the net was there.
fn insert_width(widths: &mut BTreeMap<u64, u8>, wire: &Wire) -> Result<bool, NoMemory>
    ensures number { wire.now.net < 2 ^ 64 }
    ensures was { IfOk result (λ was. was ≡ is_some (get nat_cmp widths.old wire.now.net)) }
    ensures put { OnOk result ((net : ℕ) → get nat_cmp widths.new net ≡ (if wire.now.net == net then Some wire.now.width else get nat_cmp widths.old net)) }
{
    let number = wire.net.number();
    Ok(widths.insert(number, wire.width)?.is_some())
}

/// The width of each net that is driven, and the least net that is driven more than once.
pub(crate) fn driver_widths(
    alloc: Global,
    driven: &[Wire],
) -> Result<(BTreeMap<u64, u8>, Option<u64>), NoMemory>
    ensures numbers { OnOk result (All (λ p. p.0 < 2 ^ 64) (wire_pairs driven.now)) }
    ensures widths { IfOk result (λ r. (net : ℕ) → get nat_cmp r.0 net ≡ latest (wire_pairs driven.now) net) }
    ensures twice { IfOk result (λ r. IsLeastOrNone (λ net. 1 < net_count (wire_pairs driven.now) net) r.1) }
{
    let mut widths = BTreeMap::new(alloc);
    let mut twice = None;
    for wire in driven {
        let was = insert_width(&mut widths, wire)?;
        twice = noted(twice, was, wire.net);
    }
    Ok((widths, twice))
}

fn width_at(widths: &BTreeMap<u64, u8>, wire: &Wire) -> Option<u8>
    ensures { result ≡ get nat_cmp widths.now wire.now.net }
{
    widths.get(&wire.net.number()).copied()
}

/// The least net that is read and not driven, and the least that is read at another width than it is driven.
pub(crate) fn read_faults(widths: &BTreeMap<u64, u8>, read: &[Wire]) -> (Option<u64>, Option<u64>)
    ensures missing { IsLeastOrNone (IsMissing (get nat_cmp widths.now) (wire_pairs read.now)) result.0 }
    ensures clash { IsLeastOrNone (IsClash (get nat_cmp widths.now) (wire_pairs read.now)) result.1 }
{
    let mut missing = None;
    let mut clash = None;
    for wire in read {
        let found = width_at(widths, wire);
        missing = noted(missing, is_absent(found), wire.net);
        clash = noted(clash, differs(found, wire.width), wire.net);
    }
    (missing, clash)
}

fn is_absent(found: Option<u8>) -> bool
    ensures { result ≡ is_none found }
{
    found.is_none()
}

fn differs(found: Option<u8>, width: u8) -> bool
    ensures { result ≡ differs_from found width }
{
    match found {
        Some(given) => given != width,
        None => false,
    }
}

pub(crate) fn least_of_two(best: Option<u64>, other: Option<u64>) -> Option<u64>
    ensures { result ≡ least_of best other }
{
    match other {
        Some(net) => Some(lesser(best, net)),
        None => best,
    }
}

/// The least net that isn't driven once, and, where there is none, the least that is read at another width than its
/// driver gives it.
pub(crate) fn net_faults(
    alloc: Global,
    cells: &[Cell],
) -> Result<(Option<u64>, Option<u64>), NoMemory>
    requires { AreLines (plain_cells cells.now) }
    ensures numbers { OnOk result (All (λ p. p.0 < 2 ^ 64) (driven_nets (plain_cells cells.now))) }
    ensures driven { IfOk result (λ r. IsLeastOrNone (DrivenNotOnce (plain_cells cells.now)) r.0) }
    ensures widths { IfOk result (λ r. r.0 ≡ None → IsLeastOrNone (WidthsDiffer (plain_cells cells.now)) r.1) }
{
    let tables = Widths::new(alloc, cells)?;
    let driven = tables.driven(alloc)?;
    let read = tables.read(alloc)?;
    let (widths, twice) = driver_widths(alloc, &driven)?;
    let (missing, clash) = read_faults(&widths, &read);
    Ok((least_of_two(twice, missing), clash))
}
