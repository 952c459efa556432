//! The scheme of each memory.

ghost use Rattle.std.specs.Prelude.{◌≡◌, ◌≤◌, ◌<◌, map, length, IfOk};
ghost use Rattle.sp_core.specs.CoreParts.{plain_core};
ghost use Rattle.sp_core.specs.Declarations.{mem};
ghost use Rattle.sp_core.specs.Forms.{plain_forms};
ghost use Rattle.sp_schemes.specs.Groups.{banked_rank};
ghost use Rattle.sp_schemes.specs.Chosen.{IsChosen, AreChosen};
ghost use Rattle.sp_schemes.specs.Places.{places_of};

use crate::NoMemory;
use crate::accesses::rank;
use crate::groups::{are_grouped_in, push_groups_in};
use crate::standing::places;
use sp_bank::{Scheme, search};
use sp_core::{AccessForms, Core};
use sp_plan::{has_banks, kind};
use sp_words::Kind;
use std::alloc::Global;

/// How many dimensions of a memory are banked: all of an SRAM, the columns of a line buffer.
fn banked_rank(core: &Core, m: u32) -> u8
    requires { length (mem (plain_core core.now) m).dims ≤ 3 }
    ensures { result ≡ banked_rank (mem (plain_core core.now) m).kind (length (mem (plain_core core.now) m).dims) }
{
    match kind(core, m) {
        Kind::LineBuf => 1,
        _ => rank(core, m) as u8,
    }
}

/// The first scheme that a memory may have, where it may have one.
fn scheme(
    alloc: Global,
    core: &Core,
    forms: &AccessForms,
    places: &[usize],
    m: u32,
) -> Result<Option<Scheme>, NoMemory>
    requires places { places.now ≡ places_of (plain_core core.now) }
    ensures { IfOk result (λ scheme. IsChosen (plain_core core.now) (plain_forms forms.now) m scheme) }
{
    if !has_banks(kind(core, m)) {
        return Ok(None);
    }
    if !are_grouped_in(alloc, core, forms, places, m, 0, core.root())? {
        return Ok(None);
    }
    let mut groups = Vec::new(alloc);
    push_groups_in(alloc, core, forms, places, m, 0, core.root(), &mut groups)?;
    Ok(search(alloc, banked_rank(core, m), &groups))
}

/// The scheme of each memory of a core in lanes, by the forms of its accesses: of the schemes by which it keeps the rules
/// of valid plans on banks the one with the fewest banks, then the shortest blocks, then the least weights, then the
/// least hinge. None where there is no such scheme; a memory with banks is serial then.
pub fn schemes(
    alloc: Global,
    core: &Core,
    forms: &AccessForms,
) -> Result<Vec<Option<Scheme>>, NoMemory>
    ensures count { IfOk result (λ schemes. length schemes.items ≡ length core.now.mems) }
    ensures chosen { IfOk result (λ schemes. AreChosen (plain_core core.now) (plain_forms forms.now) schemes.items) }
{
    let places = places(alloc, core)?;
    let mut schemes = Vec::new(alloc);
    for m in 0..core.mems().len() {
        schemes.push(scheme(alloc, core, forms, &places, m as u32)?)?;
    }
    Ok(schemes)
}
