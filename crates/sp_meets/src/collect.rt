//! The meets of a core.
ghost use Rattle.std.specs.Prelude.{◌≡◌, ◌++◌, map, length, nat_lt, IfOk, OnOk};
ghost use Rattle.sp_core.specs.CoreParts.{plain_core};
ghost use Rattle.sp_core.specs.Forms.{plain_forms};
ghost use Rattle.sp_meets.specs.Between.{meet_at};
ghost use Rattle.sp_meets.specs.Entries.{HasEntriesWith, HasEntriesAmong};
ghost use Rattle.sp_meets.specs.Meets.{IsLeastOf, AreMeetsAmong, IsMeetsOf, entry};
ghost use Rattle.sp_meets.specs.Plain.{plain_site};
ghost use Rattle.sp_meets.specs.Sites.{sites};

use crate::pairs::least_between;
use crate::view::{Site, sites_of};
use crate::walk::spots;
use sp_core::{AccessForms, Core, Meet, Meets};
use std::alloc::{AllocError, Global};

fn is_before(a: &Site, b: &Site) -> bool
    ensures { result ≡ nat_lt a.now.number b.now.number }
{
    a.number < b.number
}

fn least_of(chip: usize, a: &Site, b: &Site) -> Result<Option<u64>, AllocError>
    ensures { IfOk result (λ d. IsLeastOf (meet_at chip (plain_site a.now) (plain_site b.now)) d) }
{
    let before = is_before(a, b);
    least_between(chip, before, &a.views, &b.views)
}

fn add_entry(
    a: &Site,
    b: &Site,
    least: Option<u64>,
    meets: &mut Vec<Meet>,
) -> Result<(), AllocError>
    ensures { OnOk result (meets.new.items ≡ meets.old.items ++ entry (plain_site a.now) (plain_site b.now) least) }
{
    if let Some(groups) = least {
        meets.push(Meet {
            first: a.number,
            second: b.number,
            least: groups,
        })?;
    }
    Ok(())
}

// The meets of an access with others.
fn add_meets_with(
    chip: usize,
    a: &Site,
    others: &[Site],
    meets: &mut Vec<Meet>,
) -> Result<(), AllocError>
    ensures { OnOk result (HasEntriesWith chip (plain_site a.now) (map plain_site others.now) meets.old.items meets.new.items) }
{
    for b in others {
        let least = least_of(chip, a, b)?;
        add_entry(a, b, least, meets)?;
    }
    Ok(())
}

fn add_meets(
    chip: usize,
    firsts: &[Site],
    seconds: &[Site],
    meets: &mut Vec<Meet>,
) -> Result<(), AllocError>
    ensures { OnOk result (HasEntriesAmong chip (map plain_site firsts.now) (map plain_site seconds.now) meets.old.items meets.new.items) }
{
    for a in firsts {
        add_meets_with(chip, a, seconds, meets)?;
    }
    Ok(())
}

fn meets_among(alloc: Global, chip: usize, sites: &[Site]) -> Result<Vec<Meet>, AllocError>
    ensures { IfOk result (λ pairs. AreMeetsAmong chip (map plain_site sites.now) (map plain_site sites.now) pairs.items) }
{
    let mut pairs = Vec::new(alloc);
    add_meets(chip, sites, sites, &mut pairs)?;
    Ok(pairs)
}

fn sites_in(alloc: Global, core: &Core, patterns: &AccessForms) -> Result<Vec<Site>, AllocError>
    ensures { IfOk result (λ s. map plain_site s.items ≡ sites (plain_core core.now) (plain_forms patterns.now)) }
{
    let spots = spots(alloc, core)?;
    sites_of(alloc, &spots, &patterns.forms, &patterns.lengths)
}

fn count(core: &Core) -> usize
    ensures { result ≡ length (plain_core core.now).mems }
{
    core.mems().len()
}

/// The meets of a core by the forms of its accesses: an entry for each ordered pair of accesses that may touch one element,
/// or that share a write port, with the least number of groups that they are apart.
pub fn meets(alloc: Global, core: &Core, patterns: &AccessForms) -> Result<Meets, AllocError>
    ensures { IfOk result (λ meets. IsMeetsOf (plain_core core.now) (plain_forms patterns.now) meets.pairs.items) }
{
    let sites = sites_in(alloc, core, patterns)?;
    let chip = count(core);
    let pairs = meets_among(alloc, chip, &sites)?;
    Ok(Meets { pairs })
}
