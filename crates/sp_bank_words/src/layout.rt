//! How a memory lies in banks by its scheme.
ghost use Rattle.std.specs.Prelude.{◌≡◌, length, IfOk};
ghost use Rattle.sp_places.specs.Layouts.{banking_of};
ghost use Rattle.sp_bank_words.specs.Layouts.{banking_for, one_bank};

use sp_bank::Scheme;
use sp_places::Layout;
use std::alloc::{AllocError, Global};

/// The layout of a memory of these dimensions, an SRAM's or the columns of a line buffer: that of its scheme, or one bank where
/// it has none.
pub fn layout_of(alloc: Global, scheme: &Option<Scheme>, dims: &[u32]) -> Result<Layout, AllocError>
    ensures sizes { IfOk result (λ l. l.dims.items ≡ dims.now) }
    ensures banking { IfOk result (λ l. banking_of l ≡ banking_for scheme.now (length dims.now)) }
{
    match scheme {
        None => one_bank(alloc, dims),
        Some(scheme) => in_banks(alloc, scheme, dims),
    }
}

fn one_bank(alloc: Global, dims: &[u32]) -> Result<Layout, AllocError>
    ensures sizes { IfOk result (λ l. l.dims.items ≡ dims.now) }
    ensures banking { IfOk result (λ l. banking_of l ≡ one_bank (length dims.now)) }
{
    Ok(Layout {
        dims: Vec::from_slice(alloc, dims)?,
        banks: 1,
        block: 1,
        alpha: vec![in alloc; 0u32; dims.len()]?,
        hinge: 0,
    })
}

fn in_banks(alloc: Global, scheme: &Scheme, dims: &[u32]) -> Result<Layout, AllocError>
    ensures sizes { IfOk result (λ l. l.dims.items ≡ dims.now) }
    ensures banking { IfOk result (λ l. banking_of l ≡ scheme.now) }
{
    Ok(Layout {
        dims: Vec::from_slice(alloc, dims)?,
        banks: scheme.banks,
        block: scheme.block,
        alpha: Vec::from_slice(alloc, scheme.alpha.as_slice())?,
        hinge: u32::from(scheme.hinge),
    })
}
