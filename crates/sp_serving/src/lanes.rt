//! Whether a scheme keeps the lanes of a wide transfer apart.

ghost use Rattle.std.specs.Prelude.{◌≡◌, ◌+◌, ◌-◌, ◌*◌, ◌<◌, ◌^◌, ◌&&◌, nat_le, slice_index};
ghost use Rattle.std.specs.List.{list_all};
ghost use Rattle.sp_core.specs.Elements.{numbers_below};
ghost use Rattle.sp_serving.specs.Apart.{is_far, lane_residue, is_lane_far, are_lanes_far};

use sp_bank::Scheme;

/// The weight of the last of so many dimensions; 0 where the scheme has none of it.
fn weight(scheme: &Scheme, rank: usize) -> u32
    ensures { result ≡ slice_index scheme.now.alpha (rank - 1) }
{
    match scheme.alpha.as_slice().get(rank.saturating_sub(1)) {
        Some(weight) => *weight,
        None => 0,
    }
}

fn product(a: u32, b: u32) -> u64
    ensures { result ≡ a * b }
{
    u64::from(a) * u64::from(b)
}

/// How many places there are until the banks come round again.
fn period(scheme: &Scheme) -> u32
    ensures period { result ≡ scheme.now.banks * scheme.now.block }
    ensures some { 0 < result }
{
    scheme.banks * scheme.block
}

/// The place of a lane within the period, which is at its number in the last dimension.
fn lane_residue(scheme: &Scheme, rank: usize, lane: u32) -> u64
    ensures place { result ≡ lane_residue scheme.now rank lane }
    ensures small { result < 2 ^ 32 }
{
    product(weight(scheme, rank), lane) % u64::from(period(scheme))
}

/// Whether two places within the period are a block or more from one another.
fn is_far(scheme: &Scheme, x: u64, y: u64) -> bool
    requires first { x < 2 ^ 32 }
    requires second { y < 2 ^ 32 }
    ensures { result ≡ is_far scheme.now x y }
{
    let block = u64::from(scheme.block);
    let period = u64::from(period(scheme));
    is_above(block, period, x, y) || is_above(block, period, y, x)
}

/// Whether the first place is a block or more from the second one, and from that round the period.
fn is_above(block: u64, period: u64, x: u64, y: u64) -> bool
    requires first { x < 2 ^ 32 }
    requires second { y < 2 ^ 32 }
    requires block { block < 2 ^ 32 }
    requires period { period < 2 ^ 32 }
    ensures { result ≡ (nat_le (y + block) x && nat_le (x + block) (y + period)) }
{
    y + block <= x && x + block <= y + period
}

/// Whether two lanes are.
fn is_lane_far(scheme: &Scheme, rank: usize, j: u32, i: u32) -> bool
    ensures { result ≡ is_lane_far scheme.now rank j i }
{
    is_far(
        scheme,
        lane_residue(scheme, rank, i),
        lane_residue(scheme, rank, j),
    )
}

/// Whether a lane is apart from all before it.
fn is_far_from_earlier(scheme: &Scheme, rank: usize, j: u32) -> bool
    ensures { result ≡ list_all (is_lane_far scheme.now rank j) (numbers_below j) }
{
    let mut far = true;
    for i in 0..j {
        far = far && is_lane_far(scheme, rank, j, i);
    }
    far
}

/// Whether so many lanes, which are at neighbours of the last dimension, are apart from one another.
pub(crate) fn are_lanes_far(scheme: &Scheme, rank: usize, par: u32) -> bool
    ensures { result ≡ are_lanes_far scheme.now rank par }
{
    let mut far = true;
    for j in 0..par {
        far = far && is_far_from_earlier(scheme, rank, j);
    }
    far
}
