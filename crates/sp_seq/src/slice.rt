//! Slices of DRAMs, and where their words stand.
ghost use Rattle.std.specs.Prelude.{◌≡◌, ℕ, ◌≤◌, ◌<◌, ◌^◌, pos, ◌-ℤ◌, ◌≤ℤ◌, ◌<ℤ◌, true, length, map, All};
ghost use Rattle.sp_words.specs.Interface.{IsCount, word_count};
ghost use Rattle.sp_words.specs.Types.{int_type};
ghost use Rattle.sp_words.specs.Words.{IsWord};
ghost use Rattle.sp_tree.specs.Elements.{index_value, length_between, natural, row_major};
ghost use Rattle.sp_tree.specs.Transfers as transfers;
ghost use Rattle.sp_seq.specs.Slices.{plain_part, plain_parts, offsets_at, Limited};

use crate::element::count;

/// What a slice takes of one dimension: the index `from`, or the range from there up to `until`.
#[derive(Clone, Copy)]
pub(crate) struct Part {
    pub(crate) ranged: bool,
    pub(crate) from: i64,
    pub(crate) until: i64,
}

/// The number that a word of `Int` is.
pub(crate) fn int_value(word: u64) -> i64
    requires { IsWord int_type word }
    ensures { result ≡ index_value word }
{
    if word < 1 << 31 {
        word as i64
    } else {
        word as i64 - (1 << 32)
    }
}

/// The part of one index, a word of `Int`.
pub(crate) fn index_part(at: u64) -> Part
    requires { IsWord int_type at }
    ensures { plain_part result ≡ transfers.index (index_value at) }
{
    let from = int_value(at);
    Part {
        ranged: false,
        from,
        until: from,
    }
}

/// The part of a range between two words of `Int`.
pub(crate) fn range_part(from: u64, until: u64) -> Part
    requires from { IsWord int_type from }
    requires until { IsWord int_type until }
    ensures { plain_part result ≡ transfers.between (index_value from) (index_value until) }
{
    Part {
        ranged: true,
        from: int_value(from),
        until: int_value(until),
    }
}

/// How many numbers there are from `from` up to `until`.
pub(crate) fn length_of(from: i64, until: i64) -> u64
    ensures { result ≡ length_between from until }
{
    if from < until {
        until.abs_diff(from)
    } else {
        0
    }
}

/// Whether a range is empty.
pub(crate) fn has_none(parts: &[Part]) -> bool
    ensures { result ≡ transfers.has_none (transfers.lengths (plain_parts parts.now)) }
{
    match parts {
        [] => false,
        [first, rest @ ..] => (first.ranged && first.from >= first.until) || has_none(rest),
    }
}

fn is_inside(part: Part, dim: u32) -> bool
    ensures { result ≡ transfers.is_part_inside dim (plain_part part) }
{
    if part.ranged {
        part.from >= 0 && part.until <= i64::from(dim)
    } else {
        part.from >= 0 && part.from < i64::from(dim)
    }
}

/// Whether each part is inside of its dimension.
pub(crate) fn are_inside(parts: &[Part], dims: &[u32]) -> bool
    requires { length parts.now ≡ length dims.now }
    ensures { result ≡ transfers.are_parts_inside dims.now (plain_parts parts.now) }
{
    match (parts, dims) {
        ([], []) => true,
        ([first, rest @ ..], [dim, others @ ..]) => {
            is_inside(*first, *dim) && are_inside(rest, others)
        }
        _ => unreachable!(),
    }
}

/// Whether no range is longer than its limit.
pub(crate) fn do_fit(parts: &[Part], limits: &[u32]) -> bool
    requires { length (transfers.lengths (plain_parts parts.now)) ≡ length limits.now }
    ensures { result ≡ transfers.do_fit limits.now (transfers.lengths (plain_parts parts.now)) }
{
    match parts {
        [] => true,
        [first, rest @ ..] => {
            if first.ranged {
                let [limit, others @ ..] = limits else {
                    unreachable!()
                };
                length_of(first.from, first.until) <= u64::from(*limit) && do_fit(rest, others)
            } else {
                do_fit(rest, limits)
            }
        }
    }
}

/// How many words a slice has, whose ranges are no longer than their limits.
pub(crate) fn total(parts: &[Part], limits: &[u32]) -> usize
    requires { Limited (plain_parts parts.now) limits.now }
    ensures words { result ≡ word_count (transfers.lengths (plain_parts parts.now)) }
    ensures within { result ≤ word_count limits.now }
{
    match parts {
        [] => 1,
        [first, rest @ ..] => {
            if first.ranged {
                let [_, others @ ..] = limits else {
                    unreachable!()
                };
                length_of(first.from, first.until) as usize * total(rest, others)
            } else {
                total(rest, limits)
            }
        }
    }
}

/// The number at which a part begins, or 0 where it is below 0.
fn index(part: &Part) -> usize
    ensures { result ≡ natural part.now.from }
{
    if part.from >= 0 {
        part.from as usize
    } else {
        0
    }
}

/// Where a word of a slice stands: in row-major order in the DRAM, and in the memory on the chip.
#[derive(Clone, Copy)]
pub(crate) struct Places {
    pub(crate) dram: usize,
    pub(crate) chip: usize,
}

/// Where the k-th word of a slice stands.
pub(crate) fn word_places(parts: &[Part], dims: &[u32], limits: &[u32], k: usize) -> Places
    requires dims { All IsCount dims.now }
    requires size { word_count dims.now < 2 ^ 32 }
    requires inside { transfers.are_parts_inside dims.now (plain_parts parts.now) ≡ true }
    requires limits { Limited (plain_parts parts.now) limits.now }
    requires below { k < word_count (transfers.lengths (plain_parts parts.now)) }
    ensures dram { result.dram ≡ row_major dims.now (transfers.places_of (plain_parts parts.now) (offsets_at (plain_parts parts.now) k)) }
    ensures chip { result.chip ≡ row_major limits.now (offsets_at (plain_parts parts.now) k) }
    ensures in_dram { result.dram < word_count dims.now }
    ensures in_chip { result.chip < word_count limits.now }
{
    let [first, rest @ ..] = parts else {
        return Places { dram: 0, chip: 0 };
    };
    let [_, others @ ..] = dims else {
        unreachable!()
    };
    let row = index(first);
    let inner_words = count(others);
    if first.ranged {
        let [_, fewer @ ..] = limits else {
            unreachable!()
        };
        let words = total(rest, fewer);
        let down = k / words;
        let inner = word_places(rest, others, fewer, k % words);
        Places {
            dram: (row + down) * inner_words + inner.dram,
            chip: down * count(fewer) + inner.chip,
        }
    } else {
        let inner = word_places(rest, others, limits, k);
        Places {
            dram: row * inner_words + inner.dram,
            chip: inner.chip,
        }
    }
}
