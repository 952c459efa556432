//! Where the element at some indices stands.
ghost use Rattle.std.specs.Prelude.{◌≡◌, ℕ, ◌*◌, ◌<◌, ◌^◌, map, All};
ghost use Rattle.sp_words.specs.Interface.{IsCount, word_count};
ghost use Rattle.sp_words.specs.Types.{int_type};
ghost use Rattle.sp_words.specs.Words.{IsWord};
ghost use Rattle.sp_tree.specs.Elements as elements;
ghost use Rattle.sp_tree.specs.Elements.{index_value};
ghost use Rattle.sp_seq.specs.Places.{place_in};

/// The place in row-major order, if each index is inside of its dimension. Indices are words of `Int`.
pub(crate) fn place(dims: &[u32], indices: &[u64]) -> Option<usize>
    requires dims { All IsCount dims.now }
    requires size { word_count dims.now < 2 ^ 32 }
    requires words { All (IsWord int_type) indices.now }
    ensures { result ≡ place_in dims.now indices.now }
{
    if dims.len() != indices.len() {
        return None;
    }
    let mut at = 0;
    for k in 0..dims.len() {
        if indices[k] >= u64::from(dims[k]) {
            return None;
        }
        at = at * dims[k] as usize + indices[k] as usize;
    }
    Some(at)
}

/// The product of dimensions.
pub(crate) fn count(dims: &[u32]) -> usize
    requires dims { All IsCount dims.now }
    requires size { word_count dims.now < 2 ^ 32 }
    ensures { result ≡ word_count dims.now }
{
    match dims {
        [] => 1,
        [dim, others @ ..] => *dim as usize * count(others),
    }
}

/// The number that a word of `Int` is, or 0 where it is below 0.
pub(crate) fn natural(word: u64) -> usize
    requires { IsWord int_type word }
    ensures { result ≡ elements.natural (index_value word) }
{
    if word < 1 << 31 { word as usize } else { 0 }
}

/// Whether the number that a word of `Int` is is from 0 to `size - 1`.
pub(crate) fn is_below(word: u64, size: usize) -> bool
    requires { IsWord int_type word }
    ensures { result ≡ elements.is_below (index_value word) size }
{
    word < 1 << 31 && (word as usize) < size
}
