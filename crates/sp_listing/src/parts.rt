//! The parts of a listing's line, each from its word.
ghost use Rattle.std.specs.Prelude.{◌≡◌, ◌≢◌, ◌≤◌, ◌<◌, ◌^◌, ◌↔◌, ℕ, List, [], ◌∷◌, ◌++◌, Bool, true, false, IsTrue, decimal, MatchOption};
ghost use Rattle.sp_words.specs.declared.types.Ty.{Ty};
ghost use Rattle.sp_netlist.specs.declared.cell.CellOp.{CellOp};
ghost use Rattle.sp_netlist.specs.declared.cell.CellShift.{CellShift};
ghost use Rattle.sp_netlist.specs.Rules.{IsWidth, IsLength};
ghost use Rattle.sp_words.specs.declared.types.FixTy.{FixTy};
ghost use Rattle.sp_words.specs.Names.{IsName};
ghost use Rattle.sp_listing.specs.Text.{type_text, op_text, shift_text};
ghost use Rattle.sp_listing.specs.Readers.{Lacks, sign_text, counts_text};

use sp_netlist::{CellOp, CellShift, NetId};
use sp_words::{FixTy, Ty, is_name, is_reserved};

/// Whether the word is a name, and no word of the language.
pub fn is_port_name(word: &str) -> bool
    ensures { IsTrue result ↔ IsName word.now }
{
    is_name(word) && !is_reserved(word)
}

/// A number below 2^64, without leading zeros.
pub fn number_of(word: &str) -> Option<u64>
    ensures { MatchOption result ((n : ℕ) → n < 2 ^ 64 → word.now ≢ decimal n) (λ n. (n < 2 ^ 64) × (word.now ≡ decimal n)) }
{
    if word.starts_with('+') {
        return None;
    }
    if word.starts_with('0') && word.len() > 1 {
        return None;
    }
    let Ok(number) = word.parse::<u64>() else {
        return None;
    };
    Some(number)
}

/// A net by its number.
pub fn net_of(word: &str) -> Option<NetId>
    ensures { MatchOption result ((n : ℕ) → n < 2 ^ 64 → word.now ≢ decimal n) (λ net. (net < 2 ^ 64) × (word.now ≡ decimal net)) }
{
    let number = number_of(word)?;
    Some(NetId::new(number))
}

/// A number that is at most that.
fn at_most(word: &str, most: u64) -> Option<u64>
    ensures { MatchOption result ((n : ℕ) → n ≤ most → word.now ≢ decimal n) (λ n. (n ≤ most) × (word.now ≡ decimal n)) }
{
    let number = number_of(word)?;
    if number > most { None } else { Some(number) }
}

/// A number below 2^32.
pub fn dram_of(word: &str) -> Option<u32>
    ensures { MatchOption result ((n : ℕ) → n < 2 ^ 32 → word.now ≢ decimal n) (λ n. (n < 2 ^ 32) × (word.now ≡ decimal n)) }
{
    let number = at_most(word, u64::from(u32::MAX))?;
    Some(number as u32)
}

/// A number of words, or a dimension.
pub fn length_of(word: &str) -> Option<u32>
    ensures { MatchOption result ((n : ℕ) → IsLength n → word.now ≢ decimal n) (λ n. IsLength n × (word.now ≡ decimal n)) }
{
    let number = at_most(word, 2147483647)?;
    if number == 0 {
        None
    } else {
        Some(number as u32)
    }
}

/// A number of bits before or after a point.
fn bits_of(word: &str) -> Option<u8>
    ensures { MatchOption result ((n : ℕ) → n ≤ 64 → word.now ≢ decimal n) (λ n. (n ≤ 64) × (word.now ≡ decimal n)) }
{
    let number = at_most(word, 64)?;
    Some(number as u8)
}

/// The width of a net.
pub fn width_of(word: &str) -> Option<u8>
    ensures { MatchOption result ((n : ℕ) → IsWidth n → word.now ≢ decimal n) (λ n. IsWidth n × (word.now ≡ decimal n)) }
{
    let bits = bits_of(word)?;
    if bits == 0 { None } else { Some(bits) }
}

/// By how many places a word is shifted.
pub fn places_of(word: &str) -> Option<u8>
    ensures { MatchOption result ((n : ℕ) → n < 64 → word.now ≢ decimal n) (λ n. (n < 64) × (word.now ≡ decimal n)) }
{
    let places = at_most(word, 63)?;
    Some(places as u8)
}

/// The word of a net of that width.
pub fn word_of(word: &str, width: u8) -> Option<u64>
    requires { IsWidth width }
    ensures { MatchOption result ((n : ℕ) → n < 2 ^ width → word.now ≢ decimal n) (λ n. (n < 2 ^ width) × (word.now ≡ decimal n)) }
{
    let number = number_of(word)?;
    if u128::from(number) < 1u128 << width {
        Some(number)
    } else {
        None
    }
}

/// Whether a type has a sign, by its letter, and what follows it.
fn sign_of(code: &str) -> Option<(bool, &str)>
    ensures { MatchOption result ((signed : Bool) (rest : List ℕ) → code.now ≢ sign_text signed ++ rest) (λ p. code.now ≡ sign_text p.0 ++ p.1.now) }
{
    if let Some(rest) = code.strip_prefix("s") {
        return Some((true, rest));
    }
    let rest = code.strip_prefix("u")?;
    Some((false, rest))
}

/// What stands before the first point and after it.
fn split_at_point(bits: &str) -> Option<(&str, &str)>
    ensures { MatchOption result (Lacks 46 bits.now) (λ p. (bits.now ≡ p.0.now ++ (46 ∷ p.1.now)) × Lacks 46 p.0.now) }
{
    bits.split_once('.')
}

/// The numbers of bits before and after a point.
fn counts_of(bits: &str) -> Option<(u8, u8)>
    ensures { MatchOption result ((whole frac : ℕ) → whole ≤ 64 → frac ≤ 64 → bits.now ≢ counts_text whole frac) (λ p. (p.0 ≤ 64) × (p.1 ≤ 64) × (bits.now ≡ counts_text p.0 p.1)) }
{
    let (whole, frac) = split_at_point(bits)?;
    let whole = bits_of(whole)?;
    let frac = bits_of(frac)?;
    Some((whole, frac))
}

fn fixed_of(code: &str) -> Option<FixTy>
    ensures { MatchOption result ((ty : FixTy) → code.now ≢ type_text (Ty.Fix ty)) (λ ty. code.now ≡ type_text (Ty.Fix ty)) }
{
    let (signed, bits) = sign_of(code)?;
    let (whole, frac) = counts_of(bits)?;
    FixTy::new(signed, whole, frac)
}

/// A type by its code.
pub fn type_of(code: &str) -> Option<Ty>
    ensures { MatchOption result ((ty : Ty) → code.now ≢ type_text ty) (λ ty. code.now ≡ type_text ty) }
{
    if code == "bit" {
        return Some(Ty::Bit);
    }
    let fixed = fixed_of(code)?;
    Some(Ty::Fix(fixed))
}

/// An operator by its word.
pub fn operator_of(word: &str) -> Option<CellOp>
    ensures { MatchOption result ((op : CellOp) → word.now ≢ op_text op) (λ op. word.now ≡ op_text op) }
{
    match word {
        "add" => Some(CellOp::Add),
        "sub" => Some(CellOp::Sub),
        "mul" => Some(CellOp::Mul),
        "div" => Some(CellOp::Div),
        "rem" => Some(CellOp::Rem),
        "and" => Some(CellOp::And),
        "or" => Some(CellOp::Or),
        "xor" => Some(CellOp::Xor),
        "min" => Some(CellOp::Min),
        "max" => Some(CellOp::Max),
        "lt" => Some(CellOp::Lt),
        "eq" => Some(CellOp::Eq),
        _ => None,
    }
}

/// The direction of a shift by its word.
pub fn side_of(word: &str) -> Option<CellShift>
    ensures { MatchOption result ((side : CellShift) → word.now ≢ shift_text side) (λ side. word.now ≡ shift_text side) }
{
    match word {
        "shl" => Some(CellShift::Shl),
        "shr" => Some(CellShift::Shr),
        _ => None,
    }
}
