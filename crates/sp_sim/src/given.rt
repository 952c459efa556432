//! Whether an input fits the ports of a netlist, and which port shows that it doesn't.
ghost use Rattle.std.specs.Prelude.{◌≡◌, ◌<◌, ◌-◌, ◌^◌, ◌↔◌, min, length, map, slice_index, slice_index_or, All, IsTrue, [], string_bytes};
ghost use Rattle.sp_words.specs.Interface.{word_count};
ghost use Rattle.sp_words.specs.Words.{IsWord};
ghost use Rattle.sp_words.specs.Ports.{plain_port, plain_ports};
ghost use Rattle.sp_sim.specs.Given.{ArgGiven, DramGiven, IsFirstWithout, IsFirstFault};

use sp_words::{Input, PortDecl, Ports, Ty, is_word};

/// The product, or the type's end where it is greater.
fn capped_count(dims: &[u32]) -> u128
    ensures { result ≡ min (word_count dims.now) (2 ^ 128 - 1) }
{
    let mut count: u128 = 1;
    for dim in dims {
        count = count.saturating_mul(u128::from(*dim));
    }
    count
}

fn are_words(ty: Ty, words: &[u64]) -> bool
    ensures { IsTrue result ↔ All (IsWord ty) words.now }
{
    words.iter().all(|word| is_word(ty, *word))
}

fn are_all_words(port: &PortDecl, words: &[u64]) -> bool
    ensures { IsTrue result ↔ ((length words.now ≡ word_count port.now.dims.items) × All (IsWord port.now.ty) words.now) }
{
    words.len() as u128 == capped_count(&port.dims) && are_words(port.ty, words)
}

fn has_arg(port: &PortDecl, args: &[u64], place: usize) -> bool
    ensures { IsTrue result ↔ ((place < length args.now) × IsWord port.now.ty (slice_index args.now place)) }
{
    place < args.len() && is_word(port.ty, args[place])
}

fn has_dram(port: &PortDecl, drams: &[Vec<u64>], place: usize) -> bool
    ensures { IsTrue result ↔ ((place < length drams.now) × (length (slice_index_or (map (λ v. v.items) drams.now) place []) ≡ word_count port.now.dims.items) × All (IsWord port.now.ty) (slice_index_or (map (λ v. v.items) drams.now) place [])) }
{
    place < drams.len() && are_all_words(port, &drams[place])
}

/// The first argument that isn't given rightly.
fn first_arg(ports: &[PortDecl], args: &[u64]) -> Option<usize>
    ensures { IsFirstWithout (ArgGiven (map plain_port ports.now) args.now) (length ports.now) result }
{
    for (place, port) in ports.iter().enumerate() {
        if !has_arg(port, args, place) {
            return Some(place);
        }
    }
    None
}

/// The first DRAM that isn't given rightly.
fn first_dram(ports: &[PortDecl], drams: &[Vec<u64>]) -> Option<usize>
    ensures { IsFirstWithout (DramGiven (map plain_port ports.now) (map (λ v. v.items) drams.now)) (length ports.now) result }
{
    for (place, port) in ports.iter().enumerate() {
        if !has_dram(port, drams, place) {
            return Some(place);
        }
    }
    None
}

/// The least number that shows that the input doesn't fit: arguments from 0, then DRAMs.
pub(crate) fn first_fault(ports: &Ports, input: &Input) -> Option<u64>
    ensures { IsFirstFault (plain_ports ports.now) input.now.args.items (map (λ v. v.items) input.now.drams.items) result }
{
    let args = ports.args.len() as u64;
    if let Some(place) = first_arg(&ports.args, &input.args) {
        return Some(place as u64);
    }
    if input.args.len() as u64 > args {
        return Some(args);
    }
    if let Some(place) = first_dram(&ports.drams, &input.drams) {
        return Some(args + place as u64);
    }
    if input.drams.len() > ports.drams.len() {
        return Some(args + ports.drams.len() as u64);
    }
    None
}
