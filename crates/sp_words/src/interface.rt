ghost use Rattle.std.specs.Prelude.{◌≡◌, ◌-◌, ◌^◌, ◌↔◌, min, IsTrue};
ghost use Rattle.std.specs.List.{AllZip};
ghost use Rattle.sp_words.specs.Interface.{word_count, ArgFits, DramFits, Fits};

use crate::types::Ty;
use crate::words::is_word;

/// An argument, an output or a DRAM of a program: its name, the type of its words, and its dimensions
/// (none for an argument or an output).
#[derive(Debug, Drop)]
pub struct PortDecl {
    pub name: String,
    pub ty: Ty,
    pub dims: Vec<u32>,
}

/// What a program has to the outside, each list in the order of its declarations.
#[derive(Debug, Drop)]
pub struct Ports {
    pub args: Vec<PortDecl>,
    pub outs: Vec<PortDecl>,
    pub drams: Vec<PortDecl>,
}

/// The word of each argument, and the words of each DRAM in row-major order.
#[derive(Debug, Drop)]
pub struct Input {
    pub args: Vec<u64>,
    pub drams: Vec<Vec<u64>>,
}

/// The word of each output, and the words of each DRAM in row-major order.
#[derive(Debug, Drop)]
pub struct Output {
    pub outs: Vec<u64>,
    pub drams: Vec<Vec<u64>>,
}

/// The product of the dimensions, or the type's end where it is greater.
fn capped_count(dims: &[u32]) -> u128
    ensures { result ≡ min (word_count dims.now) (2 ^ 128 - 1) }
{
    dims.iter().fold(1, |count: u128, dim| count.saturating_mul(u128::from(*dim)))
}

fn dram_fits(port: &PortDecl, words: &[u64]) -> bool
    ensures { IsTrue result ↔ DramFits port.now words.now }
{
    words.len() as u128 == capped_count(&port.dims)
        && words.iter().all(|word| is_word(port.ty, *word))
}

fn args_fit(ports: &[PortDecl], words: &[u64]) -> bool
    ensures { IsTrue result ↔ AllZip ArgFits ports.now words.now }
{
    if ports.len() != words.len() {
        return false;
    }
    for (port, word) in ports.iter().zip(words) {
        if !is_word(port.ty, *word) {
            return false;
        }
    }
    true
}

fn drams_fit(ports: &[PortDecl], contents: &[Vec<u64>]) -> bool
    ensures { IsTrue result ↔ AllZip (λ port words. DramFits port words.items) ports.now contents.now }
{
    if ports.len() != contents.len() {
        return false;
    }
    for (port, words) in ports.iter().zip(contents) {
        if !dram_fits(port, words) {
            return false;
        }
    }
    true
}

/// Whether the input has a word for each argument and all words of each DRAM, each a word of its type.
pub fn fits(ports: &Ports, input: &Input) -> bool
    ensures { IsTrue result ↔ Fits ports.now input.now }
{
    args_fit(&ports.args, &input.args) && drams_fit(&ports.drams, &input.drams)
}
