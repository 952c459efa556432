//! Ports: inputs, outputs and DRAMs.
ghost use Rattle.std.specs.Prelude.{◌≡◌, ◌≢◌, ◌≤◌, ℕ, List, [], ◌∷◌, All, decimal, length, map, MatchOption, IfOk};
ghost use Rattle.sp_words.specs.declared.types.Ty.{Ty};
ghost use Rattle.sp_words.specs.Names.{IsName};
ghost use Rattle.sp_netlist.specs.Cells.{plain_cell, in_cell, out_cell, dram_cell};
ghost use Rattle.sp_netlist.specs.Rules.{IsLength};
ghost use Rattle.sp_listing.specs.declared.kind.Kind.TheVariants.{In, Out, Dram};
ghost use Rattle.sp_listing.specs.Text.{type_text};
ghost use Rattle.sp_listing.specs.Reading.{IsFormed, IsNumber, IsDramNumber};
ghost use Rattle.sp_listing.specs.Readers.{texts, parts_of, IsOf};

use crate::NoMemory;
use crate::parts::{dram_of, is_port_name, length_of, net_of, type_of};
use sp_netlist::{Cell, NetId};
use sp_words::Ty;
use std::alloc::Global;

fn port<'a>(parts: &[&'a str]) -> Option<(&'a str, NetId, Ty)>
    ensures { MatchOption result ((name : List ℕ) (net : ℕ) (ty : Ty) → IsName name → IsNumber net → texts parts.now ≢ name ∷ decimal net ∷ type_text ty ∷ []) (λ p. IsName p.0.now × IsNumber p.1 × (texts parts.now ≡ p.0.now ∷ decimal p.1 ∷ type_text p.2 ∷ [])) }
{
    let [name, net, ty] = parts else {
        return None;
    };
    if !is_port_name(name) {
        return None;
    }
    let net = net_of(net)?;
    let ty = type_of(ty)?;
    Some((name, net, ty))
}

pub fn input(alloc: Global, parts: &[&str]) -> Result<Option<Cell>, NoMemory>
    ensures { IfOk result (λ r. MatchOption r ((name : List ℕ) (net : ℕ) (ty : Ty) → IsFormed (in_cell name net ty) → texts parts.now ≢ parts_of (in_cell name net ty)) (λ cell. IsOf In (texts parts.now) (plain_cell cell))) }
{
    let Some((name, net, ty)) = port(parts) else {
        return Ok(None);
    };
    let name = String::from_str(alloc, name)?;
    Ok(Some(Cell::In(name, net, ty)))
}

pub fn output(alloc: Global, parts: &[&str]) -> Result<Option<Cell>, NoMemory>
    ensures { IfOk result (λ r. MatchOption r ((name : List ℕ) (net : ℕ) (ty : Ty) → IsFormed (out_cell name net ty) → texts parts.now ≢ parts_of (out_cell name net ty)) (λ cell. IsOf Out (texts parts.now) (plain_cell cell))) }
{
    let Some((name, net, ty)) = port(parts) else {
        return Ok(None);
    };
    let name = String::from_str(alloc, name)?;
    Ok(Some(Cell::Out(name, net, ty)))
}

fn dimensions(alloc: Global, words: &[&str]) -> Result<Option<Vec<u32>>, NoMemory>
    ensures { IfOk result (λ r. MatchOption r ((dims : List ℕ) → All IsLength dims → texts words.now ≢ map decimal dims) (λ dims. All IsLength dims.items × (texts words.now ≡ map decimal dims.items))) }
{
    let mut dims = Vec::new(alloc);
    for word in words {
        let Some(dim) = length_of(word) else {
            return Ok(None);
        };
        dims.push(dim)?;
    }
    Ok(Some(dims))
}

fn header<'a>(dram: &str, name: &'a str, ty: &str) -> Option<(u32, &'a str, Ty)>
    ensures { MatchOption result ((n : ℕ) (t : Ty) → IsDramNumber n → IsName name.now → dram.now ∷ ty.now ∷ [] ≢ decimal n ∷ type_text t ∷ []) (λ p. IsName name.now × (p.1.now ≡ name.now) × IsDramNumber p.0 × (dram.now ≡ decimal p.0) × (ty.now ≡ type_text p.2)) }
{
    if !is_port_name(name) {
        return None;
    }
    let dram = dram_of(dram)?;
    let ty = type_of(ty)?;
    Some((dram, name, ty))
}

pub fn memory(alloc: Global, parts: &[&str]) -> Result<Option<Cell>, NoMemory>
    ensures { IfOk result (λ r. MatchOption r ((dram : ℕ) (name : List ℕ) (ty : Ty) (dims : List ℕ) → IsFormed (dram_cell dram name ty dims) → texts parts.now ≢ parts_of (dram_cell dram name ty dims)) (λ cell. IsOf Dram (texts parts.now) (plain_cell cell))) }
{
    let [dram, name, ty, dims @ ..] = parts else {
        return Ok(None);
    };
    if dims.is_empty() || dims.len() > 3 {
        return Ok(None);
    }
    let Some((dram, name, ty)) = header(dram, name, ty) else {
        return Ok(None);
    };
    let Some(dims) = dimensions(alloc, dims)? else {
        return Ok(None);
    };
    let name = String::from_str(alloc, name)?;
    Ok(Some(Cell::Dram(dram, name, ty, dims)))
}
