//! A record of a scheme and a group that shows that the scheme separates the group.
ghost use Rattle.std.specs.Prelude.{◌≡◌, ◌↔◌, ℕ, Some, length, map, IsTrue, IfOk, OnOk};
ghost use Rattle.sp_bank.specs.Separation.{Separates, IsGroup, IsFirstClash, differences_of};
ghost use Rattle.sp_bank.specs.Texts.{error_text};
ghost use Rattle.sp_bank.specs.declared.certificate.CertError.TheVariants.{Memory};

use crate::clash::{access_of, first_clash, separates};
use crate::residue::residue;
use crate::scheme::Scheme;
use sp_affine::Form;
use std::alloc::{AllocError, Global};
use std::error::Error;
use std::fmt;

/// That a scheme separates a group.
#[derive(Debug, Drop)]
pub struct Certificate {
    pub scheme: Scheme,
    /// The number of the group, as it was handed in.
    pub group: u32,
    /// For each access `alpha·c` modulo `banks * block`, where c are the constants of its forms.
    pub differences: Vec<i64>,
}

/// Why there is no certificate.
#[derive(Clone, Copy, Debug, PartialEq, Eq, Drop)]
pub enum CertError {
    /// These two accesses are not separated.
    Pair { first: u32, second: u32 },
    /// An allocation failed.
    Memory,
}

impl fmt::Display for CertError {
    ghost output = { λ error. Some (error_text error) };

    fn fmt<W: fmt::Write>(&self, f: &mut fmt::Formatter<W>) -> fmt::Result {
        match self {
            CertError::Pair { first, second } => {
                write!(f, "accesses {first} and {second} are not separated")
            }
            CertError::Memory => write!(f, "out of memory"),
        }
    }
}

impl Error for CertError {}

impl From<AllocError> for CertError {
    ghost from_gives = { λ _ e. e ≡ Memory };

    fn from(_e: AllocError) -> CertError {
        CertError::Memory
    }
}

/// The certificate of a scheme and a group, or the first pair of accesses that are not separated:
/// that with the least first access, and then the least second one.
pub fn certify(
    alloc: Global,
    s: &Scheme,
    number: u32,
    group: &[Form],
) -> Result<Certificate, CertError>
    requires { IsGroup (length s.now.alpha) group.now }
    ensures scheme { IfOk result (λ c. c.scheme ≡ s.now) }
    ensures number { IfOk result (λ c. c.group ≡ number) }
    ensures differences { IfOk result (λ c. c.differences.items ≡ differences_of s.now group.now) }
    ensures separated { OnOk result (Separates s.now group.now) }
    ensures pair { (first second : ℕ) →
        (result ≡ Err (CertError.Pair first second)) ↔ IsFirstClash s.now group.now first second }
{
    if let Some((first, second)) = first_clash(s, group) {
        return Err(CertError::Pair {
            first: first as u32,
            second: second as u32,
        });
    }
    let differences = residues(alloc, s, group)?;
    let scheme = s.clone()?;
    Ok(Certificate {
        scheme,
        group: number,
        differences,
    })
}

/// Whether a certificate's differences are those of this group and its scheme separates the group.
pub fn check_certificate(c: &Certificate, group: &[Form]) -> bool
    requires { IsGroup (length c.now.scheme.alpha) group.now }
    ensures { IsTrue result ↔
        ((c.now.differences.items ≡ differences_of c.now.scheme group.now) × Separates c.now.scheme group.now) }
{
    has_differences_of(&c.scheme, &c.differences, group) && separates(&c.scheme, group)
}

fn residues(alloc: Global, s: &Scheme, group: &[Form]) -> Result<Vec<i64>, AllocError>
    requires { IsGroup (length s.now.alpha) group.now }
    ensures { IfOk result (λ v. v.items ≡ differences_of s.now group.now) }
{
    let rank = s.alpha.len();
    let count = group.len() / rank;
    let mut made = Vec::with_capacity(alloc, count)?;
    for u in 0..count {
        made.push(i64::from(residue(s, access_of(rank, group, u))))?;
    }
    Ok(made)
}

fn has_differences_of(s: &Scheme, differences: &[i64], group: &[Form]) -> bool
    requires { IsGroup (length s.now.alpha) group.now }
    ensures { IsTrue result ↔ (differences.now ≡ differences_of s.now group.now) }
{
    let rank = s.alpha.len();
    if differences.len() != group.len() / rank {
        return false;
    }
    for (u, difference) in differences.iter().enumerate() {
        if *difference != i64::from(residue(s, access_of(rank, group, u))) {
            return false;
        }
    }
    true
}
