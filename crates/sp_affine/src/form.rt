ghost use Rattle.std.specs.Prelude.{◌≡◌, ◌↔◌, IsTrue};
ghost use Rattle.sp_affine.specs.declared.form.FormError.TheVariants.{Memory};

use std::alloc::AllocError;
use std::error::Error;
use std::fmt;
use std::marker::Model;

/// `coefs[0] * x0 + coefs[1] * x1 + .. + constant`, over the values of counters, and plus the
/// unknown value of the symbol where there is one.
#[derive(Clone, Debug, Drop)]
pub struct Form {
    pub coefs: Vec<i64>,
    pub constant: i64,
    pub symbol: Option<u32>,
}

impl Model for Form {
    ghost use Rattle.sp_affine.specs.Affine.{Affine};

    ghost Value = { Affine };

    ghost view = { λ f. record { coefs = f.coefs.items; constant = f.constant; symbol = f.symbol } };
}

/// Why an operation gives no form.
#[derive(Clone, Copy, Debug, PartialEq, Eq, Drop)]
pub enum FormError {
    /// A coefficient or the constant leaves `i64`.
    Wide,
    /// Two symbols would be left, or one with a factor other than 1.
    Symbols,
    /// An allocation failed.
    Memory,
}

impl fmt::Display for FormError {
    fn fmt<W: fmt::Write>(&self, f: &mut fmt::Formatter<W>) -> fmt::Result {
        match self {
            FormError::Wide => write!(f, "a number of the form leaves 64 bits"),
            FormError::Symbols => write!(
                f,
                "the form would have more than one symbol, or a multiple of one"
            ),
            FormError::Memory => write!(f, "out of memory"),
        }
    }
}

impl Error for FormError {}

impl From<AllocError> for FormError {
    ghost from_gives = { λ _ e. e ≡ Memory };

    fn from(_e: AllocError) -> FormError {
        FormError::Memory
    }
}

impl PartialEq for Form {
    ghost use Rattle.sp_affine.specs.Equality.{forms_equal, forms_equal-equivalence};
    ghost use Rattle.std.specs.Cmp.{partial_equiv_from_equiv};

    ghost eq = { forms_equal };

    ghost laws = { partial_equiv_from_equiv forms_equal-equivalence };

    fn eq(&self, other: &Form) -> bool
        ensures test { result ≡ forms_equal self.now other.now }
        ensures same { IsTrue result ↔ (self.now ≡ other.now) }
    {
        self.coefs == other.coefs
            && (self.constant == other.constant && self.symbol == other.symbol)
    }
}

impl Eq for Form {
    ghost use Rattle.sp_affine.specs.Equality.{forms_equal-equivalence};

    ghost laws = { forms_equal-equivalence };
}

impl Form {
    /// Whether two forms have the same coefficients and the same symbol, so that they differ by a
    /// constant.
    pub fn has_linear_part_of(&self, other: &Form) -> bool
        ensures { IsTrue result ↔ ((self.now.coefs ≡ other.now.coefs) × (self.now.symbol ≡ other.now.symbol)) }
    {
        self.coefs == other.coefs && self.symbol == other.symbol
    }
}
