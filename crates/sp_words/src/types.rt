ghost use Rattle.std.specs.Prelude.{◌+◌, ◌≤◌};

/// A fixed-point type: `whole` bits before the point, a sign bit among them where it is signed, and
/// `frac` bits after it. They are 1 to 64 bits together.
#[derive(Clone, Copy, Debug, PartialEq, Eq, Hash)]
pub struct FixTy {
    signed: bool,
    whole: u8,
    frac: u8,
    pub ghost has_bits: { 1 ≤ whole + frac },
    pub ghost in_a_word: { whole + frac ≤ 64 },
}

/// The type of a word. A `Bit` is computed as an unsigned number of one bit, but is another type.
#[derive(Clone, Copy, Debug, PartialEq, Eq, Hash)]
pub enum Ty {
    Fix(FixTy),
    Bit,
}

impl FixTy {
    ghost use Rattle.std.specs.Prelude.{◌≡◌, ◌↔◌, IsSome, IfSome};
    ghost use Rattle.sp_words.specs.Types.{fix_signed, fix_whole, fix_frac};

    /// The type of `whole` and `frac` bits, if that is 1 to 64 bits together.
    pub fn new(signed: bool, whole: u8, frac: u8) -> Option<FixTy>
        ensures exists { IsSome result ↔ (1 ≤ whole + frac) × (whole + frac ≤ 64) }
        ensures sign { IfSome result (λ ty. fix_signed ty ≡ signed) }
        ensures whole_bits { IfSome result (λ ty. fix_whole ty ≡ whole) }
        ensures frac_bits { IfSome result (λ ty. fix_frac ty ≡ frac) }
    {
        let width = u16::from(whole) + u16::from(frac);
        if width == 0 || width > 64 {
            return None;
        }
        Some(FixTy {
            signed,
            whole,
            frac,
        })
    }

    /// Whether the first of the whole bits is a sign bit.
    pub fn signed(self) -> bool
        ensures { result ≡ fix_signed self }
    {
        self.signed
    }

    /// How many bits stand before the point, the sign bit among them.
    pub fn whole(self) -> u8
        ensures { result ≡ fix_whole self }
    {
        self.whole
    }

    /// How many bits stand after the point.
    pub fn frac(self) -> u8
        ensures { result ≡ fix_frac self }
    {
        self.frac
    }
}

impl Ty {
    ghost use Rattle.std.specs.Prelude.{◌≡◌};
    ghost use Rattle.sp_words.specs.Types.{signed_of, whole_of, frac_of, width_of, int_type};

    /// `Int`, which is signed and has 32 whole bits.
    pub fn int() -> Ty
        ensures { result ≡ int_type }
    {
        Ty::Fix(FixTy {
            signed: true,
            whole: 32,
            frac: 0,
        })
    }

    /// How many bits a word of the type has.
    pub fn width(self) -> u8
        ensures value { result ≡ width_of self }
        ensures has_bits { 1 ≤ result }
        ensures in_a_word { result ≤ 64 }
    {
        match self {
            Ty::Fix(fix) => fix.whole + fix.frac,
            Ty::Bit => 1,
        }
    }

    /// Whether its values have a sign.
    pub fn signed(self) -> bool
        ensures { result ≡ signed_of self }
    {
        match self {
            Ty::Fix(fix) => fix.signed,
            Ty::Bit => false,
        }
    }

    /// How many bits stand before the point, a sign bit among them.
    pub fn whole(self) -> u8
        ensures { result ≡ whole_of self }
    {
        match self {
            Ty::Fix(fix) => fix.whole,
            Ty::Bit => 1,
        }
    }

    /// How many bits stand after the point.
    pub fn frac(self) -> u8
        ensures value { result ≡ frac_of self }
        ensures within { result ≤ width_of self }
    {
        match self {
            Ty::Fix(fix) => fix.frac,
            Ty::Bit => 0,
        }
    }
}
