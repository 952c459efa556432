//! Laws of promised nets and of banks. A law is a function whose contract is the law, and whose body is empty.

ghost use Rattle.sp_taps.specs.Laws.{TapLaws};

/// Nets that are promised and then driven are no open nets; what is known of a bank, and of a net that is to be driven, stays
/// known.
pub fn tap_laws()
    ensures { TapLaws }
{}
