//! What a controller doesn't change. The function does nothing: what it ensures is the law.

ghost use Rattle.sp_along.specs.AlongSymbols.{SymbolsStay};

/// A register or an argument that a controller doesn't change holds, at each event and slice inside of a run of it, what it
/// held as that run began.
pub fn symbols_stay()
    ensures { SymbolsStay }
{}
