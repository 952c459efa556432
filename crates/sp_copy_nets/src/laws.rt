//! Laws of nets of numbers. The functions do nothing: what they ensure are the laws.
ghost use Rattle.sp_copy_nets.specs.Laws.{NumbersStand, NumbersStay};

/// Nets of numbers that were promised still await what drives them, whatever is reserved behind them.
pub fn numbers_stay()
    ensures { NumbersStay }
{}

/// Nets of numbers that await what drives them may be read.
pub fn numbers_stand()
    ensures { NumbersStand }
{}
