//! Laws of what a loop reserves. The functions do nothing: what they ensure are the laws.
ghost use Rattle.sp_loop_nets.specs.Laws.{LeftAreReserved, RowsStay, RowsTakeWords};

/// Rows of promised wires still await what drives them, whatever is reserved behind them.
pub fn rows_stay()
    ensures { RowsStay }
{}

/// Of reserved nets those are left, in their order, that the part behind doesn't drive.
pub fn left_are_reserved()
    ensures { LeftAreReserved }
{}

/// Rows that move on with the counters take their words and masks along.
pub fn rows_take_words()
    ensures { RowsTakeWords }
{}
