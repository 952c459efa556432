//! Worked numbers.
ghost use Rattle.sp_beat_words.specs.Example.{WorkedNumbers};

/// The numbers of two copies and of one. It does nothing: what it ensures is the example.
pub fn worked_numbers()
    ensures { WorkedNumbers }
{}
