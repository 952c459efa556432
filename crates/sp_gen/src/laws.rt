//! A worked number.
ghost use Rattle.sp_gen.specs.Worked.{WorkedNumbers};

/// What is drawn for the number 0. The function does nothing: what it ensures is the law.
pub fn worked_numbers()
    ensures { WorkedNumbers }
{}
