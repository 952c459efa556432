//! Laws of banks whose ports are shared. A law is a function whose contract is the law, and whose body is empty.

ghost use Rattle.sp_bank_ports.specs.Laws.{ServedLaws};

/// Where accesses agree in their place, a bank that serves the last one that asks at each port is written by all of them, one
/// after the other, and each one that reads finds the word of its place.
pub fn served_banks()
    ensures { ServedLaws }
{}
