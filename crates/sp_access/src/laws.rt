//! Laws of accesses. A law is a function whose contract is the law, and whose body is empty.

ghost use Rattle.sp_access.specs.Laws.{AccessLaws};

/// Where all accesses that ask in a cycle ask for one place, to serve the last one is to serve each.
pub fn agreeing_accesses()
    ensures { AccessLaws }
{}
