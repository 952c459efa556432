//! What the definitions come to. A law is a function whose contract is the law, and whose body is empty.
ghost use Rattle.sp_waves.specs.Identifiers.{IdentifiersDiffer};

/// No two variables have one identifier.
pub fn identifiers_differ()
    ensures { IdentifiersDiffer }
{}
