//! Laws of requests. A law is a function whose contract is the law, and whose body is empty.

ghost use Rattle.sp_requests.specs.Laws.{RequestLaws};

/// Where accesses that are enabled in a cycle at one copy and one bank are at one element, inside of the memory, what they ask
/// of a bank agrees, and what is written there is what is written to its elements.
pub fn requests_are_accesses()
    ensures { RequestLaws }
{}
