use sp_gates::one;
use sp_netlist::Builder;
use sp_sequence::{Sequence, emit};
use std::test::Fail;

// The start is 0, a net that is always 1 is 1, and the end follows the start in 2.
#[test]
fn without_slots_it_is_done_a_cycle_later(rt: HostRuntime) -> Result<(), Fail> {
    let alloc = rt.alloc();
    let mut builder = Builder::new(alloc);
    let start = one(&mut builder)?;
    let slots = Vec::new(alloc);
    let part = Sequence { start, slots };
    let ends = emit(alloc, &mut builder, &part)?;
    assert_eq!(rt; ends.start.number(), 0);
    assert_eq!(rt; ends.nets.len(), 0);
    assert_eq!(rt; ends.done.number(), 2);
    Ok(())
}
