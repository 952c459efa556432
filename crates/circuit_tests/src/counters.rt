use sp_counters::{Counters, emit};
use sp_gates::one;
use sp_netlist::Builder;
use std::test::Fail;

// The start and the step are 0, a net that is always 1 is 1, and a loop without counters has its one group while 2 is 1.
#[test]
fn without_counters_there_is_one_group(rt: HostRuntime) -> Result<(), Fail> {
    let alloc = rt.alloc();
    let mut builder = Builder::new(alloc);
    let start = one(&mut builder)?;
    let counters = Vec::new(alloc);
    let part = Counters {
        start,
        step: start,
        counters,
    };
    let nets = emit(alloc, &mut builder, &part)?;
    assert_eq!(rt; nets.counters.len(), 0);
    assert_eq!(rt; nets.masks.len(), 0);
    assert_eq!(rt; nets.more.number(), 2);
    Ok(())
}
