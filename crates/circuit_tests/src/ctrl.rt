use sp_ctrl::worked_branch;
use sp_gates::one;
use sp_netlist::Builder;
use std::test::Fail;

// The ones that are always 1 are 0, 1 and 8, the starts and dones of three parts 2 to 7; 9 is the test that gave 1, 13 the
// one that gave 0, over 10 to 12, and 14 the done of either part, which the end follows in 15.
#[test]
fn a_branch_drives_starts_and_has_an_end(rt: HostRuntime) -> Result<(), Fail> {
    let alloc = rt.alloc();
    let mut builder = Builder::new(alloc);
    let start = one(&mut builder)?;
    let ends = worked_branch(alloc, &mut builder, start, start)?;
    assert_eq!(rt; ends.start.number(), 0);
    assert_eq!(rt; ends.done.number(), 15);
    assert_eq!(rt; ends.nets.len(), 0);
    Ok(())
}
