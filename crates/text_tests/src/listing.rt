use sp_listing::write;
use sp_netlist::{Builder, Cell};
use std::test::Fail;

#[test]
fn the_smallest_netlist_is_listed(rt: HostRuntime) -> Result<(), Fail> {
    let alloc = rt.alloc();
    let mut builder = Builder::new(alloc);
    let one = builder.promise(1, true)?;
    builder.add(Cell::Const(one, 1, 1))?;
    builder.add(Cell::Done(one))?;
    let text = write(alloc, &builder.finish(alloc)?)?;
    assert_eq!(rt; text.as_str(), "netlist 1\nconst 0 1 1\ndone 0\n");
    Ok(())
}
