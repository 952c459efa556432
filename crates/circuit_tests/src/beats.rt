use sp_sim::{Sim, SimEnd};
use sp_words::Input;
use sp_worked_beats::worked_loop;
use std::test::Fail;

// Beats begin in cycles 1, 4 and 9: the first one takes 2 cycles, those of the first slot's member, the others 4, those of the
// second one's. The last beat ends in cycle 13.
#[test]
fn a_loop_in_beats_ends_as_worked_out(rt: HostRuntime) -> Result<(), Fail> {
    let alloc = rt.alloc();
    let netlist = worked_loop(alloc)?;
    let input = Input {
        args: Vec::new(alloc),
        drams: Vec::new(alloc),
    };
    let mut sim = Sim::load(alloc, &netlist, &input, &[])?;
    assert_eq!(rt; sim.run(100), SimEnd::Done { cycles: 14 });
    Ok(())
}
