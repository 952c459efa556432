use sp_tree::{CtrId, Program, ValId};
use sp_words::Ports;

#[test]
fn numbers_are_kept(rt: HostRuntime) {
    assert_eq!(rt; ValId::new(7).number(), 7);
    assert_eq!(rt; CtrId::new(u32::MAX).number(), u32::MAX);
}

#[test]
fn a_program_without_declarations_has_none(rt: HostRuntime) {
    let alloc = rt.alloc();
    let ports = Ports {
        args: Vec::new(alloc),
        outs: Vec::new(alloc),
        drams: Vec::new(alloc),
    };
    let program = Program::new(
        ports,
        Vec::new(alloc),
        Vec::new(alloc),
        Vec::new(alloc),
        Vec::new(alloc),
    );
    assert_eq!(rt; program.ports().args.len(), 0);
    assert_eq!(rt; program.mems().len(), 0);
    assert_eq!(rt; program.vals().len(), 0);
    assert_eq!(rt; program.counters().len(), 0);
    assert_eq!(rt; program.body().len(), 0);
}
