use sp_gates::one;
use sp_netlist::Builder;
use sp_pipe::{Part, emit, worked_body, worked_list};
use std::test::Fail;

// Its nets are the one that is always 1, the issue one cycle after the start, and two registers up to its end.
#[test]
fn a_body_without_operations_is_an_issue_and_an_end(rt: HostRuntime) -> Result<(), Fail> {
    let alloc = rt.alloc();
    let mut builder = Builder::new(alloc);
    let start = one(&mut builder)?;
    let part = Part {
        start,
        groups: None,
        ops: Vec::new(alloc),
        ii: 1,
        latency: 2,
    };
    let ends = emit(alloc, &mut builder, &part)?;
    assert_eq!(rt; ends.start.number(), 0);
    assert_eq!(rt; ends.done.number(), 4);
    assert_eq!(rt; ends.nets.len(), 0);
    Ok(())
}

// The ones that are always 1 are 0 and 1, the issue is 2, its end 4 and the word 5; the word waits a cycle in 6, and the
// enable is the issue a cycle later, 7.
#[test]
fn an_access_is_its_enable_and_its_operands(rt: HostRuntime) -> Result<(), Fail> {
    let alloc = rt.alloc();
    let mut builder = Builder::new(alloc);
    let start = one(&mut builder)?;
    let ends = worked_body(alloc, &mut builder, start)?;
    assert_eq!(rt; ends.done.number(), 4);
    assert_eq!(rt; ends.nets.len(), 2);
    assert_eq!(rt; ends.nets[0].number(), 7);
    assert_eq!(rt; ends.nets[1].number(), 6);
    Ok(())
}

// The ones that are always 1 are 0 and 1, and the word is 2: it stands at once, so no register comes after it.
#[test]
fn a_list_gives_its_word(rt: HostRuntime) -> Result<(), Fail> {
    let alloc = rt.alloc();
    let mut builder = Builder::new(alloc);
    let issue = one(&mut builder)?;
    let word = worked_list(alloc, &mut builder, issue)?;
    assert_eq!(rt; word.number(), 2);
    Ok(())
}
