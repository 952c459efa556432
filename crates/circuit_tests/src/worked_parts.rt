use sp_netlist::Netlist;
use sp_sim::{Sim, SimEnd};
use sp_words::Input;
use sp_worked_parts::{
    worked_load, worked_machine, worked_memory, worked_queue, worked_rows, worked_save,
    worked_store,
};
use std::alloc::Global;
use std::test::Fail;

fn push_number(alloc: Global, text: &mut String, number: u64) -> Result<(), Fail> {
    text.push_str(format!(in alloc; " {number}")?.as_str())?;
    Ok(())
}

/// The cycle in which a simulation was done, and the words of its outputs then.
fn push_end(alloc: Global, text: &mut String, sim: &Sim) -> Result<(), Fail> {
    if let Some(SimEnd::Done { cycles }) = sim.ended() {
        let output = sim.outputs(alloc)?;
        push_number(alloc, text, cycles)?;
        for word in &output.outs {
            push_number(alloc, text, *word)?;
        }
    }
    text.push_str(";")?;
    Ok(())
}

fn push_run(alloc: Global, text: &mut String, netlist: &Netlist) -> Result<(), Fail> {
    let input = Input {
        args: Vec::new(alloc),
        drams: Vec::new(alloc),
    };
    let mut sim = Sim::load(alloc, netlist, &input, &[])?;
    sim.run(100);
    push_end(alloc, text, &sim)
}

// Element c takes 10 + c in cycle c, up to cycle 3. From cycle 4 on one reader asks for the elements from 0 upwards, and one for
// those from 3 downwards, which stand in the other bank; each has its word two cycles later.
#[test]
fn readers_have_their_elements_two_cycles_later(rt: HostRuntime) -> Result<(), Fail> {
    let alloc = rt.alloc();
    let mut text = String::new(alloc);
    for last in 6..10 {
        let netlist = worked_memory(alloc, last)?;
        push_run(alloc, &mut text, &netlist)?;
    }
    assert_eq!(rt; text.as_str(), " 6 10 13; 7 11 12; 8 12 11; 9 13 10;");
    Ok(())
}

// The words 10, 11 and 12 are put in the cycles 0, 1 and 2, and taken in the cycles 2, 3 and 4.
#[test]
fn takes_have_the_first_word_two_cycles_later(rt: HostRuntime) -> Result<(), Fail> {
    let alloc = rt.alloc();
    let mut text = String::new(alloc);
    for last in 4..7 {
        let netlist = worked_queue(alloc, last)?;
        push_run(alloc, &mut text, &netlist)?;
    }
    assert_eq!(rt; text.as_str(), " 4 10; 5 11; 6 12;");
    Ok(())
}

// In each cycle 10 and its number is loaded into the newest of three rows, and then rows turn: so in cycle t the second row has
// 9 + t, and the oldest 8 + t. Both words are there two cycles later.
#[test]
fn rows_that_turn_are_read_two_cycles_later(rt: HostRuntime) -> Result<(), Fail> {
    let alloc = rt.alloc();
    let mut text = String::new(alloc);
    for last in 3..8 {
        let netlist = worked_rows(alloc, last)?;
        push_run(alloc, &mut text, &netlist)?;
    }
    assert_eq!(rt;
        text.as_str(),
        " 3 0 10; 4 10 11; 5 11 12; 6 12 13; 7 13 14;"
    );
    Ok(())
}

// Started in cycle 0, its first part in cycle 1 and its test in cycle 3. A turn takes 7 cycles: the test is done in cycle 4, the
// body starts in 5 and is done in 7, the next part is done in 9, and the test starts again in 10. It is done a cycle after the
// last test.
#[test]
fn a_machine_is_done_after_its_turns(rt: HostRuntime) -> Result<(), Fail> {
    let alloc = rt.alloc();
    let mut text = String::new(alloc);
    for turns in 0..3 {
        let netlist = worked_machine(alloc, turns)?;
        push_run(alloc, &mut text, &netlist)?;
    }
    assert_eq!(rt; text.as_str(), " 5 0; 12 1; 19 2;");
    Ok(())
}

// A loop of so many groups is started in cycle 0: group k is issued in cycle 1 + k and writes 2 k a cycle later. Its latency is 2,
// so it is done two cycles after it issued the last group; then its last element is asked for, whose word comes after two more.
#[test]
fn a_loop_writes_its_elements(rt: HostRuntime) -> Result<(), Fail> {
    let alloc = rt.alloc();
    let mut text = String::new(alloc);
    for groups in 1..5 {
        let netlist = worked_store(alloc, groups)?;
        push_run(alloc, &mut text, &netlist)?;
    }
    assert_eq!(rt; text.as_str(), " 5 0; 6 2; 7 4; 8 6;");
    Ok(())
}

/// A DRAM with the words from 1 to 24, or with 24 times the word 0.
fn dram(alloc: Global, is_counted: bool) -> Result<Input, Fail> {
    let mut words = Vec::new(alloc);
    for index in 0..24 {
        words.push(if is_counted { index + 1 } else { 0 })?;
    }
    let mut drams = Vec::new(alloc);
    drams.push(words)?;
    Ok(Input {
        args: Vec::new(alloc),
        drams,
    })
}

fn push_load(
    alloc: Global,
    text: &mut String,
    from: u32,
    until: u32,
    delays: &[u32],
) -> Result<(), Fail> {
    let netlist = worked_load(alloc, from, until)?;
    let input = dram(alloc, true)?;
    let mut sim = Sim::load(alloc, &netlist, &input, delays)?;
    sim.run(100);
    push_end(alloc, text, &sim)
}

/// The cycle in which a store was done, and its DRAM then.
fn push_save(
    alloc: Global,
    text: &mut String,
    from: u32,
    until: u32,
    delays: &[u32],
) -> Result<(), Fail> {
    let netlist = worked_save(alloc, from, until)?;
    let input = dram(alloc, false)?;
    let mut sim = Sim::load(alloc, &netlist, &input, delays)?;
    sim.run(100);
    if let Some(SimEnd::Done { cycles }) = sim.ended() {
        push_number(alloc, text, cycles)?;
        text.push_str(":")?;
        let output = sim.outputs(alloc)?;
        for words in &output.drams {
            for word in words {
                push_number(alloc, text, *word)?;
            }
        }
    }
    text.push_str(";")?;
    Ok(())
}

// Started in cycle 0, a load asks in cycle 1. A word moves in each cycle from 2 on, later by the channel's delay, and is written a
// cycle later with its index, so in the cycle after the load's end the digits are the words 3, 4 and 5 and the indices 0, 1 and 2.
// Without a word the load is done in cycle 2.
#[test]
fn a_load_writes_its_slice(rt: HostRuntime) -> Result<(), Fail> {
    let alloc = rt.alloc();
    let mut text = String::new(alloc);
    push_load(alloc, &mut text, 2, 5, &[])?;
    push_load(alloc, &mut text, 2, 5, &[3])?;
    push_load(alloc, &mut text, 7, 8, &[])?;
    push_load(alloc, &mut text, 5, 5, &[])?;
    assert_eq!(rt; text.as_str(), " 6 357; 9 357; 4 8; 3 0;");
    Ok(())
}

// A store's words are 10, 11 and so on; they move in the cycles in which a load's do, and the store is done a cycle after the last
// one. Past 16 words a second burst waits for the second delay.
#[test]
fn a_store_moves_its_slice(rt: HostRuntime) -> Result<(), Fail> {
    let alloc = rt.alloc();
    let mut text = String::new(alloc);
    push_save(alloc, &mut text, 2, 5, &[])?;
    push_save(alloc, &mut text, 2, 5, &[3])?;
    push_save(alloc, &mut text, 5, 5, &[])?;
    push_save(alloc, &mut text, 2, 22, &[])?;
    push_save(alloc, &mut text, 2, 22, &[3])?;
    push_save(alloc, &mut text, 2, 22, &[3, 2])?;
    let few = ": 0 0 10 11 12 0 0 0 0 0 0 0 0 0 0 0 0 0 0 0 0 0 0 0;";
    let none = ": 0 0 0 0 0 0 0 0 0 0 0 0 0 0 0 0 0 0 0 0 0 0 0 0;";
    let many = ": 0 0 10 11 12 13 14 15 16 17 18 19 20 21 22 23 24 25 26 27 28 29 0 0;";
    let wanted = format!(in alloc; " 5{few} 8{few} 2{none} 22{many} 25{many} 27{many}")?;
    assert_eq!(rt; text.as_str(), wanted.as_str());
    Ok(())
}
