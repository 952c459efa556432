use sp_listing::read;
use sp_netlist::{Netlist, Port};
use sp_sim::{Sim, SimEnd};
use sp_words::{Input, Output};
use std::alloc::Global;
use std::test::Fail;

/// Each line: the arguments, the contents of the DRAMs, the delays, how many cycles are run, the listing with `|` for
/// its line ends, and what comes of it, worked out by hand. `-` stands for none, and DRAMs are parted by `/`.
const RUNS: &str =
    "4;-;-;10;netlist 1|in x 0 s32.0|const 1 32 3|op 2 s32.0 add 0 1|reg 3 32 0 2 4|const 4 1 1|reg 5 1 0 4 4|out y 3 s32.0|done 5|=>done 1, out 7
4;-;-;1;netlist 1|in x 0 s32.0|const 1 32 3|op 2 s32.0 add 0 1|reg 3 32 0 2 4|const 4 1 1|reg 5 1 0 4 4|out y 3 s32.0|done 5|=>done 1, out 7
4;-;-;0;netlist 1|in x 0 s32.0|const 1 32 3|op 2 s32.0 add 0 1|reg 3 32 0 2 4|const 4 1 1|reg 5 1 0 4 4|out y 3 s32.0|done 5|=>spent
4;-;-;10;netlist 1|in x 70 s32.0|const 31 32 3|op 20 s32.0 add 70 31|reg 53 32 0 20 14|const 14 1 1|reg 5 1 0 14 14|out y 53 s32.0|done 5|=>done 1, out 7
-;-;-;10;netlist 1|in x 0 s32.0|reg 5 1 0 4 4|const 4 1 1|done 5|=>the input does not fit port 0
4,5;-;-;10;netlist 1|in x 0 s32.0|reg 5 1 0 4 4|const 4 1 1|done 5|=>the input does not fit port 1
4294967296;-;-;10;netlist 1|in x 0 s32.0|reg 5 1 0 4 4|const 4 1 1|done 5|=>the input does not fit port 0
4;-;-;10;netlist 1|in x 0 s32.0|dram 0 a u8.0 2|reg 5 1 0 4 4|const 4 1 1|done 5|=>the input does not fit port 1
4;1,256;-;10;netlist 1|in x 0 s32.0|dram 0 a u8.0 2|reg 5 1 0 4 4|const 4 1 1|done 5|=>the input does not fit port 1
4;1,2,3;-;10;netlist 1|in x 0 s32.0|dram 0 a u8.0 2|reg 5 1 0 4 4|const 4 1 1|done 5|=>the input does not fit port 1
4;1,2/3;-;10;netlist 1|in x 0 s32.0|dram 0 a u8.0 2|reg 5 1 0 4 4|const 4 1 1|done 5|=>the input does not fit port 2
4;1,2;-;10;netlist 1|in x 0 s32.0|dram 0 a u8.0 2|reg 5 1 0 4 4|const 4 1 1|done 5|=>done 1, dram 1 2
-;-;-;10;netlist 1|const 0 1 1|const 1 32 0|reg 2 1 0 0 0|bank 0 8 4|read 3 0 2 1|read 4 0 2 1|const 5 1 0|done 5|=>conflict 1 at bank 0, read
-;-;-;10;netlist 1|const 0 1 1|const 1 32 0|reg 2 1 0 0 0|bank 0 8 4|read 3 0 2 1|const 5 1 0|done 5|=>spent
-;-;-;10;netlist 1|const 0 1 1|const 1 32 0|const 6 8 9|reg 2 1 0 0 0|bank 0 8 4|write 0 2 1 6|write 0 2 1 6|const 5 1 0|done 5|=>conflict 1 at bank 0, write
-;-;-;10;netlist 1|const 0 1 1|const 1 32 0|const 6 8 9|bank 0 8 4|bank 1 8 4|read 3 1 0 1|read 4 1 0 1|write 0 0 1 6|write 0 0 1 6|done 0|=>conflict 0 at bank 0, write
-;-;-;10;netlist 1|const 0 1 1|const 1 32 0|const 6 8 9|bank 0 8 4|read 3 0 0 1|read 4 0 0 1|write 0 0 1 6|write 0 0 1 6|done 0|=>conflict 0 at bank 0, read
-;-;-;10;netlist 1|const 0 1 1|const 1 32 3|const 2 8 9|bank 0 8 4|write 0 0 1 2|read 3 0 0 1|out y 3 u8.0|reg 5 1 0 0 0|reg 6 1 0 5 0|done 6|=>done 2, out 9
-;-;-;10;netlist 1|const 0 1 1|const 1 32 4|const 2 8 9|bank 0 8 4|write 0 0 1 2|read 3 0 0 1|out y 3 u8.0|reg 5 1 0 0 0|reg 6 1 0 5 0|done 6|=>done 2, out 0
-;1,2,3,4,5,6,7,8,9,10,11,12,13,14,15,16,17,18,19,20;-;90;netlist 1|dram 0 a s32.0 20|const 0 1 1|const 1 32 1|const 2 32 19|op 4 s32.0 add 3 1|reg 3 32 0 4 5|load 0 0 5 6 0 7 3|op 7 s32.0 eq 3 2|op 8 bit and 5 7|reg 9 1 0 8 0|out y 6 s32.0|done 9|=>done 21, out 20, dram 1 2 3 4 5 6 7 8 9 10 11 12 13 14 15 16 17 18 19 20
-;0,0,0,0,0,0,0,0,0,0,0,0,0,0,0,0,0,0,0,0;3;90;netlist 1|dram 0 a s32.0 20|const 0 1 1|const 1 32 1|const 2 32 19|op 4 s32.0 add 3 1|reg 3 32 0 4 5|load 0 0 5 6 0 7 3|op 7 s32.0 eq 3 2|op 8 bit and 5 7|reg 9 1 0 8 0|out y 6 s32.0|done 9|=>done 24, out 0, dram 0 0 0 0 0 0 0 0 0 0 0 0 0 0 0 0 0 0 0 0
-;0,0,0,0,0,0,0,0,0,0,0,0,0,0,0,0,0,0,0,0;3,2;90;netlist 1|dram 0 a s32.0 20|const 0 1 1|const 1 32 1|const 2 32 19|op 4 s32.0 add 3 1|reg 3 32 0 4 5|load 0 0 5 6 0 7 3|op 7 s32.0 eq 3 2|op 8 bit and 5 7|reg 9 1 0 8 0|out y 6 s32.0|done 9|=>done 26, out 0, dram 0 0 0 0 0 0 0 0 0 0 0 0 0 0 0 0 0 0 0 0";

/// Numbers parted by commas, or none for `-`.
fn numbers(alloc: Global, text: &str) -> Result<Vec<u64>, Fail> {
    let mut numbers = Vec::new(alloc);
    if text == "-" {
        return Ok(numbers);
    }
    for word in text.split(',') {
        numbers.push(word.parse::<u64>()?)?;
    }
    Ok(numbers)
}

fn contents(alloc: Global, text: &str) -> Result<Vec<Vec<u64>>, Fail> {
    let mut drams = Vec::new(alloc);
    if text == "-" {
        return Ok(drams);
    }
    for words in text.split('/') {
        drams.push(numbers(alloc, words)?)?;
    }
    Ok(drams)
}

fn delays(alloc: Global, text: &str) -> Result<Vec<u32>, Fail> {
    let mut delays = Vec::new(alloc);
    for delay in &numbers(alloc, text)? {
        delays.push(u32::try_from(*delay)?)?;
    }
    Ok(delays)
}

/// The netlist of a listing with `|` for its line ends.
fn netlist_of(alloc: Global, text: &str) -> Result<Netlist, Fail> {
    let mut listing: Vec<u8> = Vec::new(alloc);
    for byte in text.bytes() {
        listing.push(if byte == b'|' { b'\n' } else { byte })?;
    }
    if listing.len() > 1000 {
        Err("a long listing")?
    }
    Ok(read(alloc, &listing)?)
}

fn port_name(port: Port) -> &'static str {
    match port {
        Port::Read => "read",
        Port::Write => "write",
    }
}

fn push_words(alloc: Global, text: &mut String, name: &str, words: &[u64]) -> Result<(), Fail> {
    text.push_str(format!(in alloc; ", {name}")?.as_str())?;
    for word in words {
        text.push_str(format!(in alloc; " {word}")?.as_str())?;
    }
    Ok(())
}

fn done_text(alloc: Global, cycles: u64, output: &Output) -> Result<String, Fail> {
    let mut text = format!(in alloc; "done {cycles}")?;
    if !output.outs.is_empty() {
        push_words(alloc, &mut text, "out", &output.outs)?;
    }
    for words in &output.drams {
        push_words(alloc, &mut text, "dram", words)?;
    }
    Ok(text)
}

/// How a run ended, in words.
fn outcome(alloc: Global, sim: &Sim) -> Result<String, Fail> {
    match sim.ended() {
        Some(SimEnd::Done { cycles }) => {
            let output = sim.outputs(alloc)?;
            done_text(alloc, cycles, &output)
        }
        Some(SimEnd::Conflict { cycle, bank, port }) => {
            let port = port_name(port);
            Ok(format!(in alloc; "conflict {cycle} at bank {bank}, {port}")?)
        }
        Some(SimEnd::CyclesSpent) | None => Ok(String::from_str(alloc, "spent")?),
    }
}

/// What is run, and for how many cycles.
#[derive(Drop)]
struct Row {
    netlist: Netlist,
    input: Input,
    delays: Vec<u32>,
    cycles: u64,
}

fn input_of(alloc: Global, args: &str, drams: &str) -> Result<Input, Fail> {
    let args = numbers(alloc, args)?;
    let drams = contents(alloc, drams)?;
    Ok(Input { args, drams })
}

fn row_of(alloc: Global, fields: &[&str]) -> Result<Row, Fail> {
    let [args, drams, given, cycles, listing] = fields else {
        return Err("not five fields")?;
    };
    let input = input_of(alloc, args, drams)?;
    let delays = delays(alloc, given)?;
    let netlist = netlist_of(alloc, listing)?;
    Ok(Row {
        netlist,
        input,
        delays,
        cycles: cycles.parse::<u64>()?,
    })
}

/// What comes of a run in one go.
fn whole(alloc: Global, row: &Row) -> Result<String, Fail> {
    match Sim::load(alloc, &row.netlist, &row.input, &row.delays) {
        Ok(mut sim) => {
            let _end = sim.run(row.cycles);
            outcome(alloc, &sim)
        }
        Err(error) => Ok(format!(in alloc; "{error}")?),
    }
}

/// What comes of it in two parts, the first of them step by step, and of a step after its end.
fn parts(alloc: Global, row: &Row) -> Result<String, Fail> {
    match Sim::load(alloc, &row.netlist, &row.input, &row.delays) {
        Ok(mut sim) => {
            for _cycle in 0..row.cycles / 2 {
                let _end = sim.step();
            }
            let _end = sim.run(row.cycles - row.cycles / 2);
            let _again = sim.run(0);
            outcome(alloc, &sim)
        }
        Err(error) => Ok(format!(in alloc; "{error}")?),
    }
}

fn fields_of<'a>(alloc: Global, row: &'a str) -> Result<Vec<&'a str>, Fail> {
    Ok(row.split(';').collect(alloc)?)
}

#[test]
fn runs_end_as_worked_out(rt: HostRuntime) -> Result<(), Fail> {
    let alloc = rt.alloc();
    let mut count = 0u32;
    for (row, want) in RUNS.lines().filter_map(|line| line.split_once("=>")) {
        let fields = fields_of(alloc, row)?;
        let run = row_of(alloc, &fields)?;
        assert_eq!(rt; whole(alloc, &run)?.as_str(), want, "at {row}");
        assert_eq!(rt; parts(alloc, &run)?.as_str(), want, "at {row}");
        count = count.saturating_add(1);
    }
    assert_eq!(rt; count, 22);
    Ok(())
}
