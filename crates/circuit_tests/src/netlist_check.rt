use sp_listing::read;
use std::alloc::{AllocError, Global};
use std::test::Fail;

/// Lists of cells and what comes of each, worked out by a program that was written apart from this one.
/// A line after `#` says what the next ones are about. Cells are parted by `; `, and each is its kind's word in a listing
/// and its numbers; a type is the width of an unsigned whole number, an operator 0 for a sum, 1 for `lt` and 2 for `eq`.
const LISTS: &str = "# both examples of the listing's format
in 0 32; const 1 32 3; op 2 32 0 0 1; reg 3 32 0 2 4; const 4 1 1; reg 5 1 0 4 4; out 3 32; done 5 => ok
const 0 1 1; const 1 32 0; reg 2 1 0 0 0; bank 0 8 4; read 3 0 2 1; read 4 0 2 1; const 5 1 0; done 5 => ok
# the second with its last two lines replaced
const 0 1 1; const 1 32 0; reg 2 1 0 0 0; bank 0 8 4; read 3 0 2 1; read 4 0 2 1; const 4 1 0; done 4 => net 4 is not driven once
# the first with one line left out
const 1 32 3; op 2 32 0 0 1; reg 3 32 0 2 4; const 4 1 1; reg 5 1 0 4 4; out 3 32; done 5 => net 0 is not driven once
in 0 32; op 2 32 0 0 1; reg 3 32 0 2 4; const 4 1 1; reg 5 1 0 4 4; out 3 32; done 5 => net 1 is not driven once
in 0 32; const 1 32 3; reg 3 32 0 2 4; const 4 1 1; reg 5 1 0 4 4; out 3 32; done 5 => net 2 is not driven once
in 0 32; const 1 32 3; op 2 32 0 0 1; const 4 1 1; reg 5 1 0 4 4; out 3 32; done 5 => net 3 is not driven once
in 0 32; const 1 32 3; op 2 32 0 0 1; reg 3 32 0 2 4; reg 5 1 0 4 4; out 3 32; done 5 => net 4 is not driven once
in 0 32; const 1 32 3; op 2 32 0 0 1; reg 3 32 0 2 4; const 4 1 1; out 3 32; done 5 => net 5 is not driven once
in 0 32; const 1 32 3; op 2 32 0 0 1; reg 3 32 0 2 4; const 4 1 1; reg 5 1 0 4 4; done 5 => ok
# small ones that are netlists
const 0 1 1; done 0 => ok
done 7; const 7 1 0 => ok
const 18446744073709551615 1 0; done 18446744073709551615 => ok
const 0 64 1; op 1 64 1 0 0; done 1 => ok
const 0 9 1; op 1 9 2 0 0; done 1 => ok
const 0 1 1; shift 1 1 0 63; cast 2 1 8 1; cast 3 8 1 2; mux 4 1 3 0 1; done 4 => ok
# drivers
done 0 => net 0 is not driven once
const 0 1 1; const 0 1 1; done 0 => net 0 is not driven once
const 3 1 1; const 3 1 1; const 2 1 0; const 2 1 0; const 0 1 0; done 0 => net 2 is not driven once
const 5 1 1; const 5 1 1; const 0 1 0; done 2; out 0 1 => net 2 is not driven once
const 4 1 1; not 1 1 9; not 2 1 8; done 4 => net 8 is not driven once
const 0 1 1; const 1 32 0; dram 0 8 4; load 0 0 2 2 0 0 1; done 0 => net 2 is not driven once
const 0 1 1; const 1 32 0; dram 0 8 4; load 0 0 2 3 0 0 1; done 2 => ok
const 0 1 1; const 1 32 0; const 2 8 7; dram 0 8 4; store 0 0 3 0 0 1 2; done 3 => ok
const 0 1 1; const 1 32 0; bank 0 8 4; write 0 0 1 2; done 0 => net 2 is not driven once
# widths
const 0 2 1; done 0 => width of net 0
const 0 1 1; const 1 8 1; done 0; out 1 7 => width of net 1
const 0 8 1; const 1 8 1; mux 2 8 0 1 1; op 3 8 1 2 2; done 3 => width of net 0
const 0 1 1; const 1 8 1; mux 2 9 0 1 1; op 3 9 1 2 2; done 3 => width of net 1
const 0 1 1; const 1 8 1; mux 2 8 0 1 0; op 3 8 1 2 2; done 3 => width of net 0
const 0 1 1; const 1 8 1; op 2 8 0 1 1; done 2 => width of net 2
const 0 1 1; const 1 8 1; reg 2 8 0 1 1; done 0 => width of net 1
const 0 1 1; const 1 8 1; reg 2 1 0 1 0; done 2 => width of net 1
const 0 1 1; const 1 31 0; bank 0 8 4; read 2 0 0 1; done 0 => width of net 1
const 0 1 1; const 1 32 0; bank 0 8 4; read 2 0 0 1; done 2 => width of net 2
const 0 1 1; const 1 32 0; const 2 9 1; bank 0 8 4; write 0 0 1 2; done 0 => width of net 2
const 0 1 1; const 1 32 0; dram 0 8 4; load 0 0 2 3 0 0 1; done 3 => width of net 3
const 0 1 1; const 1 32 0; const 2 9 1; dram 0 8 4; store 0 0 3 0 0 1 2; done 3 => width of net 2
const 0 1 1; const 1 8 0; dram 0 8 4; load 0 0 2 3 0 0 1; done 2 => width of net 1
const 0 1 1; const 1 4 0; const 2 4 0; cast 3 5 1 2; shift 4 5 1 2; done 0 => width of net 1
# order of the refusals
not 0 1 0; const 1 2 0; done 1; const 5 1 0; const 5 1 0 => net 5 is not driven once
not 0 1 0; const 1 2 0; done 1 => width of net 1
bank 0 8 67108865; not 0 1 0; done 0; const 1 1 0; const 1 1 0 => limit 67108865
# loops
not 0 1 0; done 0 => loop through net 0
op 0 1 0 0 0; done 0 => loop through net 0
shift 0 8 0 1; const 1 1 0; done 1 => loop through net 0
cast 0 8 8 0; const 1 1 0; done 1 => loop through net 0
mux 0 1 0 1 1; const 1 1 0; done 1 => loop through net 0
mux 0 1 1 0 1; const 1 1 0; done 1 => loop through net 0
mux 0 1 1 1 0; const 1 1 0; done 1 => loop through net 0
op 5 8 0 5 6; const 6 8 0; op 7 8 1 5 5; done 7 => loop through net 5
op 5 8 0 6 5; const 6 8 0; op 7 8 1 5 5; done 7 => loop through net 5
not 3 1 2; not 2 1 3; done 2 => loop through net 2
not 2 1 3; not 3 1 4; not 4 1 2; not 0 1 2; done 0 => loop through net 2
not 4 1 3; not 3 1 2; not 2 1 4; const 1 1 0; done 1 => loop through net 2
not 9 1 8; not 8 1 9; not 6 1 7; not 7 1 6; done 6 => loop through net 6
not 6 1 6; not 5 1 5; not 7 1 7; done 7 => loop through net 5
not 10 1 11; not 11 1 10; not 1 1 10; not 2 1 1; op 21 1 0 2 20; not 20 1 21; done 1 => loop through net 10
op 2 1 0 1 1; op 3 1 0 2 2; not 1 1 0; const 0 1 1; done 3 => ok
reg 0 1 0 0 0; done 0 => ok
not 1 1 0; reg 0 1 0 1 1; done 0 => ok
bank 0 32 4; const 0 1 1; read 1 0 0 1; done 0 => ok
bank 0 32 4; const 0 1 1; read 1 0 0 2; op 2 32 0 1 1; write 0 0 2 2; done 0 => ok
dram 0 32 9; not 4 1 3; load 0 0 3 2 4 4 2; done 3 => ok
# limits
bank 0 8 67108864; const 0 1 0; done 0 => ok
bank 0 8 67108865; const 0 1 0; done 0 => limit 67108865
bank 0 8 33554432; bank 1 8 33554433; const 0 1 0; done 0 => limit 67108865
dram 0 8 8192 8192; const 0 1 0; done 0 => ok
dram 0 8 67108865; const 0 1 0; done 0 => limit 67108865
dram 0 8 2147483647 2147483647 4; const 0 1 0; done 0 => limit 18446744056529682436
dram 0 8 2147483647 2147483647 5; const 0 1 0; done 0 => limit 18446744073709551615
bank 0 8 2147483647; dram 0 8 2147483647 2147483647 2147483647; const 0 1 0; done 0 => limit 2147483647";

fn operator(number: &str) -> &'static str {
    match number {
        "1" => "lt",
        "2" => "eq",
        _ => "add",
    }
}

/// Adds a word of a cell as a listing has it. Of inputs, outputs and DRAMs a list has one each, so their names are fixed.
fn push_word(line: &mut String, kind: &str, place: usize, word: &str) -> Result<(), AllocError> {
    match (kind, place) {
        ("in", 0) => line.push_str("in x"),
        ("out", 0) => line.push_str("out y"),
        ("in" | "out" | "op" | "not" | "cast", 2) | ("cast", 3) => write!(line, "u{word}.0"),
        ("op", 3) => line.push_str(operator(word)),
        ("shift", 2) => write!(line, "u{word}.0 shl"),
        ("dram", 2) => write!(line, "m u{word}.0"),
        _ => line.push_str(word),
    }
}

/// Adds the line of a cell.
fn push_line(listing: &mut String, cell: &str) -> Result<(), AllocError> {
    let kind = cell.split(' ').next().unwrap_or("");
    for (place, word) in cell.split(' ').enumerate() {
        if place > 0 {
            listing.push(' ')?;
        }
        push_word(listing, kind, place, word)?;
    }
    listing.push('\n')
}

/// The listing of cells.
fn listing_of(alloc: Global, cells: &str) -> Result<String, AllocError> {
    let mut listing = String::from_str(alloc, "netlist 1\n")?;
    for cell in cells.split("; ") {
        push_line(&mut listing, cell)?;
    }
    Ok(listing)
}

/// What comes of the cells of a listing, in words.
fn answer(alloc: Global, listing: &str) -> Result<String, Fail> {
    if listing.len() > 268_435_456 {
        return Err("long".into());
    }
    match read(alloc, listing.as_bytes()) {
        Ok(_) => Ok(String::from_str(alloc, "ok")?),
        Err(refusal) => Ok(format!(in alloc; "{refusal}")?),
    }
}

#[test]
fn lists_of_cells_are_accepted_or_refused(rt: HostRuntime) -> Result<(), Fail> {
    let alloc = rt.alloc();
    let mut count = 0u32;
    for (text, want) in LISTS.lines().filter_map(|line| line.split_once(" => ")) {
        let listing = listing_of(alloc, text)?;
        assert_eq!(rt; answer(alloc, &listing)?.as_str(), want, "at {text}");
        count = count.saturating_add(1);
    }
    assert_eq!(rt; count, 72);
    Ok(())
}

/// A chain of `not` cells from the last net down to a constant, or to the last net.
fn chain(alloc: Global, length: u64, closed: bool) -> Result<String, AllocError> {
    let mut listing = String::from_str(alloc, "netlist 1\ndone 7\n")?;
    for net in 7..length {
        let next = net + 1;
        write!(listing, "not {net} bit {next}\n")?;
    }
    if closed {
        write!(listing, "not {length} bit 7\n")?;
    } else {
        write!(listing, "const {length} 1 1\n")?;
    }
    Ok(listing)
}

#[test]
fn long_chains_are_checked(rt: HostRuntime) -> Result<(), Fail> {
    let alloc = rt.alloc();
    let open = chain(alloc, 200_006, false)?;
    assert_eq!(rt; answer(alloc, &open)?.as_str(), "ok");
    let closed = chain(alloc, 200_006, true)?;
    assert_eq!(rt; answer(alloc, &closed)?.as_str(), "loop through net 7");
    Ok(())
}

#[test]
fn too_many_cells_are_counted(rt: HostRuntime) -> Result<(), Fail> {
    let alloc = rt.alloc();
    let cells = chain(alloc, 2_000_006, false)?;
    assert_eq!(rt; answer(alloc, &cells)?.as_str(), "limit 2000001");
    Ok(())
}
