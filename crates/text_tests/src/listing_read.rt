use sp_listing::{read, write};
use std::alloc::Global;
use std::test::Fail;

/// Each line: a text, with `|` for its line ends, and what comes of it: it is read and written again as it was, or it is
/// refused. Worked out by a program that was written apart from this one.
const TEXTS: &str =
    "netlist 1|in x 0 s32.0|const 1 32 3|op 2 s32.0 add 0 1|reg 3 32 0 2 4|const 4 1 1|reg 5 1 0 4 4|out y 3 s32.0|done 5|=>read back
netlist 1|in x 0 s32.0|const 1 32 3|op 2 s32.0 add 0 1|reg 3 32 0 2 4|const 4 1 1|reg 5 1 0 4 4|done 5|=>read back
netlist 1|const 0 1 1|const 1 32 0|reg 2 1 0 0 0|bank 0 8 4|read 3 0 2 1|read 4 0 2 1|const 5 1 0|done 5|=>read back
netlist 1|in x 0 s8.0|out y 3 s8.0|const 1 1 1|const 2 32 0|op 3 s8.0 add 0 0|not 4 s8.0 3|shift 5 s8.0 shr 4 2|cast 6 s8.0 s16.8 5|mux 7 8 1 3 4|reg 8 1 0 1 1|bank 0 8 4|read 9 0 1 2|write 0 1 2 9|dram 0 a s8.0 2 3|load 0 0 10 11 1 1 2|store 1 0 12 1 1 2 11|done 8|=>read back
=>no listing at line 1
netlist 2|=>no listing at line 1
netlist 1\r|=>no listing at line 1
netlist 1=>no listing at line 2
netlist 1|=>no listing at line 2
netlist 1||done 0|=>no listing at line 2
netlist 1|const 0 1 1|=>no listing at line 3
netlist 1|const 0 1 1|done 0=>no listing at line 4
netlist 1|const 0 1 1|done 0 =>no listing at line 3
netlist 1|const 00 1 1|done 0|=>no listing at line 2
netlist 1|const +0 1 1|done 0|=>no listing at line 2
netlist 1|const  0 1 1|done 0|=>no listing at line 2
netlist 1|const 0 1 2|done 0|=>no listing at line 2
netlist 1|const 0 0 0|done 0|=>no listing at line 2
netlist 1|const 0 65 0|done 0|=>no listing at line 2
netlist 1|const 18446744073709551616 1 1|=>no listing at line 2
netlist 1|const 0 1 1|done 0|done 0|=>no listing at line 4
netlist 1|in x 0 bit|in x 1 bit|done 0|=>no listing at line 3
netlist 1|in 1x 0 bit|done 0|=>no listing at line 2
netlist 1|in x 0 s0.0|done 0|=>no listing at line 2
netlist 1|in x 0 u64.1|done 0|=>no listing at line 2
netlist 1|bank 1 8 4|=>no listing at line 2
netlist 1|bank 0 8 0|=>no listing at line 2
netlist 1|bank 0 8 2147483648|=>no listing at line 2
netlist 1|const 0 1 1|read 1 1 0 2|bank 0 8 4|done 0|=>no listing at line 3
netlist 1|read 1 0 0 2|bank 1 8 4|bank 0 8 4|=>no listing at line 3
netlist 1|dram 0 a bit|=>no listing at line 2
netlist 1|dram 0 a bit 1 1 1 1|=>no listing at line 2
netlist 1|op 0 s8.0 le 0 0|=>no listing at line 2
netlist 1|shift 0 s8.0 shl 0 64|=>no listing at line 2
netlist 1|mux 0 8 1 2|=>no listing at line 2
netlist 1|load 0 0 1 2 3 4 5|done 1|=>no listing at line 2
netlist 1|dram 0 a bit 1|load 1 0 1 2 3 4 5|=>no listing at line 3
in x 0 s32.0|done 0|=>no listing at line 1
netlist 1|const 0 1 1|const 1 32 0|reg 2 1 0 0 0|bank 0 8 4|read 3 0 2 1|read 4 0 2 1|const 4 1 0|done 4|=>net 4 is not driven once
in x 0 s32.0|const 1 32 3|op 2 s32.0 add 0 1|reg 3 32 0 2 4|const 4 1 1|reg 5 1 0 4 4|out y 3 s32.0|done 5|=>no listing at line 1
netlist 1|const 1 32 3|op 2 s32.0 add 0 1|reg 3 32 0 2 4|const 4 1 1|reg 5 1 0 4 4|out y 3 s32.0|done 5|=>net 0 is not driven once
netlist 1|in x 0 s32.0|op 2 s32.0 add 0 1|reg 3 32 0 2 4|const 4 1 1|reg 5 1 0 4 4|out y 3 s32.0|done 5|=>net 1 is not driven once
netlist 1|in x 0 s32.0|const 1 32 3|reg 3 32 0 2 4|const 4 1 1|reg 5 1 0 4 4|out y 3 s32.0|done 5|=>net 2 is not driven once
netlist 1|in x 0 s32.0|const 1 32 3|op 2 s32.0 add 0 1|const 4 1 1|reg 5 1 0 4 4|out y 3 s32.0|done 5|=>net 3 is not driven once
netlist 1|in x 0 s32.0|const 1 32 3|op 2 s32.0 add 0 1|reg 3 32 0 2 4|reg 5 1 0 4 4|out y 3 s32.0|done 5|=>net 4 is not driven once
netlist 1|in x 0 s32.0|const 1 32 3|op 2 s32.0 add 0 1|reg 3 32 0 2 4|const 4 1 1|out y 3 s32.0|done 5|=>net 5 is not driven once
netlist 1|in x 0 s32.0|const 1 32 3|op 2 s32.0 add 0 1|reg 3 32 0 2 4|const 4 1 1|reg 5 1 0 4 4|out y 3 s32.0|=>no listing at line 9
netlist 1|not 0 u1.0 0|done 0|=>loop through net 0
netlist 1|in val 0 bit|done 0|=>no listing at line 2
netlist 1|const 0 1 1|out par 0 bit|done 0|=>no listing at line 3
netlist 1|dram 0 load bit 1|const 0 1 1|done 0|=>no listing at line 2
netlist 1|const 0 1 1|out loads 0 bit|done 0|=>read back
netlist 1|const 0 8 1|op 1 u8.0 sub 0 0|op 2 u8.0 mul 0 0|op 3 u8.0 div 0 0|op 4 u8.0 rem 0 0|op 5 u8.0 and 0 0|op 6 u8.0 or 0 0|op 7 u8.0 xor 0 0|op 8 u8.0 min 0 0|op 9 u8.0 max 0 0|op 10 u8.0 lt 0 0|op 11 u8.0 eq 0 0|shift 12 u8.0 shl 0 7|op 13 bit or 10 11|done 13|=>read back";

/// The text with other bytes for some.
fn turned(alloc: Global, text: &str, from: u8, to: u8) -> Result<Vec<u8>, Fail> {
    let mut bytes = Vec::new(alloc);
    for byte in text.bytes() {
        bytes.push(if byte == from { to } else { byte })?;
    }
    Ok(bytes)
}

/// What comes of a text, in words.
fn answer(alloc: Global, text: &[u8]) -> Result<String, Fail> {
    if text.len() > 1000 {
        return Err("long".into());
    }
    match read(alloc, text) {
        Ok(netlist) => {
            let written = write(alloc, &netlist)?;
            let same = written.as_bytes() == text;
            Ok(String::from_str(alloc, if same { "read back" } else { "read as another" })?)
        }
        Err(refusal) => Ok(format!(in alloc; "{refusal}")?),
    }
}

#[test]
fn texts_are_read_back_or_refused_at_their_first_fault(rt: HostRuntime) -> Result<(), Fail> {
    let alloc = rt.alloc();
    let mut count = 0u32;
    for (text, want) in TEXTS.lines().filter_map(|line| line.split_once("=>")) {
        let bytes = turned(alloc, text, b'|', b'\n')?;
        assert_eq!(rt; answer(alloc, &bytes)?.as_str(), want, "at {text}");
        count = count.saturating_add(1);
    }
    assert_eq!(rt; count, 53);
    Ok(())
}
