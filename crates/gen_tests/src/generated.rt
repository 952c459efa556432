use sp_gen::{GenError, generate, program_text};
use sp_tree::Program;
use sp_words::{Input, fits};
use std::alloc::Global;
use std::test::Fail;

/// Numbers, each with how many words the first DRAM has, the first three of them, the last one, their sum, and the program's text. All of it
/// was worked out apart from the generator.
const NUMBERS: &str = "\
0
1088
1204436891 169888184 764459975
1060043215
1150206105977
----
val a = DRAM[Int](1088)
val b = DRAM[Int](1088)
val y = ArgOut[Int]
Accel {
  val acc = Reg[Int](0)
  Reduce(acc)(17 by 1){ t =>
    val ta = SRAM[Int](64)
    val tb = SRAM[Int](64)
    ta load a(t * 64::t * 64 + 64)
    Foreach(64 by 1 par 2){ i => tb(i) = ta(i) * 3 + 4 }
    b(t * 64::t * 64 + 64) store tb
    val part = Reg[Int](0)
    Reduce(part)(64 by 1 par 2){ i => tb(i) }{(a, b) => max(a, b)}
    part
  }{(a, b) => max(a, b)}
  y := acc
}
====
1
2176
1074839795 1189567130 140486902
1629944938
2353677232470
----
val a = DRAM[Int](2176)
val b = DRAM[Int](2176)
val y = ArgOut[Int]
Accel {
  val acc = Reg[Int](0)
  Reduce(acc)(17 by 1){ t =>
    val ta = SRAM[Int](128)
    val tb = SRAM[Int](128)
    ta load a(t * 128::t * 128 + 128)
    Foreach(128 by 1 par 1){ i => tb(i) = ta(i) * 3 + 6 }
    b(t * 128::t * 128 + 128) store tb
    val part = Reg[Int](0)
    Reduce(part)(128 by 1 par 1){ i => tb(i) }{_ + _}
    part
  }{_ + _}
  y := acc
}
====
4294967295
1856
1479768959 492109816 1860332840
1902565540
1970834523372
----
val a = DRAM[Int](1856)
val b = DRAM[Int](1856)
val y = ArgOut[Int]
Accel {
  val acc = Reg[Int](0)
  Reduce(acc)(29 by 1){ t =>
    val ta = SRAM[Int](64)
    val tb = SRAM[Int](64)
    ta load a(t * 64::t * 64 + 64)
    Foreach(64 by 1 par 1){ i => tb(i) = ta(i) * 3 + 3 }
    b(t * 64::t * 64 + 64) store tb
    val part = Reg[Int](0)
    Reduce(part)(64 by 1 par 1){ i => tb(i) }{_ + _}
    part
  }{_ + _}
  y := acc
}
";

fn made(alloc: Global, number: u32) -> Result<(Program, Input), Fail> {
    match generate(alloc, number) {
        Ok(made) => Ok(made),
        Err(GenError::Text(_)) => Err(Fail::from("a text that is refused")),
        Err(GenError::Memory) => Err(Fail::from("out of memory")),
    }
}

/// A number and the words of the first DRAM, as a case tells them.
fn shown(alloc: Global, number: u32, words: &[u64]) -> Result<String, Fail> {
    let count = words.len();
    let first = words.get(0).ok_or("a first word")?;
    let second = words.get(1).ok_or("a second word")?;
    let third = words.get(2).ok_or("a third word")?;
    let last = words.last().ok_or("a last word")?;
    let sum = words
        .iter()
        .fold(0, |sum: u64, word| sum.wrapping_add(*word));
    let text = format!(in alloc; "{number}\n{count}\n{first} {second} {third}\n{last}\n{sum}\n")?;
    Ok(text)
}

#[test]
fn numbers_have_these_programs_and_words(rt: HostRuntime) -> Result<(), Fail> {
    let alloc = rt.alloc();
    for case in NUMBERS.split("====\n") {
        let (words, text) = case.split_once("----\n").ok_or("a text")?;
        let number = words.lines().next().ok_or("a number")?;
        let number = number.parse::<u32>().ok().ok_or("a number of 32 bits")?;
        let printed = program_text(alloc, number)?;
        assert_eq!(rt; printed.as_str(), text);
        let (_, input) = made(alloc, number)?;
        let first = input.drams.get(0).ok_or("a first DRAM")?;
        let drawn = shown(alloc, number, first)?;
        assert_eq!(rt; drawn.as_str(), words);
    }
    Ok(())
}

#[test]
fn each_number_has_a_program_that_its_input_fits(rt: HostRuntime) -> Result<(), Fail> {
    let alloc = rt.alloc();
    for number in 0..100 {
        let (program, input) = made(alloc, number)?;
        assert!(rt; fits(program.ports(), &input), "{number}");
        let second = input.drams.get(1).ok_or("a second DRAM")?;
        assert!(rt; second.iter().all(|word| *word == 0), "{number}");
    }
    Ok(())
}
