ghost use Rattle.std.specs.Prelude.{IfOk};
ghost use Rattle.sp_reader.specs.PlainProgram.{plain_syntax};
ghost use Rattle.sp_typed.specs.ReadTree.{IsReadTree};

use sp_check::check;
use sp_read_trees::read_trees_keep_their_rules;
use sp_reader::{Syntax, read};
use sp_tree::Program;
use std::alloc::{AllocError, Global};
use std::test::Fail;

/// Each line: what a text is answered, then `|` and the text.
const TEXTS: &str = "ok|Accel { }
ok|val x = ArgIn[Int]; val y = ArgOut[Int]; Accel { y := x + 3 }
ok|val y = ArgOut[Int]; Accel { Foreach(4 by 1 par 16){ i => y := i } }
ok|Accel { val acc = SRAM[Int](2); MemReduce(acc)(3 by 1){ k => val p = SRAM[Int](2); Foreach(2 by 1){ i => p(i) = k * 10 + i }; p }{_ + _} }
name given twice at 24|val x = ArgIn[Int]; val x = ArgOut[Int]; Accel { }
unknown name at 34|val y = ArgOut[Int]; Accel { y := z }
clash at 34, want Int, got Bit|val y = ArgOut[Int]; Accel { y := true }
misused at 34|val y = ArgOut[Int]; Accel { y := y }
rank at 56, want 1, got 2|val y = ArgOut[Int]; Accel { val s = SRAM[Int](2); y := s(0, 0) }
par place at 44|val y = ArgOut[Int]; Accel { Foreach(4 by 1 par 2, 4 by 1){ (i, j) => y := i } }
clash at 16, want Int, got literal|Accel { val v = 2147483648 }
clash at 45, want FixPt[TRUE,_8,_8], got Int|Accel { val r = Reg[FixPt[TRUE,_8,_8]]; r := 1 + 2.to[Int] }
clash at 31, want Bit, got FixPt[FALSE,_32,_0]|Accel { val b = Reg[Bit]; b := 1.to[FixPt[FALSE,_32,_0]] }
ok|val x = ArgIn[FixPt[TRUE,_32,_0]]; val y = ArgOut[Int]; Accel { y := x }
lanes 17|val y = ArgOut[Int]; Accel { Foreach(4 by 1 par 17){ i => y := i } }
words 4194305|Accel { val s = SRAM[Int](4194305) }
copies 16777232|Accel { Foreach(4 by 1 par 16){ i => val s = SRAM[Int](1048577) } }
dram 67108865|val d = DRAM[Int](67108865); Accel { }
unknown name at 45|val d = DRAM[Int](67108865); Accel { val v = z }";

fn tree_of(alloc: Global, text: &str) -> Result<Syntax, Fail>
    ensures { IfOk result (λ tree. IsReadTree (plain_syntax tree)) }
{
    let bytes = text.as_bytes();
    if bytes.len() > 1_048_576 {
        return Err(Fail::from("a text that is too long"));
    }
    read_trees_keep_their_rules();
    let tree = read(alloc, bytes)?;
    Ok(tree)
}

fn answer_of(alloc: Global, text: &str) -> Result<String, Fail> {
    let tree = tree_of(alloc, text)?;
    match check(alloc, &tree) {
        Ok(_) => Ok(String::from_str(alloc, "ok")?),
        Err(error) => Ok(format!(in alloc; "{error}")?),
    }
}

#[test]
fn texts_are_answered(rt: HostRuntime) -> Result<(), Fail> {
    for line in TEXTS.lines() {
        let (expected, text) = line.split_once('|').ok_or("a line without an answer")?;
        let answer = answer_of(rt.alloc(), text)?;
        assert_eq!(rt; answer.as_str(), expected, "{line}");
    }
    Ok(())
}

/// The names of memories, values, counters and ports, each with a blank after it.
fn names_of(alloc: Global, program: &Program) -> Result<String, AllocError> {
    let mut text = String::new(alloc);
    for mem in program.mems() {
        text.push_str(&mem.name)?;
        text.push(' ')?;
    }
    text.push_str("| ")?;
    for name in program.vals() {
        text.push_str(name)?;
        text.push(' ')?;
    }
    text.push_str("| ")?;
    for name in program.counters() {
        text.push_str(name)?;
        text.push(' ')?;
    }
    text.push_str("| ")?;
    for port in &program.ports().drams {
        text.push_str(&port.name)?;
        text.push(' ')?;
    }
    Ok(text)
}

#[test]
fn declarations_stand_in_the_order_of_the_text(rt: HostRuntime) -> Result<(), Fail> {
    let text = "val d = DRAM[Bit](4, 5); val x = ArgIn[Int]; val e = DRAM[Int](6); Accel {
        val r = Reg[FixPt[TRUE,_8,_2]](-1.5)
        FSM(x)(a => a > 0){ b => val c = b; val f = FIFO[Int](2) }{ g => g - 1 }
        Foreach(4, 2){ (i, j) => val s = SRAM[Int](2, 3); Foreach(2){ k => val h = k } }
        val m = LineBuffer[Int](3, 7) }";
    let tree = tree_of(rt.alloc(), text)?;
    let program = check(rt.alloc(), &tree)?;
    let mems = program.mems();
    let names = names_of(rt.alloc(), &program)?;
    assert_eq!(rt; names.as_str(), "d x e r f s m | a b c g h | i j k | d e ");
    assert_eq!(rt; mems.len(), 7);
    assert_eq!(rt; mems[3].start, Some(1018));
    assert_eq!(rt; mems[5].dims.as_slice(), [2, 3].as_slice());
    assert_eq!(rt; mems[6].dims.as_slice(), [3, 7].as_slice());
    Ok(())
}
