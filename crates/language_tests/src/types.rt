use sp_reader::read;
use sp_types::{Refusal, Rule, first_refusal};
use std::alloc::{AllocError, Global};
use std::test::Fail;

/// Each line: `ok` or the rule that a text breaks first, then `|` and the text. In a text `$` stands for a line
/// end, and `@` for no byte: the place of the refusal is what follows it.
const TEXTS: &str = "ok|val y = ArgOut[Int]; Accel { y := mux(true, 1, 2) }
ok|Accel { }
twice|val x = ArgIn[Int]; val @x = ArgOut[Int]; Accel { }
unknown|val y = ArgOut[Int]; Accel { y := @z }
clash|val y = ArgOut[Int]; Accel { y := @true }
misused|val y = ArgOut[Int]; Accel { y := @y }
rank|val y = ArgOut[Int]; Accel { val s = SRAM[Int](2); y := @s(0, 0) }
par place|val y = ArgOut[Int]; Accel { Foreach(4 by 1 @par 2, 4 by 1){ (i, j) => y := i } }
ok|val y = ArgOut[Int]; Accel { Foreach(4 by 1 par 17){ i => y := i } }
ok|val a = DRAM[Int](64)$val b = DRAM[Int](64)$val y = ArgOut[Int]$Accel {$val acc = Reg[Int](0)$Reduce(acc)(64 by 16){ t =>$val ta = SRAM[Int](16)$val tb = SRAM[Int](16)$ta load a(t::t + 16)$tb load b(t::t + 16)$val part = Reg[Int](0)$Reduce(part)(16 by 1 par 4){ i => ta(i) * tb(i) }{_ + _}$part$}{_ + _}$y := acc$}
ok|val img = DRAM[Int](4, 5)$val res = DRAM[Int](2, 3)$Accel {$val lb = LineBuffer[Int](3, 5)$val o = SRAM[Int](3)$Foreach(4 by 1){ r =>$lb load img(r, 0::5)$if (r >= 2) {$Foreach(3 by 1){ c =>$val s = Reg[Int](0)$Reduce(s)(3 by 1, 3 by 1){ (i, j) => lb(i, c + j) }{_ + _}$o(c) = s$}$res(r - 2, 0::3) store o$}$}$}
ok|val x = ArgIn[Int]; val y = ArgOut[Int]; Accel { val n = Reg[Int](0); FSM(x)(s => s > 0){ s => n := n + s }{ s => s - 1 }; y := n }
ok|Accel { val acc = SRAM[Int](2); MemReduce(acc)(3 by 1){ k => val p = SRAM[Int](2); Foreach(2 by 1){ i => p(i) = k * 10 + i }; p }{_ + _} }
ok|val a = DRAM[Int](8)$val q = DRAM[Int](4)$val b = DRAM[Int](8)$Accel {$val p = SRAM[Int](4)$val s = SRAM[Int](4)$p load q(0::4)$s gather a(p, 4)$b(p, 4) scatter s$}
ok|Accel { Stream { val f = FIFO[Int](2); Foreach(8 by 1){ i => f.enq(i) }; Foreach(8 by 1){ i => val v = f.deq() } } }
clash|Accel { val r = Reg[@FixPt[TRUE,_60,_5]] }
ok|Accel { val r = Reg[FixPt[TRUE,_60,_4]](1.5.to[FixPt[TRUE,_60,_4]]) }
clash|Accel { val r = Reg[FixPt[TRUE,_60,_4]](@1.5.to[FixPt[TRUE,_8,_8]]) }
clash|Accel { val r = Reg[Int](@true) }
clash|Accel { val v = @2147483648 }
ok|Accel { val v = -2147483648 }
clash|Accel { val v = @-2147483649 }
ok|Accel { val v = 255.to[FixPt[FALSE,_8,_0]] }
clash|Accel { val v = @256.to[FixPt[FALSE,_8,_0]] }
clash|Accel { val v = true & @1 }
clash|Accel { val v = @true + true }
ok|Accel { val v = true == false }
clash|Accel { val v = @true < false }
clash|Accel { val v = ~@true }
ok|Accel { val v = !true }
clash|Accel { val v = !@1 }
clash|Accel { if (@1 + 1) { } }
ok|Accel { if (1 < 2) { val v = 1 } else { val v = 2 }; val v = 3 }
twice|Accel { val v = 1; if (v == 1) { val @v = 2 } }
unknown|Accel { if (true) { val v = 1 }; val w = @v }
unknown|Accel { val v = @v }
misused|val x = ArgIn[Int]; Accel { @x := 1 }
ok|val x = ArgIn[Int]; Accel { val v = x.value }
misused|Accel { Foreach(4){ i => val v = @i.value } }
misused|Accel { Foreach(4){ i => @i := 1 } }
rank|Accel { val s = SRAM[Int](2); @s := 1 }
misused|Accel { val s = SRAM[Int](2); val v = @s }
rank|Accel { val r = Reg[Int]; @r(0) = 1 }
rank|Accel { val r = Reg[Int](0); val v = @r(0) }
misused|Accel { val f = FIFO[Int](2); @f := 1 }
misused|Accel { val f = FIFO[Int](2); Foreach(@f.deq()){ i => val v = i } }
misused|Accel { val r = Reg[Int]; @r.enq(1) }
rank|Accel { val l = LineBuffer[Int](2, 2); val v = @l(0) }
misused|Accel { val l = LineBuffer[Int](2, 2); @l(0, 0) = 1 }
misused|val d = DRAM[Int](4); Accel { val v = @d(0) }
rank|Accel { Foreach(4, 4){ @i => val v = i } }
twice|Accel { Foreach(4, 4){ (i, @i) => val v = i } }
misused|Accel { val r = Reg[Int](0); Reduce(r)(4){ i => @r + i }{_ + _} }
ok|Accel { val r = Reg[Int](4); Reduce(r)(r){ i => i }{_ + _} }
misused|Accel { val s = SRAM[Int](2); Reduce(@s)(4){ i => i }{_ + _} }
misused|Accel { val r = Reg[Bit]; Reduce(r)(4){ i => true }@{_ + _} }
ok|Accel { val r = Reg[Bit]; Reduce(r)(4){ i => true }{_ && _} }
misused|Accel { val r = Reg[Int](0); Reduce(r)(4){ i => i }{(a, b) => min(a, @a)} }
ok|Accel { val r = Reg[Int](0); Reduce(r)(4){ i => i }{(a, a) => a + a} }
clash|Accel { val r = Reg[FixPt[TRUE,_8,_8]](0); Fold(r)(4){ i => @i }{_ + _} }
misused|Accel { val p = SRAM[Int](2); val s = SRAM[Int](2); MemReduce(s)(4){ i => @p }{_ + _} }
misused|Accel { val s = SRAM[Int](2); MemReduce(s)(4){ i => val p = SRAM[Int](3); @p }{_ + _} }
misused|Accel { val s = SRAM[Int](2); MemReduce(s)(4){ i => val p = SRAM[Bit](2); @p }{_ + _} }
misused|Accel { val s = SRAM[Int](2); MemReduce(s)(4){ i => val p = SRAM[Int](2); @1 + 1 }{_ + _} }
rank|val d = DRAM[Int](4, 4); Accel { val s = SRAM[Int](4); @s load d(0::4) }
rank|val d = DRAM[Int](4, 4); Accel { val s = SRAM[Int](4); @s load d(0::4, 0::4) }
ok|val d = DRAM[Int](4, 4); Accel { val s = SRAM[Int](4); s load d(0::4 par 2, 3) }
par place|val d = DRAM[Int](4, 4); Accel { val s = SRAM[Int](4, 4); s load d(0::4 @par 1, 0::4) }
par place|val d = DRAM[Int](4, 4); Accel { val l = LineBuffer[Int](2, 4); l load d(0, 0::4 @par 2) }
rank|val d = DRAM[Int](4, 4); Accel { val l = LineBuffer[Int](2, 4); @l load d(0::4, 0) }
clash|val d = DRAM[Bit](4); Accel { val s = SRAM[Int](4); @s load d(0::4) }
clash|val d = DRAM[Bit](4); Accel { val s = SRAM[Int](4); d(0::4) store @s }
misused|val d = DRAM[Int](4); Accel { val f = FIFO[Int](4); d(0::4) store @f }
par place|val d = DRAM[Int](4); Accel { val f = FIFO[Int](4); d(0::4 @par 2) store f }
clash|val d = DRAM[Int](4); Accel { val p = SRAM[Bit](4); val s = SRAM[Int](4); s gather d(@p, 4) }
rank|val d = DRAM[Int](4, 4); Accel { val p = SRAM[Int](4); val s = SRAM[Int](4); @d(p, 4) scatter s }
clash|Accel { FSM(1)(s => @s){ s => val v = s }{ s => s } }
clash|Accel { FSM(true)(s => s){ s => val v = s }{ s => @1 } }
twice|Accel { val s = 1; FSM(1)(@s => true){ t => val v = t }{ t => t } }";

/// The text of a line, and the byte at which it is refused.
fn text_of(alloc: Global, line: &str) -> Result<(Vec<u8>, usize), AllocError> {
    let mut text = Vec::new(alloc);
    let mut refused = 0;
    for b in line.bytes() {
        match b {
            b'@' => refused = text.len(),
            b'$' => text.push(b'\n')?,
            _ => text.push(b)?,
        }
    }
    Ok((text, refused))
}

fn answer_of(first: Option<Refusal>) -> (&'static str, usize) {
    let Some(refusal) = first else {
        return ("ok", 0);
    };
    let rule = match refusal.rule {
        Rule::UnknownName => "unknown",
        Rule::Twice => "twice",
        Rule::Misused => "misused",
        Rule::Rank { .. } => "rank",
        Rule::TypeClash { .. } => "clash",
        Rule::ParPlace => "par place",
    };
    (rule, refusal.at as usize)
}

#[test]
fn texts_are_refused_at_the_first_place_that_breaks_a_rule(rt: HostRuntime) -> Result<(), Fail> {
    for line in TEXTS.lines() {
        let (expected, text) = line.split_once('|').ok_or("a line without an answer")?;
        let (text, refused) = text_of(rt.alloc(), text)?;
        assert!(rt; text.len() <= 1_048_576);
        let tree = read(rt.alloc(), &text)?;
        let (found, at) = answer_of(first_refusal(rt.alloc(), &tree)?);
        assert_eq!(rt; found, expected, "{line}");
        assert_eq!(rt; at, refused, "{line}");
    }
    Ok(())
}
