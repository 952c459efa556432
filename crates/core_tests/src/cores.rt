//! Programs and their cores.
use crate::shown::shown;
use sp_desugar::desugar;
use sp_source::{SourceError, program_of_text};
use sp_tree::Program;
use std::alloc::Global;
use std::test::Fail;

/// Programs, each with a line `----` and its core after it, written by hand; a line `====` stands between two of them.
const PROGRAMS: &str = "val x = ArgIn[Int]
val y = ArgOut[Int]
Accel { y := x + 3 }
----
x y
inner: read 0(); 3; Add(0 1); write 1(2)
====
val a = DRAM[Int](64)
val b = DRAM[Int](64)
val y = ArgOut[Int]
Accel {
  val acc = Reg[Int](0)
  Reduce(acc)(64 by 16){ t =>
    val ta = SRAM[Int](16)
    val tb = SRAM[Int](16)
    ta load a(t::t + 16)
    tb load b(t::t + 16)
    val part = Reg[Int](0)
    Reduce(part)(16 by 1 par 4){ i => ta(i) * tb(i) }{_ + _}
    part
  }{_ + _}
  y := acc
}
----
y acc ta tb part +begun +begun
outer Pipe owns 1 5
  outer Pipe (i0: 0 .. 64 by 16 par 1) owns 2 3 4 6
    load 0 to 2 (i0 .. i0; 16; Add(0 1))
    load 1 to 3 (i0 .. i0; 16; Add(0 1))
    inner (i1: 0 .. 16 by 1 par 4) comb 5: i1; read 2(0); i1; read 3(2); Mul(1 3); read 6() Bit; read 4() if 5; Add(6 4); mux(5 7 4); write 4(8); 1 Bit; write 6(10) Bit
    comb inner comb 1: read 4(); read 5() Bit; read 1() if 1; Add(2 0); mux(1 3 0); write 1(4); 1 Bit; write 5(6) Bit
  inner: read 1(); write 0(0)
====
val a = DRAM[Int](8)
val c = DRAM[Int](4)
Accel {
  val s = SRAM[Int](8)
  val h = SRAM[Int](4)
  s load a(0::8)
  Foreach(4){ j => h(j) = 0 }
  Foreach(8){ i =>
    val v = s(i)
    h(v) = h(v) + 1
  }
  c(0::4) store h
}
----
s h
outer Pipe owns 0 1
  load 0 to 0 (0 .. 8)
  inner (i0: 0 .. 4 by 1 par 1): i0; 0; write 1(0 1)
  inner (i1: 0 .. 8 by 1 par 1): i1; read 0(0); read 1(1); 1; Add(2 3); write 1(1 4)
  store 1 from 1 (0 .. 4)
====
val img = DRAM[Int](4, 5)
val res = DRAM[Int](2, 3)
Accel {
  val lb = LineBuffer[Int](3, 5)
  val o = SRAM[Int](3)
  Foreach(4){ r =>
    lb load img(r, 0::5)
    if (r >= 2) {
      Foreach(3){ c =>
        val s = Reg[Int](0)
        Reduce(s)(3, 3){ (i, j) => lb(i, c + j) }{_ + _}
        o(c) = s
      }
      res(r - 2, 0::3) store o
    }
  }
}
----
lb o s +begun
outer Pipe owns 0 1
  outer Pipe (i0: 0 .. 4 by 1 par 1)
    load 0 to 0 (i0) (0 .. 5)
    branch i0; 2; Ge(0 1)
      outer Pipe
        outer Pipe (i1: 0 .. 3 by 1 par 1) owns 2 3
          inner (i2: 0 .. 3 by 1 par 1) (i3: 0 .. 3 by 1 par 1) comb 5: i2; i1; i3; Add(1 2); read 0(0 3); read 3() Bit; read 2() if 5; Add(6 4); mux(5 7 4); write 2(8); 1 Bit; write 3(10) Bit
          inner: i1; read 2(); write 1(0 1)
        store 1 from 1 (i0; 2; Sub(0 1)) (0 .. 3)
      inner:
====
val x = ArgIn[Int]
val y = ArgOut[Int]
Accel {
  val n = Reg[Int](0)
  FSM(x)(s => s > 0){ s => n := n + s }{ s => s - 1 }
  y := n
}
----
x y n +state
outer Pipe owns 2
  fsm 3 from read 0() while read 3(); 0; Gt(0 1)
    inner: read 2(); read 3(); Add(0 1); write 2(2)
    next read 3(); 1; Sub(0 1)
  inner: read 2(); write 1(0)
====
val b = DRAM[Int](5)
Accel {
  Foreach(4 par 2){ t =>
    val s = SRAM[Int](2)
    Foreach(2){ j => s(j) = t }
    b(t::t + 2) store s
  }
}
----
s
outer Pipe
  outer Pipe (i0: 0 .. 4 by 1 par 2) owns 0
    inner (i1: 0 .. 2 by 1 par 1): i1; i0; write 0(0 1)
    store 0 from 0 (i0 .. i0; 2; Add(0 1))
====
val c = DRAM[Int](4)
Accel {
  val f = FIFO[Int](4)
  val s = SRAM[Int](4)
  Foreach(4){ i => f.enq(i * i) }
  Foreach(4){ j => s(j) = f.deq() }
  c(0::4) store s
}
----
f s
outer Pipe owns 0 1
  inner (i0: 0 .. 4 by 1 par 1): i0; i0; Mul(0 1); enq 0(2)
  inner (i1: 0 .. 4 by 1 par 1): i1; deq 0(); write 1(0 1)
  store 0 from 1 (0 .. 4)
====
val c = DRAM[Int](2)
Accel {
  val acc = SRAM[Int](2)
  MemReduce(acc)(3){ k =>
    val p = SRAM[Int](2)
    Foreach(2){ i => p(i) = k * 10 + i }
    p
  }{_ + _}
  c(0::2) store acc
}
----
acc p +begun
outer Pipe owns 0 2
  outer Pipe (i0: 0 .. 3 by 1 par 1) owns 1
    inner (i1: 0 .. 2 by 1 par 1): i1; i0; 10; Mul(1 2); i1; Add(3 4); write 1(0 5)
    comb inner (i2: 0 .. 2 by 1 par 1) comb 2: i2; read 1(0); read 2() Bit; i2; read 0(3) if 2; Add(4 1); mux(2 5 1); i2; write 0(7 6); i2; 1; Eq(9 10); 1 Bit; write 2(12) Bit if 11
  store 0 from 0 (0 .. 2)
====
val y = ArgOut[Int]
Accel {
  val acc = Reg[Int](0)
  Stream {
    val f = FIFO[Int](2)
    val g = FIFO[Int](2)
    Foreach(8){ i => f.enq(i) }
    Foreach(8){ j => g.enq(f.deq() * 2) }
    Reduce(acc)(8){ k => g.deq() }{_ + _}
  }
  y := acc
}
----
y acc f g +begun
outer Pipe owns 1
  outer Stream owns 2 3 4
    inner (i0: 0 .. 8 by 1 par 1): i0; enq 2(0)
    inner (i1: 0 .. 8 by 1 par 1): deq 2(); 2; Mul(0 1); enq 3(2)
    inner (i2: 0 .. 8 by 1 par 1) comb 1: deq 3(); read 4() Bit; read 1() if 1; Add(2 0); mux(1 3 0); write 1(4); 1 Bit; write 4(6) Bit
  inner: read 1(); write 0(0)
====
val y = ArgOut[Int]
Accel {
  val acc = Reg[Int](0)
  Stream {
    val f = FIFO[Int](2)
    val g = FIFO[Int](2)
    val h = FIFO[Int](2)
    Foreach(8){ i =>
      f.enq(i)
      h.enq(i)
    }
    Foreach(8){ j => g.enq(f.deq() * h.deq()) }
    Reduce(acc)(8){ k => g.deq() }{_ + _}
  }
  y := acc
}
----
y acc f g h +begun
outer Pipe owns 1
  outer Sequential owns 2 3 4 5
    inner (i0: 0 .. 8 by 1 par 1): i0; enq 2(0); i0; enq 4(2)
    inner (i1: 0 .. 8 by 1 par 1): deq 2(); deq 4(); Mul(0 1); enq 3(2)
    inner (i2: 0 .. 8 by 1 par 1) comb 1: deq 3(); read 5() Bit; read 1() if 1; Add(2 0); mux(1 3 0); write 1(4); 1 Bit; write 5(6) Bit
  inner: read 1(); write 0(0)
====
val x = ArgIn[Int]
val y = ArgOut[Int]
val z = ArgOut[Int]
Accel {
  val r = Reg[Int]
  val v = x + 1
  val w = v
  val k = 5
  val u = v * 2
  r := u
  Foreach(k){ i => y := w + i + k }
  z := r
}
----
x y z r +crossing
outer Pipe owns 3 4
  inner: read 0(); 1; Add(0 1); write 4(2); 2; Mul(2 4); write 3(5)
  inner (i0: 0 .. 5 by 1 par 1): read 4(); i0; Add(0 1); 5; Add(2 3); write 1(4)
  inner: read 3(); write 2(0)
====
val a = DRAM[Int](2, 8)
val q = DRAM[Int](4)
val y = ArgOut[Int]
Accel {
  val p = SRAM[Int](4)
  p load q(0::4)
  Sequential.Foreach(2){ r =>
    val s = SRAM[Int](4)
    s load a(r, p(0)::p(0) + 4)
    s gather q(p, p(1))
    y := s(2)
  }
}
----
y p s +crossing +crossing +crossing
outer Pipe owns 1
  load 1 to 1 (0 .. 4)
  outer Sequential (i0: 0 .. 2 by 1 par 1) owns 2 3 4 5
    inner: 0; read 1(0); write 3(1); 0; read 1(3); 4; Add(4 5); write 4(6)
    load 0 to 2 (i0) (read 3() .. read 4())
    inner: 1; read 1(0); write 5(1)
    Gather 1 with 2 at 1: read 5() par 1
    inner: 2; read 2(0); write 0(1)
====
val a = DRAM[Int](4)
val y = ArgOut[Int]
Accel {
  val acc = Reg[Int]
  Reduce(acc)(4 par 2){ k =>
    val s = SRAM[Int](4)
    val t = SRAM[Int](2)
    s load a(0::4)
    t(0) = s(k) + 1
    Foreach(s(0) until t(0)){ i => t(1) = t(0) * i }
    t(0) = 7
    t(1) + s(2)
  }{_ + _}
  y := acc
}
----
y acc s t +begun +crossing +crossing +crossing
outer Pipe owns 1 4
  outer Pipe (i0: 0 .. 4 by 1 par 2) owns 2 3 5 6 7
    load 0 to 2 (0 .. 4)
    inner: 0; i0; read 2(1); 1; Add(2 3); write 3(0 4)
    inner: 0; read 2(0); write 5(1)
    inner: 0; read 3(0); write 6(1)
    inner (i1: read 5() .. read 6() by 1 par 1): 1; 0; read 3(1); i1; Mul(2 3); write 3(0 4)
    inner: 0; 7; write 3(0 1); 1; read 3(3); 2; read 2(5); Add(4 6); write 7(7)
    comb inner comb 1: read 7(); read 4() Bit; read 1() if 1; Add(2 0); mux(1 3 0); write 1(4); 1 Bit; write 4(6) Bit
  inner: read 1(); write 0(0)
====
val y = ArgOut[Int]
Accel {
  val acc = SRAM[Int](1, 2)
  MemReduce(acc)(3){ k =>
    val p = SRAM[Int](1, 2)
    p(0, 0) = k
    p(0, 1) = 7
    p
  }{_ + _}
  val r = Reg[Int]
  r := 9
  Fold(r)(3 par 2){ i =>
    Parallel { Foreach(1){ j => } }
    val v = acc(0, 1)
    v
  }{ (a, b) => max(a, b) }
  y := r + acc(0, 0)
}
----
y acc p r +begun +crossing
outer Pipe owns 1 3 4
  outer Pipe (i0: 0 .. 3 by 1 par 1) owns 2
    inner: 0; 0; i0; write 2(0 1 2); 0; 1; 7; write 2(4 5 6)
    comb inner (i3: 0 .. 1 by 1 par 1) (i4: 0 .. 2 by 1 par 1) comb 3: i3; i4; read 2(0 1); read 4() Bit; i3; i4; read 1(4 5) if 3; Add(6 2); mux(3 7 2); i3; i4; write 1(9 10 8); i3; 0; Eq(12 13); i4; 1; Eq(15 16); And(14 17) Bit; 1 Bit; write 4(19) Bit if 18
  inner: 9; write 3(0)
  outer Pipe (i1: 0 .. 3 by 1 par 2) owns 5
    outer Parallel
      inner (i2: 0 .. 1 by 1 par 1):
    inner: 0; 1; read 1(0 1); write 5(2)
    comb inner comb 1: read 5(); read 3(); Max(1 0); write 3(2)
  inner: read 3(); 0; 0; read 1(1 2); Add(0 3); write 0(4)
====
val y = ArgOut[Int]
Accel {
  val q = Reg[Int](7)
  Foreach(3){ i =>
    val r = Reg[Int](5)
    val f = FIFO[Int](1)
    f.enq(r)
    r := r + 1
    q := q + (r + f.deq())
  }
  y := q
}
----
y q r f
outer Pipe owns 1
  inner (i0: 0 .. 3 by 1 par 1) owns 2 3: reset 2(); reset 3(); read 2(); enq 3(2); read 2(); 1; Add(4 5); write 2(6); read 1(); read 2(); deq 3(); Add(9 10); Add(8 11); write 1(12)
  inner: read 1(); write 0(0)
====
val x = ArgIn[Int]
val y = ArgOut[Int]
Accel {
  val n = Reg[Int](0)
  val v = x * 2
  FSM(v)(s => s > 0){ s =>
    val w = s
    Reduce(n)(w){ i => i + w }{_ + _}
    if (s > 2) { y := n }
  }{ s => s - v }
}
----
x y n +crossing +state +begun
outer Pipe owns 2 3
  inner: read 0(); 2; Mul(0 1); write 3(2)
  fsm 4 from read 3() while read 4(); 0; Gt(0 1)
    outer Pipe owns 5
      inner (i0: 0 .. read 4() by 1 par 1) comb 3: i0; read 4(); Add(0 1); read 5() Bit; read 2() if 3; Add(4 2); mux(3 5 2); write 2(6); 1 Bit; write 5(8) Bit
      branch read 4(); 2; Gt(0 1)
        inner: read 2(); write 1(0)
        inner:
    next read 4(); read 3(); Sub(0 1)
====
val a = DRAM[Int](8)
val b = DRAM[Int](8)
Accel {
  Foreach(8 by 4 par 2){ t =>
    val s = SRAM[Int](4)
    s load a(t::t + 4 par 4)
    b(t::t + 4) store s
  }
}
----
s
outer Pipe
  outer Pipe (i0: 0 .. 8 by 4 par 2) owns 0
    WideLoad 0 with 0 (i0 .. i0; 4; Add(0 1)) par 4
    store 1 from 0 (i0 .. i0; 4; Add(0 1))";

fn program_of(alloc: Global, text: &str) -> Result<Program, Fail> {
    let bytes = text.as_bytes();
    if bytes.len() > 1_048_576 {
        return Err(Fail::from("a text that is too long"));
    }
    match program_of_text(alloc, bytes) {
        Ok(program) => Ok(program),
        Err(SourceError::Read(_)) => Err(Fail::from("a text that isn't read")),
        Err(SourceError::Types(_)) => Err(Fail::from("a text that isn't typed")),
        Err(SourceError::Memory) => Err(Fail::from("out of memory")),
    }
}

#[test]
fn programs_have_the_cores_that_were_written_by_hand(rt: HostRuntime) -> Result<(), Fail> {
    for case in PROGRAMS.split("\n====\n") {
        let (text, expected) = case
            .split_once("\n----\n")
            .ok_or("a program without a core")?;
        let program = program_of(rt.alloc(), text)?;
        let core = desugar(rt.alloc(), &program)?;
        let core = shown(rt.alloc(), &core)?;
        assert_eq!(rt; core.as_str(), expected, "{text}");
    }
    Ok(())
}
