use sp_edges::{MemFile, MemInputs, MemSink, SinkStop};
use sp_top::{Status, spatialc};
use std::alloc::{AllocError, Global};
use std::process::Abort;
use std::test::Fail;

const SUM: &str = "val x = ArgIn[Int]\nval y = ArgOut[Int]\nAccel {\n  y := x + 3\n}\n";

// What a call gave: the status, and what the sinks took.
#[derive(Drop)]
pub(crate) struct Answer {
    pub(crate) status: Status,
    pub(crate) out: Vec<u8>,
    pub(crate) aside: Vec<u8>,
}

// Calls with these words over one file, where `out` stops as told.
pub(crate) fn answer_with(
    alloc: Global,
    words: &[&str],
    name: &str,
    text: &[u8],
    stops: Vec<SinkStop>,
) -> Result<Answer, AllocError> {
    let mut said = Vec::new(alloc);
    for word in words {
        said.push(String::from_str(alloc, word)?)?;
    }
    let mut files = Vec::new(alloc);
    files.push(MemFile {
        name: String::from_str(alloc, name)?,
        bytes: Vec::from_slice(alloc, text)?,
    })?;
    let mut inputs = MemInputs::new(files, Vec::new(alloc));
    let mut out = MemSink::new(alloc, 100_000, stops)?;
    let mut aside = MemSink::new(alloc, 10_000, Vec::new(alloc))?;
    let status = spatialc(alloc, &said, &mut inputs, &mut out, &mut aside);
    Ok(Answer {
        status,
        out: Vec::from_slice(alloc, out.bytes())?,
        aside: Vec::from_slice(alloc, aside.bytes())?,
    })
}

fn answer_to(alloc: Global, words: &[&str], text: &str) -> Result<Answer, AllocError> {
    answer_with(alloc, words, "P", text.as_bytes(), Vec::new(alloc))
}

// How the Verilog text of a netlist with the same ports begins.
const SUM_MODULE: &str = "module spatial(
  input wire clk,
  input wire rst,
  input wire [31:0] in_x,
  output wire [31:0] out_y,
  output wire [0:0] done
);
";

#[test]
fn a_sum_is_printed_as_a_module_with_its_ports(rt: HostRuntime) -> Result<(), Fail> {
    let answer = answer_to(rt.alloc(), &["verilog", "P"], SUM)?;
    assert_eq!(rt; answer.status.number(), 0);
    assert!(rt; answer.out.as_slice().starts_with(SUM_MODULE.as_bytes()));
    assert!(rt; answer.out.as_slice().ends_with(b"endmodule\n"));
    assert_eq!(rt; answer.aside.len(), 0);
    Ok(())
}

// Rows: words; what stands under `F`, `S` and `a`, where `-` is nothing and what follows a `&` stands under `b`; the
// status; and what `out` takes. A `;` ends a line.
const ROWS: &str = "\
|val x = ArgIn[Int];val y = ArgOut[Int];Accel {;  y := x + 3;};|-|-|2|words: not in the command table;\n\
check|val x = ArgIn[Int];val y = ArgOut[Int];Accel {;  y := x + 3;};|-|-|2|words: not in the command table;\n\
--help|val x = ArgIn[Int];val y = ArgOut[Int];Accel {;  y := x + 3;};|-|-|2|words: not in the command table;\n\
compile|val x = ArgIn[Int];val y = ArgOut[Int];Accel {;  y := x + 3;};|-|-|2|words: not in the command table;\n\
compile |val x = ArgIn[Int];val y = ArgOut[Int];Accel {;  y := x + 3;};|-|-|2|words: not in the command table;\n\
compile -F|val x = ArgIn[Int];val y = ArgOut[Int];Accel {;  y := x + 3;};|-|-|2|words: not in the command table;\n\
compile F S|val x = ArgIn[Int];val y = ArgOut[Int];Accel {;  y := x + 3;};||-|2|words: not in the command table;\n\
simulate F|netlist 1;in x 0 s32.0;const 1 32 3;op 2 s32.0 add 0 1;reg 3 32 0 2 4;const 4 1 1;reg 5 1 0 4 4;out y 3 s32.0;done 5;||-|2|words: not in the command table;\n\
simulate F -S|netlist 1;in x 0 s32.0;const 1 32 3;op 2 s32.0 add 0 1;reg 3 32 0 2 4;const 4 1 1;reg 5 1 0 4 4;out y 3 s32.0;done 5;||-|2|words: not in the command table;\n\
simulate F S S|netlist 1;in x 0 s32.0;const 1 32 3;op 2 s32.0 add 0 1;reg 3 32 0 2 4;const 4 1 1;reg 5 1 0 4 4;out y 3 s32.0;done 5;||-|2|words: not in the command table;\n\
check F|val x = ArgIn[Int];val y = ArgOut[Int];Accel {;  y := x + 3;};|-|-|0|ok;\n\
check F|val a = DRAM[Int](67108864); Accel { }|-|-|0|ok;\n\
check F|val a = DRAM[Int](67108865); Accel { }|-|-|4|limit: dram 67108865;\n\
check F|Acc|-|-|1|source: no parse at 0;\n\
check F|Accel { y := 3|-|-|1|source: no parse at 14;\n\
check F|Accel { y := 340282366920938463463374607431768211456 }|-|-|1|source: literal too wide at 13;\n\
check F|val x = ArgIn[Int]; val x = ArgOut[Int]; Accel { }|-|-|3|types: name given twice at 24;\n\
check F|val y = ArgOut[Int]; Accel { y := z }|-|-|3|types: unknown name at 34;\n\
check F|val y = ArgOut[Int]; Accel { y := true }|-|-|3|types: clash at 34, want Int, got Bit;\n\
check F|val y = ArgOut[Int]; Accel { y := y }|-|-|3|types: misused at 34;\n\
check F|val y = ArgOut[Int]; Accel { val s = SRAM[Int](2); y := s(0, 0) }|-|-|3|types: rank at 56, want 1, got 2;\n\
check F|val y = ArgOut[Int]; Accel { Foreach(4 by 1 par 2, 4 by 1){ (i, j) => y := i } }|-|-|3|types: par place at 44;\n\
check F|val y = ArgOut[Int]; Accel { Foreach(4 by 1 par 17){ i => y := i } }|-|-|4|limit: lanes 17;\n\
check Q|Accel { }|-|-|8|read fault;\n\
check F S|Accel { }|-|-|2|words: not in the command table;\n\
format F|val x=ArgIn[Int];val y=ArgOut[Int];Accel{y:=x+3}|-|-|0|val x = ArgIn[Int];val y = ArgOut[Int];Accel {;  y := x + 3;};\n\
format F|// A sum.;val x = ArgIn[Int];val y = ArgOut[Int];;Accel {;;    y := ((x + (3))) - (x - 1) * 2 // and more;  y := (x * 2) / (1 + x); y := -(x) - -3 }|-|-|0|val x = ArgIn[Int];val y = ArgOut[Int];Accel {;  y := x + 3 - (x - 1) * 2;  y := x * 2 / (1 + x);  y := -x - -3;};\n\
format F|val y = ArgOut[Int];Accel { Foreach(0 until 4 by 1, 2 until 8 by 2 par 3){ (i, j) => y := i * j };Pipe { y := 0x10 };Sequential { Sequential.Foreach(4){ i => y := i };Pipe.Foreach(2 by 1 par 1){ i => } } }|-|-|0|val y = ArgOut[Int];Accel {;  Foreach(4 by 1, 2 until 8 by 2 par 3){ (i, j) =>;    y := i * j;  };  Pipe {;    y := 16;  };  Sequential {;    Sequential.Foreach(4 by 1){ i =>;      y := i;    };    Foreach(2 by 1){ i =>;    };  };};\n\
format F|val y = ArgOut[Int];Accel { val s = Reg[Int](0);Reduce(s)(4 by 1){ i => val v = i * i; v }{ (a, b) => a + b };Fold(s)(4 by 1){ i => i }{ (a, b) => min(a, b) };y := s.value }|-|-|0|val y = ArgOut[Int];Accel {;  val s = Reg[Int](0);  Reduce(s)(4 by 1){ i =>;    val v = i * i;    v;  }{_ + _};  Fold(s)(4 by 1){ i =>;    i;  }{(a, b) => min(a, b)};  y := s;};\n\
format F|val y = ArgOut[Int];Accel { FSM(0)(s => s < 4){ t => if (t == 2) { y := t } else { } }{ n => n + 1 };if (!(1 < 2)) { y := 1 } else { y := mux(true, 1, 2) } }|-|-|0|val y = ArgOut[Int];Accel {;  FSM(0)(s => s < 4){ t =>;    if (t == 2) {;      y := t;    };  }{ n => n + 1 };  if (!(1 < 2)) {;    y := 1;  } else {;    y := mux(true, 1, 2);  };};\n\
format F|val p = ArgIn[FixPt[TRUE, _8, _4]];val y = ArgOut[FixPt[TRUE, _8, _4]];val z = ArgOut[FixPt[TRUE,_32,_0]];Accel { y := p + 0.3;y := 3.to[FixPt[TRUE,_8,_4]];z := p.to[Int] << 2;z := 3.to[Int] }|-|-|0|val p = ArgIn[FixPt[TRUE,_8,_4]];val y = ArgOut[FixPt[TRUE,_8,_4]];val z = ArgOut[Int];Accel {;  y := p + 0.25.to[FixPt[TRUE,_8,_4]];  y := 3.to[FixPt[TRUE,_8,_4]];  z := p.to[Int] << 2;  z := 3;};\n\
format F|// The inner product of two vectors of 64 words, in tiles of 16.;val a = DRAM[Int](64);val b = DRAM[Int](64);val product = ArgOut[Int];;Accel {;  val sum = Reg[Int](0);  Foreach(4 by 1){ tile =>;    val x = SRAM[Int](16);    val y = SRAM[Int](16);    x load a(tile * 16::tile * 16 + 16 par 4);    y load b(tile * 16::tile * 16 + 16 par 4);    Fold(sum)(16 by 1 par 4){ i => x(i) * y(i) }{_ + _};  };  product := sum;}|-|-|0|val a = DRAM[Int](64);val b = DRAM[Int](64);val product = ArgOut[Int];Accel {;  val sum = Reg[Int](0);  Foreach(4 by 1){ tile =>;    val x = SRAM[Int](16);    val y = SRAM[Int](16);    x load a(tile * 16::tile * 16 + 16 par 4);    y load b(tile * 16::tile * 16 + 16 par 4);    Fold(sum)(16 by 1 par 4){ i =>;      x(i) * y(i);    }{_ + _};  };  product := sum;};\n\
format F|val b = DRAM[Int](2, 2); val x = ArgIn[Int]; val to = DRAM[Int](2, 4); val y = ArgOut[Int]; Accel {;y := --20 * x >> 63 ; ;;val acc = Reg[Int](-13) ; ;;y := acc ; ;;y := acc * acc * (acc / acc);}|-|-|0|val b = DRAM[Int](2, 2);val x = ArgIn[Int];val to = DRAM[Int](2, 4);val y = ArgOut[Int];Accel {;  y := --20 * x >> 63;  val acc = Reg[Int](-13);  y := acc;  y := acc * acc * (acc / acc);};\n\
format F|val x = ArgIn[Int];val k = ArgIn[FixPt[TRUE,_4,_4]];Accel {;val f = FIFO[Int](11);val acc = Reg[Int];Foreach(6 by 1){ c => f.enq(-x) };Foreach(6 by 1){ j => acc := f.deq() - (x.value >> 1) };};|-|-|0|val x = ArgIn[Int];val k = ArgIn[FixPt[TRUE,_4,_4]];Accel {;  val f = FIFO[Int](11);  val acc = Reg[Int];  Foreach(6 by 1){ c =>;    f.enq(-x);  };  Foreach(6 by 1){ j =>;    acc := f.deq() - (x >> 1);  };};\n\
format F|val img = DRAM[Int](4, 2);val a = DRAM[Int](4, 2);val y0 = ArgOut[Int];val y = ArgOut[Bit];val k = ArgIn[Int];Accel {;val n = Reg[Int](-15);;if (false ^ mux(false, false, n > k)) {;};;val acc = Reg[Bit](true);;acc := acc ^ n.to[Bit];;y := acc;;y := (0x14 % n).to[Bit];;};|-|-|0|val img = DRAM[Int](4, 2);val a = DRAM[Int](4, 2);val y0 = ArgOut[Int];val y = ArgOut[Bit];val k = ArgIn[Int];Accel {;  val n = Reg[Int](-15);  if (false ^ mux(false, false, n > k)) {;  };  val acc = Reg[Bit](true);  acc := acc ^ n.to[Bit];  y := acc;  y := (20 % n).to[Bit];};\n\
format F|val zZ9_ = ArgIn[Int];val d = DRAM[Int](8);val x0 = ArgIn[Int];val x = ArgIn[Int];val X = DRAM[Int](10);Accel {;val p = SRAM[Int](3);MemReduce(p)(-3 until -8 by 1){ (i) =>;val m = SRAM[Int](3);Foreach(3){ c =>;m(c) = i;};m;}{_ + _};val v = (max(x0, zZ9_.value) & 3);};|-|-|0|val zZ9_ = ArgIn[Int];val d = DRAM[Int](8);val x0 = ArgIn[Int];val x = ArgIn[Int];val X = DRAM[Int](10);Accel {;  val p = SRAM[Int](3);  MemReduce(p)(-3 until -8 by 1){ i =>;    val m = SRAM[Int](3);    Foreach(3 by 1){ c =>;      m(c) = i;    };    m;  }{_ + _};  val v = max(x0, zZ9_) & 3;};\n\
format F|val y = ArgOut[Bit];val y0 = ArgOut[Int];val k = ArgIn[Int];val a = DRAM[Bit](5);Accel {;if (true) {;val v = (~(7) % 7 + 7) % 7;;FSM(v + 0)(q => q < 8){ q => }{ q => q + 3 } } else {;if (false) {;} ; ;;Foreach(19 by 5){ c =>;val p = SRAM[Bit](10);} };val acc = Reg[Int](-14);y0 := acc;y0 := -14.to[Int];};|-|-|0|val y = ArgOut[Bit];val y0 = ArgOut[Int];val k = ArgIn[Int];val a = DRAM[Bit](5);Accel {;  if (true) {;    val v = (~7 % 7 + 7) % 7;    FSM(v + 0)(q => q < 8){ q =>;    }{ q => q + 3 };  } else {;    if (false) {;    };    Foreach(19 by 5){ c =>;      val p = SRAM[Bit](10);    };  };  val acc = Reg[Int](-14);  y0 := acc;  y0 := -14;};\n\
report F|val y = ArgOut[Int];Accel {;  val s = SRAM[Int](100);  val o = SRAM[Int](100);  Foreach(100 by 1){ i => s(i) = i };  Foreach(100 by 1){ i => o(i) = s(i) + 1 };  y := o(99);}|-|-|0|mem 0 s banks 1 block 1 alpha 0 hinge 0 depth 1 duplicates 1;mem 1 o banks 1 block 1 alpha 0 hinge 0 depth 1 duplicates 1;ctl 0 outer slots 0 1 2;ctl 1 inner ii 1 latency 1;ctl 2 inner ii 1 latency 4;ctl 3 inner ii 1 latency 3;\n\
report F|val a = DRAM[Int](64);val b = DRAM[Int](64);Accel { Foreach(64 by 16){ t => val s = SRAM[Int](16); s load a(t::t + 16); b(t::t + 16) store s } }|-|-|0|mem 0 s banks 1 block 1 alpha 0 hinge 0 depth 2 duplicates 1;ctl 0 outer slots 0;ctl 1 outer slots 0 1;ctl 2 load;ctl 3 store;\n\
report F|val x = ArgIn[Int];val k = ArgIn[FixPt[TRUE,_4,_4]];Accel {;  val f = FIFO[Int](11);  val acc = Reg[Int];  Foreach(6 by 1){ c =>;    f.enq(-x);  };  Foreach(6 by 1){ j =>;    acc := f.deq() - (x >> 1);  };}|-|-|0|mem 0 f depth 1;mem 1 acc depth 1;ctl 0 outer slots 0 1;ctl 1 inner ii 1 latency 3;ctl 2 inner ii 1 latency 4;\n\
report F|val y = ArgOut[Int]; Accel { y := z }|-|-|3|types: unknown name at 34;\n\
report F S|Accel { }|-|-|2|words: not in the command table;\n\
seq F S|val x = ArgIn[Int];val y = ArgOut[Int];Accel {;  y := x + 3;};|[args];x = 4;|-|0|out y 7;turns 2;\n\
seq F S|val x = ArgIn[Int];val y = ArgOut[Int];Accel {;  y := x + 3;};|[args];x = 2147483647;|-|0|out y -2147483646;turns 2;\n\
seq F S|val x = ArgIn[Int];val y = ArgOut[Int];Accel {;  y := x + 3;};|turns = 2;[args];x = 4;|-|0|out y 7;turns 2;\n\
seq F S|val x = ArgIn[Int];val y = ArgOut[Int];Accel {;  y := x + 3;};|turns = 1;[args];x = 4;|-|7|turns spent: 1;\n\
seq F S|val x = ArgIn[Int];val y = ArgOut[Int];Accel {;  y := x + 3;};|turns = 0;[args];x = 4;|-|5|setup: range turns at 0;\n\
seq F S|val x = ArgIn[Int];val y = ArgOut[Int];Accel {;  y := x + 3;};|delays = [0, 1000001];[args];x = 4;|-|5|setup: range delays at 1;\n\
seq F S|val x = ArgIn[Int];val y = ArgOut[Int];Accel {;  y := x + 3;};|[args];x = \"4.75\";|-|0|out y 7;turns 2;\n\
seq F S|val x = ArgIn[Int];val y = ArgOut[Int];Accel {;  y := x + 3;};|[args];x = \"-0.5\";|-|0|out y 2;turns 2;\n\
seq F S|val x = ArgIn[Int];val y = ArgOut[Int];Accel {;  y := x + 3;};||-|5|setup: missing args.x;\n\
seq F S|val x = ArgIn[Int];val y = ArgOut[Int];Accel {;  y := x + 3;};|[args];x = 2147483648;|-|5|setup: range args.x at 0;\n\
seq F S|val x = ArgIn[Int];val y = ArgOut[Int];Accel {;  y := x + 3;};|[args];x = 4;z = 1;|-|5|setup: key args.z;\n\
seq F S|val x = ArgIn[Int];val y = ArgOut[Int];Accel {;  y := x + 3;};|x = = 1;|-|5|setup: no toml;\n\
seq F S|val x = ArgIn[Int];val y = ArgOut[Int];Accel {;  y := x + 3;};|-|-|8|read fault;\n\
seq F S|val y = ArgOut[Int]; Accel { Foreach(0 by 1){ i => y := i } }||-|0|out y 0;turns 2;\n\
seq F S|val y = ArgOut[Int]; Accel { Foreach(15 until 0){ i => y := i } }||-|0|out y 0;turns 2;\n\
seq F S|val c = DRAM[Int](10);Accel {;val s = SRAM[Int](10);Foreach(10 by 1 par 4){ i => s(i) = i * i };c(0::10) store s;};||-|0|dram c 0 1 4 9 16 25 36 49 64 81;turns 34;\n\
seq F S|val a = DRAM[Int](8);val c = DRAM[Int](4);Accel {;  val s = SRAM[Int](8);  val h = SRAM[Int](4);  s load a(0::8);  Foreach(4 by 1){ j => h(j) = 0 };  Foreach(8 by 1){ i =>;    val v = s(i);    h(v) = h(v) + 1;  };  c(0::4) store h;};|[dram];a = \"a\";|0,1,1,3;1,0,2,1;|0|dram a 0 1 1 3 1 0 2 1;dram c 2 4 1 1;turns 51;\n\
seq F S|val a = DRAM[Int](8);Accel {;};|[dram];a = \"a\";|0,1,1,3;1,0,2;|5|setup: size dram.a, want 8, got 7;\n\
seq F S|val a = DRAM[Int](4);Accel {;};|[dram];a = \"a\";|1,2;3,four;|5|setup: csv dram.a row 2;\n\
seq F S|val y = ArgOut[Int]; Accel { val s = SRAM[Int](2); y := s(0) }||-|6|fault: Unwritten at 56;\n\
seq F S|val y = ArgOut[Int]; Accel { val s = SRAM[Int](2); y := s(2) }||-|6|fault: Bounds at 56;\n\
seq F S|val y = ArgOut[Int]; Accel { val f = FIFO[Int](4); Foreach(5 by 1){ i => f.enq(i) } }||-|6|fault: FifoFull at 73;\n\
seq F S|val x = ArgIn[Int];val y = ArgOut[Int];Accel {;val n = Reg[Int](0);FSM(x)(s => s > 0){ s => n := n + s }{ s => s - 1 };y := n;};|[args];x = 0;|-|0|out y 0;turns 4;\n\
seq F S|val x = ArgIn[Int];val y = ArgOut[Int];Accel {;val n = Reg[Int](0);FSM(x)(s => s > 0){ s => n := n + s }{ s => s - 1 };y := n;};|[args];x = 5;|-|0|out y 15;turns 14;\n\
seq F S|val x = ArgIn[Int];val y = ArgOut[Int];Accel {;val n = Reg[Int](0);FSM(x)(s => s > 0){ s => n := n + s }{ s => s - 1 };y := n;};|turns = 1;[args];x = 5;|-|7|turns spent: 1;\n\
seq F S|val x = ArgIn[Int];val y = ArgOut[Int];Accel {;val n = Reg[Int](0);FSM(x)(s => s > 0){ s => n := n + s }{ s => s - 1 };y := n;};|turns = 2;[args];x = 5;|-|7|turns spent: 2;\n\
seq F S|val x = ArgIn[Int];val y = ArgOut[Int];Accel {;val n = Reg[Int](0);FSM(x)(s => s > 0){ s => n := n + s }{ s => s - 1 };y := n;};|turns = 3;[args];x = 5;|-|7|turns spent: 3;\n\
seq F S|val x = ArgIn[Int];val y = ArgOut[Int];Accel {;val n = Reg[Int](0);FSM(x)(s => s > 0){ s => n := n + s }{ s => s - 1 };y := n;};|turns = 4;[args];x = 5;|-|7|turns spent: 4;\n\
seq F S|val x = ArgIn[Int];val y = ArgOut[Int];Accel {;val n = Reg[Int](0);FSM(x)(s => s > 0){ s => n := n + s }{ s => s - 1 };y := n;};|turns = 5;[args];x = 5;|-|7|turns spent: 5;\n\
seq F S|val x = ArgIn[Int];val y = ArgOut[Int];Accel {;val n = Reg[Int](0);FSM(x)(s => s > 0){ s => n := n + s }{ s => s - 1 };y := n;};|turns = 6;[args];x = 5;|-|7|turns spent: 6;\n\
seq F S|val x = ArgIn[Int];val y = ArgOut[Int];Accel {;val n = Reg[Int](0);FSM(x)(s => s > 0){ s => n := n + s }{ s => s - 1 };y := n;};|turns = 7;[args];x = 5;|-|7|turns spent: 7;\n\
seq F S|val x = ArgIn[Int];val y = ArgOut[Int];Accel {;val n = Reg[Int](0);FSM(x)(s => s > 0){ s => n := n + s }{ s => s - 1 };y := n;};|turns = 8;[args];x = 5;|-|7|turns spent: 8;\n\
seq F S|val x = ArgIn[Int];val y = ArgOut[Int];Accel {;val n = Reg[Int](0);FSM(x)(s => s > 0){ s => n := n + s }{ s => s - 1 };y := n;};|turns = 9;[args];x = 5;|-|7|turns spent: 9;\n\
seq F S|val x = ArgIn[Int];val y = ArgOut[Int];Accel {;val n = Reg[Int](0);FSM(x)(s => s > 0){ s => n := n + s }{ s => s - 1 };y := n;};|turns = 10;[args];x = 5;|-|7|turns spent: 10;\n\
seq F S|val x = ArgIn[Int];val y = ArgOut[Int];Accel {;val n = Reg[Int](0);FSM(x)(s => s > 0){ s => n := n + s }{ s => s - 1 };y := n;};|turns = 11;[args];x = 5;|-|7|turns spent: 11;\n\
seq F S|val x = ArgIn[Int];val y = ArgOut[Int];Accel {;val n = Reg[Int](0);FSM(x)(s => s > 0){ s => n := n + s }{ s => s - 1 };y := n;};|turns = 12;[args];x = 5;|-|7|turns spent: 12;\n\
seq F S|val x = ArgIn[Int];val y = ArgOut[Int];Accel {;val n = Reg[Int](0);FSM(x)(s => s > 0){ s => n := n + s }{ s => s - 1 };y := n;};|turns = 13;[args];x = 5;|-|7|turns spent: 13;\n\
seq F S|val x = ArgIn[Int];val y = ArgOut[Int];Accel {;val n = Reg[Int](0);FSM(x)(s => s > 0){ s => n := n + s }{ s => s - 1 };y := n;};|turns = 14;[args];x = 5;|-|0|out y 15;turns 14;\n\
seq F S|val c = DRAM[Int](4);Accel {;val f = FIFO[Int](4);val s = SRAM[Int](4);Foreach(4 by 1){ i => f.enq(i * i) };Foreach(4 by 1){ i => s(i) = f.deq() };c(0::4) store s;};||-|0|dram c 0 1 4 9;turns 26;\n\
seq F S|val a = DRAM[FixPt[FALSE,_64,_0]](2);Accel {;};|[dram];a = \"a\";|18446744073709551615,0;|0|dram a 18446744073709551615 0;turns 1;\n\
seq F S|val x = ArgIn[FixPt[TRUE,_8,_8]];val z = ArgIn[FixPt[TRUE,_8,_8]];val y = ArgOut[FixPt[TRUE,_8,_8]];Accel {;y := x * z;};|[args];x = \"1.5\";z = \"-2.25\";|-|0|out y -3.375;turns 2;\n\
seq F S|val x = ArgIn[FixPt[TRUE,_8,_8]];val z = ArgIn[FixPt[TRUE,_8,_8]];val y = ArgOut[FixPt[TRUE,_8,_8]];Accel {;y := x * z;};|[args];x = \"0.00390625\";z = \"-0.00390625\";|-|0|out y -0.00390625;turns 2;\n\
seq F S|Acc|-|-|1|source: no parse at 0;\n\
seq F S|val y = ArgOut[Int]; Accel { y := z }|-|-|3|types: unknown name at 34;\n\
seq F S|val y = ArgOut[Int]; Accel { Foreach(4 by 1 par 17){ i => y := i } }|-|-|4|limit: lanes 17;\n\
seq F S|val b = DRAM[Int](5);Accel {;Foreach(4 by 1 par 2){ t => val s = SRAM[Int](2); Foreach(2 by 1){ j => s(j) = t }; b(t::t + 2) store s };};||-|0|dram b 0 1 2 3 3;turns 42;\n\
seq F S|val c = DRAM[Int](2);Accel {;val acc = SRAM[Int](2);MemReduce(acc)(3 by 1){ k => val p = SRAM[Int](2); Foreach(2 by 1){ i => p(i) = k * 10 + i }; p }{_ + _};c(0::2) store acc;};||-|0|dram c 30 33;turns 33;\n\
seq F S|val a = DRAM[Int](8);val b = DRAM[Int](8);Accel {;Foreach(8 by 4){ t => val s = SRAM[Int](4); s load a(t::t + 4); b(t::t + 4) store s };};|[dram];a = \"a\";|1,2,3,4;5,6,7,8;|0|dram a 1 2 3 4 5 6 7 8;dram b 1 2 3 4 5 6 7 8;turns 26;\n\
seq F S|val img = DRAM[Int](4, 5);val res = DRAM[Int](2, 3);Accel {;  val lb = LineBuffer[Int](3, 5);  val o = SRAM[Int](3);  Foreach(4 by 1){ r =>;    lb load img(r, 0::5);    if (r >= 2) {;      Foreach(3 by 1){ c =>;        val s = Reg[Int](0);        Reduce(s)(3 by 1, 3 by 1){ (i, j) => lb(i, c + j) }{_ + _};        o(c) = s;      };      res(r - 2, 0::3) store o;    };  };};|[dram];img = \"a\";|0,1,2,3,4,5,6,7,8,9,10,11,12,13,14,15,16,17,18,19;|0|dram img 0 1 2 3 4 5 6 7 8 9 10 11 12 13 14 15 16 17 18 19;dram res 54 63 72 99 108 117;turns 124;\n\
seq F S|val img = DRAM[Int](4, 5);val res = DRAM[Int](2, 3);Accel {;  val lb = LineBuffer[Int](3, 4);  val o = SRAM[Int](3);  Foreach(4 by 1){ r =>;    lb load img(r, 0::5);    if (r >= 2) {;      Foreach(3 by 1){ c =>;        val s = Reg[Int](0);        Reduce(s)(3 by 1, 3 by 1){ (i, j) => lb(i, c + j) }{_ + _};        o(c) = s;      };      res(r - 2, 0::3) store o;    };  };};|[dram];img = \"a\";|0,1,2,3,4,5,6,7,8,9,10,11,12,13,14,15,16,17,18,19;|6|fault: RowLength at 144;\n\
seq F S|val y = ArgOut[Int];Accel {;val acc = Reg[Int](0);Stream { val f = FIFO[Int](2); val g = FIFO[Int](2); Foreach(8 by 1){ i => f.enq(i) }; Foreach(8 by 1){ i => g.enq(f.deq() * 2) }; Reduce(acc)(8 by 1){ i => g.deq() }{_ + _} };y := acc;};||-|0|out y 56;turns 49;\n\
seq F S|val y = ArgOut[Int]; Accel { Stream { val f = FIFO[Int](2); Foreach(8 by 1){ i => f.enq(i) }; Foreach(5 by 1){ i => y := f.deq() } } }||-|6|fault: FifoFull at 29;\n\
seq F S|val y = ArgOut[Int]; Accel { Stream { val f = FIFO[Int](2); Foreach(8 by 1){ i => f.enq(i) }; Foreach(6 by 1){ i => y := f.deq() } } }||-|0|out y 5;turns 33;\n\
seq F S|val y = ArgOut[Int];Accel {;val s = SRAM[Int](1);s(0) = 7;Foreach(4 by 1){ i => y := s(mux(i == 0, 1, 0)) };};||-|6|fault: Bounds at 85;\n\
seq F S|val y = ArgOut[Int];Accel {;val s = SRAM[Int](2);s(0) = 7;Foreach(4 by 1){ i => y := s(mux(i == 0, 1, 0)) };};||-|6|fault: Unwritten at 85;\n\
seq F S|val y = ArgOut[Int];Accel {;val f = FIFO[Int](1);Foreach(4 by 1){ i => f.enq(i);if (i == 0) { f.enq(7) };y := f.deq() };};||-|6|fault: FifoFull at 94;\n\
seq F S|val y = ArgOut[Int];Accel {;val f = FIFO[Int](1);Foreach(4 by 1){ i => f.enq(i);if (i == 0) { y := f.deq() };y := f.deq() + 1 };};||-|6|fault: FifoEmpty at 114;\n\
seq F S|val a = DRAM[Int](4);Accel {;val s = SRAM[Int](2);Foreach(4 by 1){ i => s load a(mux(i == 0, 3, 0)::mux(i == 0, 5, 2)) };};||-|6|fault: DramBounds at 72;\n\
seq F S|val a = DRAM[Int](2, 4);Accel {;val l = LineBuffer[Int](2, 2);Foreach(4 by 1){ i => l load a(0, 0::mux(i == 0, 3, 2)) };};||-|6|fault: RowLength at 84;\n\
seq F S|val y = ArgOut[Int];Accel {;val s = SRAM[Int](1);s(0) = 7;Foreach(4 by 1){ i => y := s(mux(i == 2, 1, 0)) };};||-|6|fault: Bounds at 85;\n\
seq F S|val y = ArgOut[Int];Accel {;val s = SRAM[Int](2);s(0) = 7;Foreach(4 by 1){ i => y := s(mux(i == 2, 1, 0)) };};||-|6|fault: Unwritten at 85;\n\
seq F S|val y = ArgOut[Int];Accel {;val f = FIFO[Int](1);Foreach(4 by 1){ i => f.enq(i);if (i == 2) { f.enq(7) };y := f.deq() };};||-|6|fault: FifoFull at 94;\n\
seq F S|val y = ArgOut[Int];Accel {;val f = FIFO[Int](1);Foreach(4 by 1){ i => f.enq(i);if (i == 2) { y := f.deq() };y := f.deq() + 1 };};||-|6|fault: FifoEmpty at 114;\n\
seq F S|val a = DRAM[Int](4);Accel {;val s = SRAM[Int](2);Foreach(4 by 1){ i => s load a(mux(i == 2, 3, 0)::mux(i == 2, 5, 2)) };};||-|6|fault: DramBounds at 72;\n\
seq F S|val a = DRAM[Int](2, 4);Accel {;val l = LineBuffer[Int](2, 2);Foreach(4 by 1){ i => l load a(0, 0::mux(i == 2, 3, 2)) };};||-|6|fault: RowLength at 84;\n\
seq F S|val y = ArgOut[Int];Accel {;val s = SRAM[Int](1);s(0) = 7;Foreach(4 by 1){ i => y := s(mux(i == 3, 1, 0)) };};||-|6|fault: Bounds at 85;\n\
seq F S|val y = ArgOut[Int];Accel {;val s = SRAM[Int](2);s(0) = 7;Foreach(4 by 1){ i => y := s(mux(i == 3, 1, 0)) };};||-|6|fault: Unwritten at 85;\n\
seq F S|val y = ArgOut[Int];Accel {;val f = FIFO[Int](1);Foreach(4 by 1){ i => f.enq(i);if (i == 3) { f.enq(7) };y := f.deq() };};||-|6|fault: FifoFull at 94;\n\
seq F S|val y = ArgOut[Int];Accel {;val f = FIFO[Int](1);Foreach(4 by 1){ i => f.enq(i);if (i == 3) { y := f.deq() };y := f.deq() + 1 };};||-|6|fault: FifoEmpty at 114;\n\
seq F S|val a = DRAM[Int](4);Accel {;val s = SRAM[Int](2);Foreach(4 by 1){ i => s load a(mux(i == 3, 3, 0)::mux(i == 3, 5, 2)) };};||-|6|fault: DramBounds at 72;\n\
seq F S|val a = DRAM[Int](2, 4);Accel {;val l = LineBuffer[Int](2, 2);Foreach(4 by 1){ i => l load a(0, 0::mux(i == 3, 3, 2)) };};||-|6|fault: RowLength at 84;\n\
seq F S|val c = DRAM[Int](4);Accel {;val f = FIFO[Int](4);val s = SRAM[Int](4);Foreach(4 by 1){ i => f.enq(i * i) };Foreach(5 by 1){ i => s(mux(i == 4, 0, i)) = f.deq() };c(0::4) store s;};||-|6|fault: FifoEmpty at 153;\n\
seq F S|val a = DRAM[Int](64);val b = DRAM[Int](64);val y = ArgOut[Int];Accel {;  val acc = Reg[Int](0);  Reduce(acc)(64 by 16){ t =>;    val ta = SRAM[Int](16);    val tb = SRAM[Int](16);    ta load a(t::t + 16);    tb load b(t::t + 16);    val part = Reg[Int](0);    Reduce(part)(16 by 1 par 4){ i => ta(i) * tb(i) }{_ + _};    part;  }{_ + _};  y := acc;};|[dram];a = \"a\";b = \"b\";|0,1,2,3,4,5,6,7,8,9,10,11,12,13,14,15,16,17,18,19,20,21,22,23,24,25,26,27,28,29,30,31,32,33,34,35,36,37,38,39,40,41,42,43,44,45,46,47,48,49,50,51,52,53,54,55,56,57,58,59,60,61,62,63;&1,1,1,1,1,1,1,1,1,1,1,1,1,1,1,1,1,1,1,1,1,1,1,1,1,1,1,1,1,1,1,1,1,1,1,1,1,1,1,1,1,1,1,1,1,1,1,1,1,1,1,1,1,1,1,1,1,1,1,1,1,1,1,1;|0|out y 2016;dram a 0 1 2 3 4 5 6 7 8 9 10 11 12 13 14 15 16 17 18 19 20 21 22 23 24 25 26 27 28 29 30 31 32 33 34 35 36 37 38 39 40 41 42 43 44 45 46 47 48 49 50 51 52 53 54 55 56 57 58 59 60 61 62 63;dram b 1 1 1 1 1 1 1 1 1 1 1 1 1 1 1 1 1 1 1 1 1 1 1 1 1 1 1 1 1 1 1 1 1 1 1 1 1 1 1 1 1 1 1 1 1 1 1 1 1 1 1 1 1 1 1 1 1 1 1 1 1 1 1 1;turns 224;\n\
seq F S|val a = DRAM[FixPt[TRUE,_8,_8]](4);val y = ArgOut[FixPt[TRUE,_8,_8]];Accel {;val s = SRAM[FixPt[TRUE,_8,_8]](4);s load a(0::4);val r = Reg[FixPt[TRUE,_8,_8]];Reduce(r)(4 by 1 par 4){ i => s(i) }{_ * _};y := r;};|[dram];a = \"a\";|0.01171875,1,0.5,2;|0|out y 0.0078125;dram a 0.01171875 1 0.5 2;turns 14;\n\
seq F S|val a = DRAM[Int](8);val q = DRAM[Int](4);val b = DRAM[Int](8);Accel {;  val p = SRAM[Int](4);  val s = SRAM[Int](4);  p load q(0::4);  s gather a(p, 4);  b(p, 4) scatter s;};|[dram];a = \"a\";q = \"b\";|10,20,30,40;50,60,70,80;&3,0,7,7;|0|dram a 10 20 30 40 50 60 70 80;dram q 3 0 7 7;dram b 10 0 0 40 0 0 0 80;turns 18;\n\
seq F S|val a = DRAM[Int](8);val q = DRAM[Int](4);val b = DRAM[Int](8);Accel {;  val p = SRAM[Int](4);  val s = SRAM[Int](4);  p load q(0::4);  s gather a(p, 4);  b(p, 4) scatter s;};|[dram];a = \"a\";q = \"b\";|10,20,30,40;50,60,70,80;&3,0,8,7;|6|fault: DramBounds at 136;\n\
seq F|val x = ArgIn[Int];val y = ArgOut[Int];Accel {;  y := x + 3;};|[args];x = 4;|-|2|words: not in the command table;\n\
seq F S S|val x = ArgIn[Int];val y = ArgOut[Int];Accel {;  y := x + 3;};|[args];x = 4;|-|2|words: not in the command table;\n\
seq F -S|val x = ArgIn[Int];val y = ArgOut[Int];Accel {;  y := x + 3;};|[args];x = 4;|-|2|words: not in the command table;\n\
seq Q S|val x = ArgIn[Int];val y = ArgOut[Int];Accel {;  y := x + 3;};|[args];x = 4;|-|8|read fault;\n\
seq S F|[args];x = 4;|val x = ArgIn[Int];val y = ArgOut[Int];Accel {;  y := x + 3;};|-|0|out y 7;turns 2;\n\
format F|val a = DRAM[Int](67108865); Accel { }|-|-|4|limit: dram 67108865;\n\
format F|Accel { y := 3|-|-|1|source: no parse at 14;\n\
format F|val y = ArgOut[Int]; Accel { y := z }|-|-|3|types: unknown name at 34;\n\
format Q|Accel { }|-|-|8|read fault;\n\
format F S|Accel { }|-|-|2|words: not in the command table;\n\
compile Q|val x = ArgIn[Int];val y = ArgOut[Int];Accel {;  y := x + 3;};|-|-|8|read fault;\n\
compile F||-|-|1|source: no parse at 0;\n\
compile F|Accel { y := 3|-|-|1|source: no parse at 14;\n\
verilog F|val x = ArgIn[Int]; val x = ArgOut[Int]; Accel { }|-|-|3|types: name given twice at 24;\n\
compile F|val a = DRAM[Int](67108865); Accel { }|-|-|4|limit: dram 67108865;\n\
compile F|val a = DRAM[Int](4); val y = ArgOut[Int]; Accel { val r = Reg[Int](0); val s = SRAM[Int](4); a(r::r + 4) store s }|-|-|15|unbuilt at line 3;\n\
compile F|val a = DRAM[Int](4); Accel { val p = SRAM[Int](4); val s = SRAM[Int](4); s gather a(p, 4) }|-|-|15|unbuilt at line 2;\n\
verilog F|val a = DRAM[Int](4); Accel { val p = SRAM[Int](4); val s = SRAM[Int](4); a(p, 4) scatter s }|-|-|15|unbuilt at line 2;\n\
verilog F|Accel { val s = LineBuffer[Int](2, 4) }|-|-|15|unbuilt at line 1;\n\
run F S|Accel { val s = LineBuffer[Int](2, 4) }||-|15|unbuilt at line 1;\n\
run F S|val y = ArgOut[Int]; Accel { val r = Reg[Int]; y := r }||-|6|fault: Unwritten at 52;\n\
run F S|val x = ArgIn[Int];val y = ArgOut[Int];Accel {;  y := x + 3;};|turns = 1;[args];x = 4;|-|7|turns spent: 1;\n\
run F|Accel { }|-|-|2|words: not in the command table;\n\
verilog F S|val x = ArgIn[Int];val y = ArgOut[Int];Accel {;  y := x + 3;};||-|2|words: not in the command table;\n\
simulate F S|netlist 1;in x 0 s32.0;const 1 32 3;op 2 s32.0 add 0 1;reg 3 32 0 2 4;const 4 1 1;reg 5 1 0 4 4;out y 3 s32.0;done 5;|[args];x = 4;|-|0|out y 7;cycles 1;\n\
simulate F S|netlist 1;in x 0 s32.0;const 1 32 3;op 2 s32.0 add 0 1;reg 3 32 0 2 4;const 4 1 1;reg 5 1 0 4 4;out y 3 s32.0;done 5;|cycles = 1;[args];x = 4;|-|0|out y 7;cycles 1;\n\
simulate F S|netlist 1;in x 0 s32.0;const 1 32 3;op 2 s32.0 add 0 1;reg 3 32 0 2 4;const 4 1 1;reg 5 1 0 4 4;done 5;|[args];x = 4;|-|0|cycles 1;\n\
waves F|netlist 1;in x 0 s32.0;const 1 32 3;op 2 s32.0 add 0 1;reg 3 32 0 2 4;const 4 1 1;reg 5 1 0 4 4;out y 3 s32.0;done 5;|[args];x = 4;|-|2|words: not in the command table;\n\
waves F S|netlist 1;in x 0 s32.0;const 1 32 3;op 2 s32.0 add 0 1;reg 3 32 0 2 4;const 4 1 1;reg 5 1 0 4 4;out y 3 s32.0;done 5;|[args];x = 4;|-|0|$version spatialc $end;$timescale 1ns $end;$comment in_x s32.0 $end;$comment out_y s32.0 $end;$scope module spatial $end;$var wire 1 ! clk $end;$var wire 32 \" in_x $end;$var wire 32 # out_y $end;$var wire 1 $ done $end;$var wire 32 % n0 $end;$var wire 32 & n1 $end;$var wire 32 ' n2 $end;$var wire 32 ( n3 $end;$var wire 1 ) n4 $end;$var wire 1 * n5 $end;$upscope $end;$enddefinitions $end;#0;$dumpvars;1!;b100 \";b0 #;0$;b100 %;b11 &;b111 ';b0 (;1);0*;$end;#5;0!;#10;1!;b111 #;1$;b111 (;1*;#15;0!;#20;\n\
waves F S|netlist 1;const 0 1 0;done 0;|cycles = 1;|-|0|$version spatialc $end;$timescale 1ns $end;$scope module spatial $end;$var wire 1 ! clk $end;$var wire 1 \" done $end;$var wire 1 # n0 $end;$upscope $end;$enddefinitions $end;#0;$dumpvars;1!;0\";0#;$end;#5;0!;#10;1!;#15;0!;#20;\n\
waves F S|netlist 1;in x 0 s32.0;const 1 32 3;op 2 s32.0 add 0 1;reg 3 32 0 2 4;const 4 1 1;reg 5 1 0 4 4;out y 3 s32.0;done 5;||-|5|setup: missing args.x;\n\
waves F S|netlist 1;const 0 1 0;||-|11|listing: no listing at line 3;\n\
simulate F S|in x 0 s32.0;const 1 32 3;op 2 s32.0 add 0 1;reg 3 32 0 2 4;const 4 1 1;reg 5 1 0 4 4;out y 3 s32.0;done 5;|[args];x = 4;|-|11|listing: no listing at line 1;\n\
simulate F S|netlist 1;in x 0 s32.0;const 1 32 3;op 2 s32.0 add 0 1;reg 3 32 0 2 4;const 4 1 1;reg 5 1 0 4 4;out y 3 s32.0;|[args];x = 4;|-|11|listing: no listing at line 9;\n\
simulate F S|netlist 1;const 1 32 3;op 2 s32.0 add 0 1;reg 3 32 0 2 4;const 4 1 1;reg 5 1 0 4 4;out y 3 s32.0;done 5;||-|11|listing: net 0 is not driven once;\n\
simulate F S|netlist 1;in x 0 s32.0;op 2 s32.0 add 0 1;reg 3 32 0 2 4;const 4 1 1;reg 5 1 0 4 4;out y 3 s32.0;done 5;||-|11|listing: net 1 is not driven once;\n\
simulate F S|netlist 1;in x 0 s32.0;const 1 32 3;reg 3 32 0 2 4;const 4 1 1;reg 5 1 0 4 4;out y 3 s32.0;done 5;||-|11|listing: net 2 is not driven once;\n\
simulate F S|netlist 1;in x 0 s32.0;const 1 32 3;op 2 s32.0 add 0 1;const 4 1 1;reg 5 1 0 4 4;out y 3 s32.0;done 5;||-|11|listing: net 3 is not driven once;\n\
simulate F S|netlist 1;in x 0 s32.0;const 1 32 3;op 2 s32.0 add 0 1;reg 3 32 0 2 4;reg 5 1 0 4 4;out y 3 s32.0;done 5;||-|11|listing: net 4 is not driven once;\n\
simulate F S|netlist 1;in x 0 s32.0;const 1 32 3;op 2 s32.0 add 0 1;reg 3 32 0 2 4;const 4 1 1;out y 3 s32.0;done 5;||-|11|listing: net 5 is not driven once;\n\
simulate F S|netlist 2;||-|11|listing: no listing at line 1;\n\
simulate F S|netlist 1;not 0 u1.0 0;done 0;||-|11|listing: loop through net 0;\n\
simulate F S|netlist 1;in x 0 s32.0;const 1 32 3;op 2 s32.0 add 0 1;reg 3 32 0 2 4;const 4 1 1;reg 5 2 0 4 4;out y 3 s32.0;done 5;||-|11|listing: width of net 4;\n\
simulate F S|netlist 1;dram 0 a u8.0 67108864;const 0 1 1;done 0;|x = = 1;|-|5|setup: no toml;\n\
simulate F S|netlist 1;dram 0 a u8.0 67108865;const 0 1 1;done 0;||-|11|listing: limit 67108865;\n\
simulate F S|netlist 1;const 0 1 1;const 1 32 0;reg 2 1 0 0 0;bank 0 8 4;read 3 0 2 1;read 4 0 2 1;const 4 1 0;done 4;||-|11|listing: net 4 is not driven once;\n\
simulate F S|netlist 1;const 0 1 1;const 1 32 0;reg 2 1 0 0 0;bank 0 8 4;read 3 0 2 1;read 4 0 2 1;const 5 1 0;done 5;||-|12|conflict: cycle 1, bank 0, read port;\n\
simulate F S|netlist 1;const 0 1 1;const 1 32 0;reg 2 1 0 0 0;bank 0 8 4;read 3 0 2 1;const 5 1 0;done 5;|cycles = 10;|-|13|cycles spent: 10;\n\
simulate F S|netlist 1;in x 0 s32.0;const 1 32 3;op 2 s32.0 add 0 1;reg 3 32 0 2 4;const 4 1 1;reg 5 1 0 4 4;out y 3 s32.0;done 5;||-|5|setup: missing args.x;\n\
simulate F S|netlist 1;in x 0 s32.0;const 1 32 3;op 2 s32.0 add 0 1;reg 3 32 0 2 4;const 4 1 1;reg 5 1 0 4 4;out y 3 s32.0;done 5;|[args];x = 2147483648;|-|5|setup: range args.x at 0;\n\
simulate F S|netlist 1;in x 0 s32.0;const 1 32 3;op 2 s32.0 add 0 1;reg 3 32 0 2 4;const 4 1 1;reg 5 1 0 4 4;out y 3 s32.0;done 5;|[args];x = 4;z = 1;|-|5|setup: key args.z;\n\
simulate F S|netlist 1;in x 0 s32.0;const 1 32 3;op 2 s32.0 add 0 1;reg 3 32 0 2 4;const 4 1 1;reg 5 1 0 4 4;out y 3 s32.0;done 5;|[args];x = = 1;|-|5|setup: no toml;\n\
simulate Q S|netlist 1;in x 0 s32.0;const 1 32 3;op 2 s32.0 add 0 1;reg 3 32 0 2 4;const 4 1 1;reg 5 1 0 4 4;out y 3 s32.0;done 5;|[args];x = 4;|-|8|read fault;\n\
simulate F Q|netlist 1;in x 0 s32.0;const 1 32 3;op 2 s32.0 add 0 1;reg 3 32 0 2 4;const 4 1 1;reg 5 1 0 4 4;out y 3 s32.0;done 5;|-|-|8|read fault;\n\
simulate F S|netlist 1;dram 0 a s32.0 2;const 0 1 1;const 1 32 1;const 2 32 1;op 4 s32.0 add 3 1;reg 3 32 0 4 5;load 0 0 5 6 0 7 3;op 7 s32.0 eq 3 2;op 8 bit and 5 7;reg 9 1 0 8 0;out y 6 s32.0;done 9;|[dram];a = 'q';|-|8|read fault;\n\
simulate F S|netlist 1;dram 0 a s32.0 2;const 0 1 1;const 1 32 1;const 2 32 1;op 4 s32.0 add 3 1;reg 3 32 0 4 5;load 0 0 5 6 0 7 3;op 7 s32.0 eq 3 2;op 8 bit and 5 7;reg 9 1 0 8 0;out y 6 s32.0;done 9;|[dram];a = 'a';|1,2,3;|5|setup: size dram.a, want 2, got 3;\n\
simulate F S|netlist 1;dram 0 a s32.0 2;const 0 1 1;const 1 32 1;const 2 32 1;op 4 s32.0 add 3 1;reg 3 32 0 4 5;load 0 0 5 6 0 7 3;op 7 s32.0 eq 3 2;op 8 bit and 5 7;reg 9 1 0 8 0;out y 6 s32.0;done 9;|[dram];a = 'a';|1;x;|5|setup: csv dram.a row 2;\n\
simulate F S|netlist 1;dram 0 a s32.0 20;const 0 1 1;const 1 32 1;const 2 32 19;op 4 s32.0 add 3 1;reg 3 32 0 4 5;load 0 0 5 6 0 7 3;op 7 s32.0 eq 3 2;op 8 bit and 5 7;reg 9 1 0 8 0;out y 6 s32.0;done 9;||-|0|out y 0;dram a 0 0 0 0 0 0 0 0 0 0 0 0 0 0 0 0 0 0 0 0;cycles 21;\n\
simulate F S|netlist 1;dram 0 a s32.0 20;const 0 1 1;const 1 32 1;const 2 32 19;op 4 s32.0 add 3 1;reg 3 32 0 4 5;load 0 0 5 6 0 7 3;op 7 s32.0 eq 3 2;op 8 bit and 5 7;reg 9 1 0 8 0;out y 6 s32.0;done 9;|delays = [3];|-|0|out y 0;dram a 0 0 0 0 0 0 0 0 0 0 0 0 0 0 0 0 0 0 0 0;cycles 24;\n\
simulate F S|netlist 1;dram 0 a s32.0 20;const 0 1 1;const 1 32 1;const 2 32 19;op 4 s32.0 add 3 1;reg 3 32 0 4 5;load 0 0 5 6 0 7 3;op 7 s32.0 eq 3 2;op 8 bit and 5 7;reg 9 1 0 8 0;out y 6 s32.0;done 9;|delays = [3, 2];|-|0|out y 0;dram a 0 0 0 0 0 0 0 0 0 0 0 0 0 0 0 0 0 0 0 0;cycles 26;\n\
simulate F S|netlist 1;dram 0 a s32.0 2;const 0 1 1;const 1 32 1;const 2 32 1;op 4 s32.0 add 3 1;reg 3 32 0 4 5;load 0 0 5 6 0 7 3;op 7 s32.0 eq 3 2;op 8 bit and 5 7;reg 9 1 0 8 0;out y 6 s32.0;done 9;|[dram];a = 'a';|7,-8;|0|out y -8;dram a 7 -8;cycles 3;\n";

fn field<'a>(rt: &impl Abort, found: Option<&'a str>) -> &'a str {
    found.expect(rt, "a field")
}

// A text whose lines end with `;`.
pub(crate) fn lines_of(alloc: Global, text: &str) -> Result<String, AllocError> {
    let mut lines = String::new(alloc);
    for part in text.split(";") {
        if lines.len() > 0 {
            lines.push('\n')?;
        }
        lines.push_str(part)?;
    }
    Ok(lines)
}

fn add_file(
    alloc: Global,
    files: &mut Vec<MemFile>,
    name: &str,
    text: &str,
) -> Result<(), AllocError> {
    if text == "-" {
        return Ok(());
    }
    let text = lines_of(alloc, text)?;
    files.push(MemFile {
        name: String::from_str(alloc, name)?,
        bytes: Vec::from_slice(alloc, text.as_bytes())?,
    })?;
    Ok(())
}

#[test]
fn calls_end_with_their_status_and_text(rt: HostRuntime) -> Result<(), Fail> {
    let alloc = rt.alloc();
    for row in ROWS.lines() {
        let mut fields = row.split("|");
        let mut words = Vec::new(alloc);
        for word in field(&rt, fields.next()).split(" ") {
            words.push(String::from_str(alloc, word)?)?;
        }
        let mut files = Vec::new(alloc);
        for name in ["F", "S"] {
            add_file(alloc, &mut files, name, field(&rt, fields.next()))?;
        }
        let mut tables = field(&rt, fields.next()).split("&");
        for name in ["a", "b"] {
            add_file(alloc, &mut files, name, tables.next().unwrap_or("-"))?;
        }
        let mut inputs = MemInputs::new(files, Vec::new(alloc));
        let mut out = MemSink::new(alloc, 10_000, Vec::new(alloc))?;
        let mut aside = MemSink::new(alloc, 10_000, Vec::new(alloc))?;
        let status = spatialc(alloc, &words, &mut inputs, &mut out, &mut aside);
        let number = format!(in alloc; "{}", status.number())?;
        assert_eq!(rt; number.as_str(), field(&rt, fields.next()), "{row}");
        let text = lines_of(alloc, field(&rt, fields.next()))?;
        assert_eq!(rt; out.bytes(), text.as_bytes(), "{row}");
        assert_eq!(rt; aside.bytes().len(), 0, "{row}");
    }
    Ok(())
}

// A text of so many blanks.
fn blanks(alloc: Global, count: usize) -> Result<Vec<u8>, AllocError> {
    vec![in alloc; b' '; count]
}

#[test]
fn a_text_past_the_limit_is_too_long(rt: HostRuntime) -> Result<(), Fail> {
    let alloc = rt.alloc();
    let text = blanks(alloc, 1_048_577)?;
    let answer = answer_with(alloc, &["compile", "P"], "P", &text, Vec::new(alloc))?;
    assert_eq!(rt; answer.status.number(), 14);
    assert_eq!(rt; answer.out.as_slice(), b"too long: P\n".as_slice());
    let text = blanks(alloc, 1_048_576)?;
    let answer = answer_with(alloc, &["compile", "P"], "P", &text, Vec::new(alloc))?;
    assert_eq!(rt; answer.status.number(), 1);
    Ok(())
}

#[test]
fn a_failed_put_ends_the_call(rt: HostRuntime) -> Result<(), Fail> {
    let alloc = rt.alloc();
    let stop = vec![in alloc; SinkStop { call: 0, takes: 4 }]?;
    let answer = answer_with(alloc, &["compile", "P"], "P", SUM.as_bytes(), stop)?;
    assert_eq!(rt; answer.status.number(), 9);
    assert_eq!(rt; answer.out.as_slice(), b"netl".as_slice());
    let stop = vec![in alloc; SinkStop { call: 0, takes: 0 }]?;
    let answer = answer_with(alloc, &["compile", "P"], "P", b"no program", stop)?;
    assert_eq!(rt; answer.status.number(), 9);
    assert_eq!(rt; answer.out.len(), 0);
    Ok(())
}

// The run of a program under an empty setup, where `out` stops as told.
fn run_of(alloc: Global, program: &str, stops: Vec<SinkStop>) -> Result<Answer, AllocError> {
    let mut said = Vec::new(alloc);
    let mut files = Vec::new(alloc);
    said.push(String::from_str(alloc, "seq")?)?;
    for (name, text) in [("P", program), ("S", "")] {
        said.push(String::from_str(alloc, name)?)?;
        add_file(alloc, &mut files, name, text)?;
    }
    let mut inputs = MemInputs::new(files, Vec::new(alloc));
    let mut out = MemSink::new(alloc, 100_000, stops)?;
    let mut aside = MemSink::new(alloc, 10_000, Vec::new(alloc))?;
    let status = spatialc(alloc, &said, &mut inputs, &mut out, &mut aside);
    Ok(Answer {
        status,
        out: Vec::from_slice(alloc, out.bytes())?,
        aside: Vec::from_slice(alloc, aside.bytes())?,
    })
}

#[test]
fn a_long_result_is_put_in_two_pieces(rt: HostRuntime) -> Result<(), Fail> {
    let alloc = rt.alloc();
    let program = "val a = DRAM[Int](40000); Accel { }";
    let stop = vec![in alloc; SinkStop { call: 2, takes: 0 }]?;
    let answer = run_of(alloc, program, stop)?;
    assert_eq!(rt; answer.status.number(), 0);
    assert_eq!(rt; answer.out.len(), 80_015);
    let stop = vec![in alloc; SinkStop { call: 1, takes: 10 }]?;
    let answer = run_of(alloc, program, stop)?;
    assert_eq!(rt; answer.status.number(), 9);
    assert_eq!(rt; answer.out.len(), 65_546);
    assert_eq!(rt; answer.aside.len(), 0);
    Ok(())
}
