//! Programs that store to DRAMs and are compiled and run, with what they leave.

/// Such programs, in the form of `CASES`. The cycles of the first six were worked out by hand from what each part of a run takes: that is 2
/// for the block, and for each of its stages one more than the stage takes. A load or a store of w words takes 3 + w and what its channel
/// waits, in however many lanes it is moved, and a loop of g groups of operations g + 1 and what one group takes.
pub(crate) const STORES: &str = "\
val x = ArgIn[Int]
val c = DRAM[Int](10)
val y = ArgOut[Int]
Accel {
  val s = SRAM[Int](10)
  Foreach(10 by 1 par 4){ i => s(i) = i * i }
  c(0::10) store s
  y := s(9) + x
}
----
[args]
x = 5
----
out y 86
dram c 0 1 4 9 16 25 36 49 64 81
----
=31
====
val x = ArgIn[Int]
val a = DRAM[Int](8)
val b = DRAM[Int](8)
val y = ArgOut[Int]
Accel {
  val s = SRAM[Int](8)
  s load a(0::8)
  Foreach(8 by 1){ i => s(i) = s(i) * x + i }
  b(x::8) store s
  y := s(7)
}
----
[args]
x = 3
[dram]
a = \"a.csv\"
----
out y -17
dram a 1 -2 3 -4 5 -6 7 -8
dram b 0 0 0 3 -5 11 -9 19
----
=45
----
a.csv|1,-2,3,-4;5,-6,7,-8
====
val x = ArgIn[Int]
val a = DRAM[Int](12)
val b = DRAM[Int](12)
Accel {
  Foreach(12 by 4){ t =>
    val s = SRAM[Int](4)
    s load a(t::t + 4)
    Foreach(4 by 1){ i => s(i) = s(i) + x }
    b(t::t + 4) store s
  }
}
----
delays = [7, 0, 20, 1, 0, 30]
[args]
x = 100
[dram]
a = \"a.csv\"
----
dram a 1 2 3 4 5 6 7 8 9 10 11 12
dram b 101 102 103 104 105 106 107 108 109 110 111 112
----
=106
----
a.csv|1,2,3,4;5,6,7,8;9,10,11,12
====
val x = ArgIn[Int]
val b = DRAM[Int](5)
Accel {
  Foreach(4 by 1 par 2){ t =>
    val s = SRAM[Int](2)
    Foreach(2 by 1){ j => s(j) = t + x }
    b(t::t + 2) store s
  }
}
----
[args]
x = 10
----
dram b 10 11 12 13 13
----
=34
====
val x = ArgIn[Int]
val c = DRAM[Int](10)
val y = ArgOut[Int]
Accel {
  val s = SRAM[Int](10)
  Foreach(10 by 1 par 4){ i => s(i) = i * i }
  c(0::10 par 4) store s
  y := s(9) + x
}
----
[args]
x = 5
----
out y 86
dram c 0 1 4 9 16 25 36 49 64 81
----
=31
====
val x = ArgIn[Int]
val a = DRAM[Int](8)
val b = DRAM[Int](8)
val y = ArgOut[Int]
Accel {
  val s = SRAM[Int](8)
  s load a(0::8 par 16)
  Foreach(8 by 1){ i => s(i) = s(i) * x + i }
  b(x::8 par 2) store s
  y := s(7)
}
----
[args]
x = 3
[dram]
a = \"a.csv\"
----
out y -17
dram a 1 -2 3 -4 5 -6 7 -8
dram b 0 0 0 3 -5 11 -9 19
----
=45
----
a.csv|1,-2,3,-4;5,-6,7,-8
====
val x = ArgIn[FixPt[TRUE,_4,_16]]
val a = DRAM[Int](8)
val k = ArgIn[Int]
val k0 = ArgIn[FixPt[TRUE,_4,_16]]
val a2 = DRAM[FixPt[FALSE,_0,_1]](1)
val y = ArgOut[FixPt[FALSE,_0,_1]]
Accel {
val m = SRAM[Int](1)
m load a((k >> 63 & 7)::(k >> 63 & 7) + 1)
val value = SRAM[Int](8)
m((m(0) - -20 & 0)) = max(mux(k0 != (x), mux(false, k.value, m((-2147483648 - k & 0))), x.to[Int]), mux(true, 10.0 % 0x60BC9AA3, min(k.value, m(mux(m(0) > k.value, (-20 & 0) + 0, m(0) & 0)))))
y := 0 / 0.5 | 0.5 << 1
a(1::1) store m
}
----
turns = 23
[args]
k0 = \"-3.0149993896484375\"
x = \"7.8477020263671875\"
k = \"-24\"
[dram]
a = \"a.csv\"
a2 = \"a2.csv\"
----
out y 0
dram a 21 425348329 2132232942 12 9 -1856643904 -1 21
dram a2 0.5
----
<31
----
a.csv|21, 425348329,2132232942, 12 ,9,-1856643904,-1, 21
a2.csv|0.5
====
val img = DRAM[Int](10); val a = DRAM[Int](1, 2, 2); val k = ArgIn[Int]; val y = ArgOut[Int]; Accel {
val n = Reg[Int]
val f = FIFO[Int](8)
val r = Reg[Int](-20.to[Int])
Foreach(3 by 1){ k2 => f.enq(-14); r := f.deq() }
val s = SRAM[Int](6)
Foreach(6 by 1){ c =>
s(c) = c
}
if (mux((r * k.value).to[Bit], mux(true || true, mux(true, false, true), s(0) == k), r < 18)) {
}
val f0 = FIFO[Int](7)
val acc = Reg[Int](-12)
Foreach(7 by 1){ k0 => f0.enq(-k0 % min(k0, r)); acc := f0.deq() }
acc := mux(false, (mux(false, -20, r)).to[Int], acc)
val acc0 = Reg[Int](-5)
acc0 := acc0 ^ r
Fold(acc0)(6){ w0 => s(w0) }{_ ^ _}
acc0 := acc0 ^ acc
y := acc0
img(3::3 + 3) store s
}
----
turns = 137195
[args]
k = -580675833
[dram]
img = \"img.csv\"
a = \"a.csv\"
----
out y -14
dram img -11 -39 -12 0 1 2 -20 -4 16 118850864
dram a -1914339328 -1654098606 0 37
----
<116
----
img.csv|-11;-39.000;-12;10;-1142813574;2017585487;-20;-4;16;118850864
a.csv|-1914339328,-1654098606,0,37
";
