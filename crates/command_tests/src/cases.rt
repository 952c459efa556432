//! Programs that are compiled and run, with what they leave.

/// Programs, each with a setup, what is printed before the line of cycles, and that line's number: exactly (`=`), worked out by hand
/// from when each part of a circuit is started and done, or at most (`<`), where the answer came from elsewhere or the number is a bound
/// by hand. Where the setup names files, the name and the rows of each stand on a line behind.
pub(crate) const CASES: &str = "\
val x = ArgIn[Int]
val y = ArgOut[Int]
Accel {
}
----
[args]
x = 5
----
out y 0
----
=2
====
val x = ArgIn[Int]
val y = ArgOut[Int]
Accel {
  y := x + 3
}
----
[args]
x = 2147483647
----
out y -2147483646
----
=5
====
val x = ArgIn[Int]
val y = ArgOut[Int]
Accel {
  y := x + 3
  y := x * x
}
----
[args]
x = 7
----
out y 49
----
=6
====
val x = ArgIn[Int]
val y = ArgOut[Int]
Accel {
  y := x / 3
}
----
[args]
x = -7
----
out y -2
----
=8
====
val b = ArgIn[Int]
val q = ArgOut[Int]
val a = ArgIn[Int]
val p = ArgOut[Int]
Accel {
  p := a - 12
  q := b
  p := 70 * b
}
----
[args]
a = 20
b = 3
----
out q 3
out p 210
----
=6
====
val a = ArgIn[Int]
val b = ArgIn[Int]
val divisor = ArgOut[Int]
val steps = ArgOut[Int]
Accel {
  val x = Reg[Int]
  val rest = Reg[Int]
  val count = Reg[Int](0)
  x := a
  FSM(b)(y => y != 0){ y =>
    rest := x % y
    x := y
    count := count + 1
  }{ y => rest }
  divisor := x
  steps := count
}
----
[args]
a = 1071
b = 462
----
out divisor 21
out steps 3
----
=67
====
val k = ArgIn[Int]
val y = ArgOut[Bit]
Accel {
  val r = Reg[Int](-16)
  r := ~min(k, r)
  val s = Reg[Bit](true)
  s := s ^ r.to[Bit]
  y := s
}
----
[args]
k = \"-13\"
----
out y 0
----
<16
====
val y0 = ArgOut[Int]
val y = ArgOut[Int]
val k = ArgIn[Int]
val x = ArgIn[Int]
Accel {
val v = mux(true, k, x >> 58 | 18 - -6)
Parallel {
val acc = Reg[Int]
acc := (-12 << 0).to[FixPt[FALSE,_33,_0]].to[Int]
}
if ((-418802980 ^ k).to[Bit] | false) {
val v0 = mux(true | true, (x.value % 7 + 7) % 7, 1)
}
val acc = Reg[Int](-1)
y0 := acc
y0 := acc.to[Int] << 31
}
----
[args]
k = -11
x = \"1\"
----
out y0 -2147483648
out y 0
----
<47
====
val x = ArgIn[FixPt[FALSE,_4,_4]]
val k1 = ArgIn[FixPt[FALSE,_4,_4]]
val y = ArgOut[FixPt[FALSE,_4,_4]]
val k = ArgIn[FixPt[FALSE,_0,_63]]
Accel {
FSM(4.to[Int])(st => st < 8){ st =>
}{ st => st + 2 }
Foreach(1 until 1 by 1){ k0 =>
val v = (k0 >> 31 & 3);
if ((-x) >> 1 >= k1) {
val n = Reg[Int];
Foreach(4 by 2){ deq =>
};
};
}
val acc = Reg[FixPt[FALSE,_4,_4]](1.6875)
y := acc
}
----
[args]
k = \"0.363509344423121333518024445030647484600194729864597320556640625\"
x = \"0.125\"
k1 = \"8.9375\"
----
out y 1.6875
----
<41
====
val x = ArgIn[Int]
val y = ArgOut[Int]
Accel {
  val t = SRAM[Int](4)
  t(0) = x
  t(1) = x + 3
  y := t(0) * t(1)
}
----
[args]
x = 7
----
out y 70
----
=10
====
val k = ArgIn[Int]; val y = ArgOut[Int]; val y0 = ArgOut[Int]; Accel {
val s = SRAM[Int](4, 2)
Foreach(4 by 1, 2 par 3){ (i, t) => s(i, t) = k
}
val n = Reg[Int](-15)
Fold(n)(4, 2){ (w0, w1) => s(w0, w1) }{_ + _}
y0 := n
y := (s((s(3, mux(true, 1, 0)) >> 1 & 3), (-13 * (s(((k) % 4 + 4) % 4, n & 1)) % 2 + 2) % 2)) * s(0, 1) << 1
y0 := ((k) * -850923524).to[Int]
}
----
[args]
k = \"-3\"
----
out y 18
out y0 -1742196724
----
<81
====
val b = DRAM[Int](2, 2); val x = ArgIn[Int]; val to = DRAM[Int](2, 4); val y = ArgOut[Int]; Accel {
y := --20 * x >> 63 ; ;
val acc = Reg[Int](-13) ; ;
y := acc ; ;
y := acc * acc * (acc / acc)
}
----
cycles = 1_000_000
delays = [0, 7]
[args]
x = -32
[dram]
b = \"b.csv\"
to = \"to.csv\"
----
out y 169
dram b -11 6 19 -12
dram to 35 16 484473151 -20 23 337562798 30 12155231
----
<13
----
b.csv|-11,006;19,-12
to.csv|35;16;484473151;-20.00;23;337562798;30;12155231
====
val y = ArgOut[Bit]
val y0 = ArgOut[Int]
val k = ArgIn[Int]
val a = DRAM[Bit](5)
Accel {
if (true) {
val v = (~(7) % 7 + 7) % 7;
FSM(v + 0)(q => q < 8){ q => }{ q => q + 3 } } else {
if (false) {
} ; ;
Foreach(19 by 5){ c =>
val p = SRAM[Bit](10)
} }
val acc = Reg[Int](-14)
y0 := acc
y0 := -14.to[Int]
}
----
turns = 19
[args]
k = 170060274
----
out y 0
out y0 -14
dram a 0 0 0 0 0
----
<52
====
val x = ArgIn[Int]
val y = ArgOut[Int]
Accel {
  val f = FIFO[Int](4)
  Foreach(4 by 1){ i => f.enq(i * x) }
  val r = Reg[Int](0)
  Foreach(4 by 1){ j => r := r * 10 + f.deq() }
  y := r
}
----
[args]
x = 3
----
out y 369
----
<100
====
val b0 = DRAM[Int](3, 2); val y = ArgOut[FixPt[FALSE,_32,_0]]; val b = DRAM[FixPt[FALSE,_32,_0]](3, 1, 1); val k = ArgIn[FixPt[FALSE,_32,_0]]; val y0 = ArgOut[FixPt[FALSE,_32,_0]]; Accel {
val r = Reg[Bit](true)
Fold(r)(1 until 13, 2 until 4 by 1 par 8){ (t, k0) =>
val v = ~t ; ;
val acc = Reg[FixPt[FALSE,_32,_0]](2.to[FixPt[FALSE,_32,_0]]) ; ;
y := (~(acc + acc)).to[FixPt[FALSE,_32,_0]] ; ;
acc.value * (~(0x14)) < acc }{_ ^ _}
r := mux(8.to[FixPt[FALSE,_32,_0]].to[Bit], 18.to[FixPt[FALSE,_32,_0]] != k, r ^ r) & k.to[Bit]
val f = FIFO[Int](5)
val n = Reg[Int](-20.to[Int])
Foreach(4 by 1){ k0 => f.enq((k0) + k0 || k0 + k0); n := f.deq() }
y0 := max(k.value + 20, k)
}
----
cycles = 1_000_000
[args]
k = 30
[dram]
b0 = \"b0.csv\"
b = \"b.csv\"
----
out y 4294967291
out y0 50
dram b0 -19 -25 384413934 4 -20 583209780
dram b 34 1607624684 28
----
<138
----
b0.csv|-19;-25;384413934;4;-20;583209780
b.csv|34;1607624684;28
====
val d = DRAM[FixPt[TRUE,_21,_24]](1, 4)
val k = ArgIn[Int]
val k0 = ArgIn[FixPt[TRUE,_21,_24]]
val y = ArgOut[Int]
Accel {
val p = SRAM[Int](1, 2, 3)
val f = FIFO[FixPt[TRUE,_21,_24]](7)
val r = Reg[FixPt[TRUE,_21,_24]]
Foreach(2 by 1){ (t) => f.enq(k0) }
Reduce(r)(2 by 1){ j => f.deq() | mux(true, k0, k0.value) }{_ || _}
r := r
val acc = Reg[Int](-20.0)
val p0 = SRAM[Int](1)
Foreach(1){ t =>
if (!mux(true & false, mux(true, true, false), k > acc)) { }
p0(t) = mux(k >= 7, ~t, mux(true, t, acc))
}
if (!!mux(true, false, true)) {
Foreach(-3 until -3 by 1, 0 until 5 by 3){ (j, k1) =>
FSM(3.to[FixPt[TRUE,_21,_24]])(q => q > 0){ q =>
val v = max(mux(false, j, p0((p0(min(max(k, 0), 0)) & 0))).to[FixPt[TRUE,_21,_24]], mux(true, r, k0 | r)) ; ;
acc := ~acc.to[FixPt[TRUE,_21,_24]].to[Int]
}{ q => q - 1 }
};
val s = SRAM[Int](3, 3, 3);
Foreach(0 until 3, 3 by 1, 3 par 2){ (r0, t, t0) => s(r0, t, t0) = -min(acc, 2) };
} else {
}
val r0 = Reg[Int](-12)
r0 := r0 + r.to[Int]
r0 := r0 + acc
Fold(r0)(1){ w0 => p0(w0) }{_ + _}
y := r0
}
----
turns = 116307
[args]
k0 = \"-23.23499071598052978515625\"
k = 30
[dram]
d = \"d.csv\"
----
out y -57
dram d -976593.146544396877288818359375 -31.858939230442047119140625 -13.7127330303192138671875 30.926994860172271728515625
----
<84
----
d.csv|-976593.146544396877288818359375;-31.858939230442047119140625;-13.7127330303192138671875;30.926994860172271728515625
====
val seed = ArgIn[Int]
val widest = ArgOut[Int]
val number = ArgOut[Int]
Accel {
  val word = Reg[Int]
  val most = Reg[Int](-1)
  val at = Reg[Int](0)
  word := seed
  Foreach(32 by 1){ b =>
    val block = SRAM[Int](16)
    val high = Reg[Int](0)
    val low = Reg[Int](65536)
    Foreach(16 by 1){ i =>
      word := (word * 75 + 74) % 65537
      block(i) = word
    }
    Foreach(16 by 1){ i =>
      val w = block(i)
      high := max(high, w)
      low := min(low, w)
    }
    Pipe {
      val spread = high - low
      at := mux(spread > most, b, at)
      most := max(most, spread)
    }
  }
  widest := most
  number := at
}
----
[args]
seed = 1
----
out widest 64722
out number 29
----
<5200
====
val x = ArgIn[Bit]
val k = ArgIn[Bit]
val d = DRAM[Bit](8)
val y = ArgOut[Bit]
val x0 = ArgIn[Bit]
Accel {
Foreach(2 until 3 by 1, 1 until 4){ (k0, i) => val r = Reg[Bit](true); Pipe.Reduce(r)(3){ t =>
if (mux(k ^ x, !(x), x0 == x0) != (~k0).to[Bit]) { y := k }
val v = i.to[Bit].to[Bit]
FSM(7.to[Int])(st => st < 8 && true != (false)){ st =>
val m = SRAM[Bit](3, 2)
}{ st => st + 3 }
true
}{_ && _}; Sequential.Reduce(r)(2 until k0 by 2, 2){ (j, k1) =>
x
}{(p, q) => p ^ q}
}
val acc = Reg[Bit](true)
y := acc
}
----
cycles = 1_000_000
turns = 200000
delays = [30, 0, 0]
[args]
x = \"true\"
k = \"1\"
x0 = \"1\"
[dram]
d = \"d.csv\"
----
out y 1
dram d 0 1 1 1 0 1 0 1
----
<369
----
d.csv|\"0\",1,\"1\",true,0,true,false,true
====
val x = ArgIn[Int]
val y = ArgOut[Int]
val z = ArgOut[Int]
val d0 = DRAM[Int](24)
val d1 = DRAM[Int](40)
Accel {
  val s1 = SRAM[Int](12)
  Foreach(12 by 1){ j2 => s1(j2) = (x % x) + j2 }
  val k3 = Reg[Int](0)
  Foreach(2 by 1){ i4 =>
    val s5 = SRAM[Int](24)
    Foreach(24 by 1){ j6 => s5(j6) = min(s1(i4 + 7), i4) + j6 }
    Foreach(2 by 1){ i7 =>
      val f8 = FIFO[Int](1)
      Foreach(1 by 1){ q9 =>
        f8.enq(mux(s5(i7 * 2 + i4 + 19) < i7, s5(i7 * 2 + i4 + 19), i7))
      }
      Foreach(1 by 1){ q10 =>
        y := f8.deq()
      }
      val r11 = Reg[Int](4)
    }
  }
}
----
[args]
x = -2
[dram]
d0 = \"d0\"
d1 = \"d1\"
----
out y 1
out z 0
dram d0 8 36 28 46 9 32 18 47 33 16 29 35 47 27 12 36 38 11 15 18 43 10 12 47
dram d1 24 47 38 19 7 17 9 44 38 24 10 30 6 38 15 1 50 40 21 9 12 2 8 11 26 39 15 5 29 13 26 42 48 9 0 10 15 7 42 24
----
<126
----
d0|8,36,28,46,9,32,18,47,33,16,29,35,47,27,12,36,38,11,15,18,43,10,12,47
d1|24,47,38,19,7,17,9,44,38,24,10,30,6,38,15,1,50,40,21,9,12,2,8,11,26,39,15,5,29,13,26,42,48,9,0,10,15,7,42,24
====
val x = ArgIn[Int]
val y = ArgOut[Int]
val z = ArgOut[Int]
val d0 = DRAM[Int](2, 3, 4)
Accel {
  val s1 = SRAM[Int](4, 4)
  Foreach(4 by 1, 4 by 1 par 2){ (j2, j3) => s1(j2, j3) = x + j3 }
  val s5 = SRAM[Int](3)
  Foreach(3 by 1){ j6 => s5(j6) = s1(3, 3) + j6 }
  MemReduce(s5)(3 by 1){ i4 =>
    val p7 = SRAM[Int](3)
    Foreach(3 by 1 par 2){ j8 => p7(j8) = (s1(-i4 + 3, i4) + i4) + j8 }
    val f9 = FIFO[Int](4)
    Foreach(2 by 1 par 3){ q10 =>
      f9.enq((2 & q10))
    }
    Foreach(2 by 1 par 2){ q11 =>
      y := f9.deq()
    }
    p7
  }{(a, b) => max(a, b)}
  s5(2) = s5(1)
  val acc13 = Reg[Int](4)
  Reduce(acc13)(2 by 1 par 2){ i12 =>
    (s1((((i12 * 3 + 5) % 4 + 4) % 4 + 0), i12 * 3) - s1(i12, -i12 + 1))
  }{(a, b) => max(a, b)}
  y := acc13
  s1(3, 0) = ((s1(0, 3) - x) + (acc13 * x))
}
----
[args]
x = 0
[dram]
d0 = \"d0\"
----
out y 3
out z 0
dram d0 33 36 13 1 10 19 15 12 26 4 35 11 1 29 34 40 15 29 5 47 44 31 30 13
----
<150
----
d0|33,36,13,1,10,19,15,12,26,4,35,11,1,29,34,40,15,29,5,47,44,31,30,13
====
val x = ArgIn[Int]
val y = ArgOut[Int]
val z = ArgOut[Int]
val d0 = DRAM[Int](40)
Accel {
  val s1 = SRAM[Int](8)
  Foreach(8 by 1){ j2 => s1(j2) = min(0, 6) + j2 }
  val k3 = Reg[Int](1)
  s1 load d0(33::33 + 7)
  Foreach(1 until 3 by 1){ i4 =>
    Foreach(4 until 9 by 1){ i5 =>
    }
  }
}
----
[args]
x = 5
[dram]
d0 = \"d0\"
----
out y 0
out z 0
dram d0 27 12 48 23 37 28 23 48 11 49 35 11 25 6 20 9 30 5 9 18 9 50 12 35 17 42 43 17 47 6 0 24 40 43 41 15 13 22 21 13
----
<45
----
d0|27,12,48,23,37,28,23,48,11,49,35,11,25,6,20,9,30,5,9,18,9,50,12,35,17,42,43,17,47,6,0,24,40,43,41,15,13,22,21,13
====
val x = ArgIn[Int]
val y = ArgOut[Int]
val z = ArgOut[Int]
val d0 = DRAM[Int](40)
val d1 = DRAM[Int](24)
Accel {
  val s1 = SRAM[Int](8)
  s1 load d1(0::0 + 8)
  s1(1) = s1(0)
  Sequential.Foreach(6 by 1, 1 by 1 par 2){ (i2, i3) =>
    val v4 = x
    y := (mux(x < 3, x, 3) + (s1(i3 * 3 + 7) / i3))
    val r5 = Reg[Int](-2)
  }
  val v6 = ((0 ^ s1(5)) & (s1(0) & s1(7)))
  val s8 = SRAM[Int](2)
  Foreach(2 by 1 par 2){ j9 => s8(j9) = (s1(0) % x) + j9 }
  MemReduce(s8)(1 until 10 by 4){ i7 =>
    val p10 = SRAM[Int](2)
    Foreach(2 by 1 par 2){ j11 => p10(j11) = (i7 * s1(7)) + j11 }
    p10
  }{_ + _}
}
----
[args]
x = -2
[dram]
d0 = \"d0\"
d1 = \"d1\"
----
out y -2
out z 0
dram d0 8 12 28 30 49 28 28 35 17 30 45 37 4 18 23 18 23 2 5 32 17 17 17 30 27 28 23 2 45 5 15 38 40 15 34 47 2 47 11 21
dram d1 23 2 3 47 48 48 13 44 27 21 4 10 46 43 7 25 35 8 29 47 31 40 4 8
----
<110
----
d0|8,12,28,30,49,28,28,35,17,30,45,37,4,18,23,18,23,2,5,32,17,17,17,30,27,28,23,2,45,5,15,38,40,15,34,47,2,47,11,21
d1|23,2,3,47,48,48,13,44,27,21,4,10,46,43,7,25,35,8,29,47,31,40,4,8
";
