use sp_reader::{ReadError, Syntax, read};
use std::alloc::{AllocError, Global};
use std::test::Fail;

/// Each line: `ok` or why a text isn't read, then `|` and the text. In a text `$` stands for a line end, and `@`
/// for no byte: the token after it is refused.
const TEXTS: &str = "no parse|@Acc
no parse|Accel { y := 3@
too deep|Accel { y := (((((((((((((((((((((((((((((((((((((((((((((((((((((((((((((((@(
ok|Accel { }
ok|;;Accel{}$;$
ok|$$Accel {$}$
ok|val x = ArgIn[Int]$val y = ArgOut[Bit]$val a = DRAM[FixPt[TRUE,_8,_64]](1, 2, 3)$Accel { }
ok|val y = ArgOut[Int]; Accel { y := mux(true, 1, 2) }
ok|val y=ArgOut[Int];Accel{if(true){y:=1}}
no parse|val y = ArgOut[Int] @Accel { }
no parse|val y = @Int; Accel { }
no parse|val y = ArgOut@(Int); Accel { }
no parse|val y = ArgOut[@Reg]; Accel { }
no parse|val @val = ArgOut[Int]; Accel { }
no parse|val a = DRAM[Int]@; Accel { }
no parse|val a = DRAM[Int](@0); Accel { }
no parse|val a = DRAM[Int](@2147483648); Accel { }
no parse|val a = DRAM[Int](@1.0); Accel { }
no parse|val a = DRAM[Int](1, 2, 3@, 4); Accel { }
ok|val a = DRAM[Int](2147483647); Accel { }
ok|val a = DRAM[Int](0x7fffffff); Accel { }
no parse|val a = DRAM[FixPt[@true,_8,_8]](1); Accel { }
no parse|val a = DRAM[FixPt[TRUE,@8,_8]](1); Accel { }
no parse|val a = DRAM[FixPt[TRUE,_8@]](1); Accel { }
ok|val a = DRAM[FixPt[FALSE,_0,_999999999999999999999999999999999999999999999]](1); Accel { }
no parse|Accel @
no parse|Accel {@
no parse|@
no parse|Accel { } @Accel { }
no parse|Accel { } @x
ok|Accel { ; x := 1 ;; y := 2 ; }
no parse|Accel { x := 1 @y := 2 }
ok|Accel { x := 1$y := 2 }
ok|Accel { x := 1 /* $ */ y := 2 }
ok|Accel { x := 1 // one$y := 2 }
no parse|Accel { x := 1 /* one */ @y := 2 }
no parse|Accel { x @= 1 }
no parse|Accel { x @1 }
no parse|Accel { x := @}
no parse|Accel { x := 1 + @}
no parse|Accel { x := @* 1 }
no parse|Accel { x := (1 @}
no parse|Accel { x := (1$+ 2@; }
ok|Accel { x := (1$+ 2) }
ok|Accel { x := a +$b }
ok|Accel { x := a$+ b }
ok|Accel { x := a$y(0) = b }
no parse|Accel { x := a @[ }
ok|Accel { val v = 1 }
ok|Accel { val v = Reg[Int] }
ok|Accel { val v = Reg[Int](-1.5.to[FixPt[TRUE,_8,_8]]) }
ok|Accel { val v = Reg[Bit](true) }
no parse|Accel { val v = Reg[Int](@x) }
no parse|Accel { val v = Reg[Int](1 @+ 1) }
no parse|Accel { val v = Reg[Int](1.to[Int]@.to[Int]) }
no parse|Accel { val v = Reg[Int](-@true) }
ok|Accel { val v = SRAM[Int](1, 2) }
no parse|Accel { val v = SRAM[Int]@; x := 1 }
no parse|Accel { val v = FIFO[Int](1@, 2) }
no parse|Accel { val v = LineBuffer[Int](1@) }
no parse|Accel { val v = LineBuffer[Int](1, 2@, 3) }
no parse|Accel { val v = @ArgIn[Int] }
ok|Accel { f.enq(1) ; a(1, 2) = 3 }
no parse|Accel { f.@deq() }
no parse|Accel { f.enq(@) }
no parse|Accel { a(@) = 1 }
no parse|Accel { a(1::2) @= 1 }
no parse|Accel { a(1 @par 2) = 1 }
ok|Accel { a(1::2 par 3, 4) store s }
no parse|Accel { a(1::2 @by 3) store s }
no parse|Accel { a(1 @until 2) store s }
no parse|Accel { a(1) @load s }
no parse|Accel { s load a @}
ok|Accel { s load a(x::y) }
no parse|Accel { s load a$@}
ok|Accel { s gather a(p, 4) ; a(p, 4) scatter s }
ok|Accel { gather gather gather(gather, gather) }
no parse|Accel { s gather a(p@) }
no parse|Accel { s gather a(@4, p) }
no parse|Accel { s gather a(p, 4@, 5) }
no parse|Accel { a(p) @scatter s }
no parse|Accel { a((p), 4) @scatter s }
no parse|Accel { a(p, 1::4) @scatter s }
no parse|Accel { a(p, 1, 4) @scatter s }
ok|Accel { Pipe { } ; Sequential { } ; Parallel { } ; Stream { } }
no parse|Accel { Stream@.Foreach(1){ i => } }
no parse|Accel { Parallel@.Foreach(1){ i => } }
no parse|Accel { Pipe.@{ } }
no parse|Accel { Pipe.@FSM(0)(s => true){ s => }{ s => 1 } }
ok|Accel { Pipe.Foreach(1){ i => } }
ok|Accel { Foreach(1 until 2 by 3 par 4, 1, 2, 3){ (i, j, k, l) => } }
no parse|Accel { Foreach(1, 2, 3, 4@, 5){ (i, j, k, l) => } }
no parse|Accel { Foreach(@){ i => } }
no parse|Accel { Foreach(1 par 2 @by 3){ i => } }
no parse|Accel { Foreach(1 by @x){ i => } }
no parse|Accel { Foreach(1){ @=> } }
no parse|Accel { Foreach(1){ (i, j) @j => } }
no parse|Accel { Foreach(1){ (@) => } }
no parse|Accel { Foreach(1){ i @: => } }
ok|Accel { Reduce(a)(4){ i => i }{_ + _} }
ok|Accel { Reduce(a)(4){ i =>$  val v = i$  v$}{_+_} }
no parse|Accel { Reduce(a)(4){ i => @}{_ + _} }
no parse|Accel { Reduce(a)(4){ i => x := 1 @}{_ + _} }
no parse|Accel { Reduce(a)(4){ i => x := 1 ; @}{_ + _} }
no parse|Accel { Reduce(a)(4){ i => i ; @x := 1 }{_ + _} }
no parse|Accel { Reduce(a)(4){ i => i }{_ @- _} }
no parse|Accel { Reduce(a)(4){ i => i } @}
no parse|Accel { Reduce(@1)(4){ i => i }{_ + _} }
no parse|Accel { Reduce(a)(4){ i => i }{_ + @a} }
ok|Accel { Fold(a)(4){ i => t(i) + 1 }{(a, b) => a && b} }
ok|Accel { Sequential.Fold(a)(4){ i => f.deq() }{(a, b) => min(a, b)} }
ok|Accel { MemReduce(a)(4){ i => t }{(a, b) => max(b, b)} }
no parse|Accel { Fold(a)(4){ i => i }{(a, b) => @mux(a, b)} }
no parse|Accel { Fold(a)(4){ i => i }{(a@) => a} }
no parse|Accel { Fold(a)(4){ i => i }{(a, b) => a @< b} }
no parse|Accel { Fold(a)(4){ i => t(1::2) @+ 1 }{_ + _} }
ok|Accel { Fold(a)(4){ i => t(1) = 2 ; t(1) }{_ + _} }
ok|Accel { Fold(a)(4){ i => f.enq(1) ; f.value.to[Int] }{_ | _} }
ok|Accel { FSM(0)(s => s < 8){ s => x := s }{ s => s + 1 } }
no parse|Accel { FSM(0)(s => s < 8){ s => x := s }{ s => s + 1 @; } }
no parse|Accel { FSM(0)(@0 < 8){ s => }{ s => s } }
ok|Accel { if (a < b) { } else { x := 1 } }
no parse|Accel { if (a) { } ; @else { } }
no parse|Accel { if @a { } }
no parse|Accel { if (a) @x := 1 }
ok|Accel { x := 1 | 2 ^ 3 & 4 == 5 < 6 + 7 * 8 }
ok|Accel { x := a < b << 1 }
no parse|Accel { x := a << @b }
no parse|Accel { x := a << @64 }
ok|Accel { x := a << 63 >> 0 }
no parse|Accel { x := 1 << @2.5 }
no parse|Accel { x := a << @(1) }
no parse|Accel { x := a << 1 @2 }
no parse|Accel { x := a << 2 @+ }
ok|Accel { x := - - !~a.to[Int].to[Bit] }
ok|Accel { x := - 5 - -5 }
no parse|Accel { x := a.@value2 }
ok|Accel { x := a.value + f.deq() }
no parse|Accel { x := f.deq(@1) }
no parse|Accel { x := (a).@value }
no parse|Accel { x := a(1)@(2) }
no parse|Accel { x := a(1, @) }
no parse|Accel { x := mux(1, 2@) }
no parse|Accel { x := min(1@) }
no parse|Accel { x := max(1, 2@, 3) }
no parse|Accel { x := min @}
no parse|Accel { x := 0@x }
ok|Accel { x := 0x1F + 1.25 }
no parse|Accel { x := 1. @}
no parse|Accel { x := 1@_2 }
no parse|Accel { x := @_ }
no parse|Accel { x := 1 @# 2 }
no parse|Accel { x := 1 @é }
no parse|Accel @é{ }
no parse|Accel { } /*@
no parse|Accel { } /*/@
ok|Accel { } /**/ // end
ok|Accel { to := value ; enq.enq(deq.deq()) ; scatter(scatter, 1) scatter scatter }
literal too wide|Accel { x := @340282366920938463463374607431768211456 }
ok|Accel { x := 340282366920938463463374607431768211455 }
literal too wide|Accel { x := @0x100000000000000000000000000000000 }
ok|Accel { x := 0x0ffffffffffffffffffffffffffffffff }
literal too wide|Accel { x := @0.00000000000000000000000000000000000000000000000000000000000000001 }
ok|Accel { x := 0.0000000000000000000000000000000000000000000000000000000000000001 }
no parse|Accel @x 340282366920938463463374607431768211456
literal too wide|Accel @340282366920938463463374607431768211456
ok|Accel { x := (((((((((((((((((((((((((((((((((((((((((((((((((((((((((((((((1))))))))))))))))))))))))))))))))))))))))))))))))))))))))))))))) }
too deep|Accel { x := (((((((((((((((((((((((((((((((((((((((((((((((((((((((((((((((@(1)))))))))))))))))))))))))))))))))))))))))))))))))))))))))))))))) }
ok|Accel { x := 1 + 1 + 1 + 1 + 1 + 1 + 1 + 1 + 1 + 1 + 1 + 1 + 1 + 1 + 1 + 1 + 1 + 1 + 1 + 1 + 1 + 1 + 1 + 1 + 1 + 1 + 1 + 1 + 1 + 1 + 1 + 1 + 1 + 1 + 1 + 1 + 1 + 1 + 1 + 1 + 1 + 1 + 1 + 1 + 1 + 1 + 1 + 1 + 1 + 1 + 1 + 1 + 1 + 1 + 1 + 1 + 1 + 1 + 1 + 1 + 1 + 1 + 1 + 1 + 1 }
too deep|Accel { x := 1 + 1 + 1 + 1 + 1 + 1 + 1 + 1 + 1 + 1 + 1 + 1 + 1 + 1 + 1 + 1 + 1 + 1 + 1 + 1 + 1 + 1 + 1 + 1 + 1 + 1 + 1 + 1 + 1 + 1 + 1 + 1 + 1 + 1 + 1 + 1 + 1 + 1 + 1 + 1 + 1 + 1 + 1 + 1 + 1 + 1 + 1 + 1 + 1 + 1 + 1 + 1 + 1 + 1 + 1 + 1 + 1 + 1 + 1 + 1 + 1 + 1 + 1 + 1 + 1 @+ 1 }
too deep|Accel { x := 1 + 1 + 1 + 1 + 1 + 1 + 1 + 1 + 1 + 1 + 1 + 1 + 1 + 1 + 1 + 1 + 1 + 1 + 1 + 1 + 1 + 1 + 1 + 1 + 1 + 1 + 1 + 1 + 1 + 1 + 1 + 1 + 1 + 1 + 1 + 1 + 1 + 1 + 1 + 1 + 1 + 1 + 1 + 1 + 1 + 1 + 1 + 1 + 1 + 1 + 1 + 1 + 1 + 1 + 1 + 1 + 1 + 1 + 1 + 1 + 1 + 1 + 1 + 1 + @- 1 }
ok|Accel { x := 1 + 1 + 1 + 1 + 1 + 1 + 1 + 1 + 1 + 1 + 1 + 1 + 1 + 1 + 1 + 1 + 1 + 1 + 1 + 1 + 1 + 1 + 1 + 1 + 1 + 1 + 1 + 1 + 1 + 1 + 1 + 1 + 1 + 1 + 1 + 1 + 1 + 1 + 1 + 1 + 1 + 1 + 1 + 1 + 1 + 1 + 1 + 1 + 1 + 1 + 1 + 1 + 1 + 1 + 1 + 1 + 1 + 1 + 1 + 1 + 1 + 1 + 1 + 1 + 1 ; x := 1 + 1 }
ok|Accel { x := 1 + 1 + 1 + 1 + 1 + 1 + 1 + 1 + 1 + 1 + 1 + 1 + 1 + 1 + 1 + 1 + 1 + 1 + 1 + 1 + 1 + 1 + 1 + 1 + 1 + 1 + 1 + 1 + 1 + 1 + 1 + 1 + 1 + 1 + 1 + 1 + 1 + 1 + 1 + 1 + 1 + 1 + 1 + 1 + 1 + 1 + 1 + 1 + 1 + 1 + 1 + 1 + 1 + 1 + 1 + 1 + 1 + 1 + 1 + 1 + 1 + 1 + 1 + 1 + 1$x := 1 + 1 }
ok|Accel { x := a(1 + 1 + 1 + 1 + 1 + 1 + 1 + 1 + 1 + 1 + 1 + 1 + 1 + 1 + 1 + 1 + 1 + 1 + 1 + 1 + 1 + 1 + 1 + 1 + 1 + 1 + 1 + 1 + 1 + 1 + 1 + 1 + 1 + 1 + 1 + 1 + 1 + 1 + 1 + 1 + 1 + 1 + 1 + 1 + 1 + 1 + 1 + 1 + 1 + 1 + 1 + 1 + 1 + 1 + 1 + 1 + 1 + 1 + 1 + 1 + 1 + 1 + 1 + 1 + 1, 1 + 1 + 1 + 1 + 1 + 1 + 1 + 1 + 1 + 1 + 1 + 1 + 1 + 1 + 1 + 1 + 1 + 1 + 1 + 1 + 1 + 1 + 1 + 1 + 1 + 1 + 1 + 1 + 1 + 1 + 1 + 1 + 1 + 1 + 1 + 1 + 1 + 1 + 1 + 1 + 1 + 1 + 1 + 1 + 1 + 1 + 1 + 1 + 1 + 1 + 1 + 1 + 1 + 1 + 1 + 1 + 1 + 1 + 1 + 1 + 1 + 1 + 1 + 1 + 1) }
too deep|Accel { x := (1) + (1 + 1) + (1 + 1) + (1 + 1) + (1 + 1) + (1 + 1) + (1 + 1) + (1 + 1) + (1 + 1) + (1 + 1) + (1 + 1) + (1 + 1) + (1 + 1) + (1 + 1) + (1 + 1) + (1 + 1) + (1 + 1) + (1 + 1) + (1 + 1) + (1 + 1) + (1 + 1) + (1 + 1) + (1 + 1) + (1 + 1) + (1 + 1) + (1 + 1) + (1 + 1) + (1 + 1) + (1 + 1) + (1 + 1) + (1 + 1) + (1 + 1) + (1 + 1) + (1 + 1) + (1 + 1) + (1 + 1) + (1 + 1) + (1 + 1) + (1 + 1) + (1 + 1) + (1 + 1) + (1 + 1) + (1 + 1) + (1 + 1) + (1 + 1) + (1 + 1) + (1 + 1) + (1 + 1) + (1 + 1) + (1 + 1) + (1 + 1) + (1 + 1) + (1 + 1) + (1 + 1) + (1 + 1) + (1 + 1) + (1 + 1) + (1 + 1) + (1 + 1) + (1 + 1) + (1 + 1) + (1 + 1) + (1 + 1) + (1 + 1) + (1 + 1) @+ 1 }
too deep|Accel { x := 1.to[Int].to[Int].to[Int].to[Int].to[Int].to[Int].to[Int].to[Int].to[Int].to[Int].to[Int].to[Int].to[Int].to[Int].to[Int].to[Int].to[Int].to[Int].to[Int].to[Int].to[Int].to[Int].to[Int].to[Int].to[Int].to[Int].to[Int].to[Int].to[Int].to[Int].to[Int].to[Int].to[Int].to[Int].to[Int].to[Int].to[Int].to[Int].to[Int].to[Int].to[Int].to[Int].to[Int].to[Int].to[Int].to[Int].to[Int].to[Int].to[Int].to[Int].to[Int].to[Int].to[Int].to[Int].to[Int].to[Int].to[Int].to[Int].to[Int].to[Int].to[Int].to[Int].to[Int].to[Int]@.to[Int] }
no parse|Accel { x := 1 @1 + 1 + 1 + 1 + 1 + 1 + 1 + 1 + 1 + 1 + 1 + 1 + 1 + 1 + 1 + 1 + 1 + 1 + 1 + 1 + 1 + 1 + 1 + 1 + 1 + 1 + 1 + 1 + 1 + 1 + 1 + 1 + 1 + 1 + 1 + 1 + 1 + 1 + 1 + 1 + 1 + 1 + 1 + 1 + 1 + 1 + 1 + 1 + 1 + 1 + 1 + 1 + 1 + 1 + 1 + 1 + 1 + 1 + 1 + 1 + 1 + 1 + 1 + 1 + 1 + 1 }";

/// The text of a line, and the byte at which it is refused.
fn text_of(alloc: Global, line: &str) -> Result<(Vec<u8>, usize), AllocError> {
    let mut text = Vec::new(alloc);
    let mut refused = 0;
    for b in line.bytes() {
        match b {
            b'@' => refused = text.len(),
            b'$' => text.push(b'\n')?,
            _ => text.push(b)?,
        }
    }
    Ok((text, refused))
}

fn answer_of(answer: &Result<Syntax, ReadError>) -> (&'static str, usize) {
    match answer {
        Ok(_) => ("ok", 0),
        Err(ReadError::NotText { at }) => ("not text", *at as usize),
        Err(ReadError::NoParse { at }) => ("no parse", *at as usize),
        Err(ReadError::TooDeep { at }) => ("too deep", *at as usize),
        Err(ReadError::LiteralTooWide { at }) => ("literal too wide", *at as usize),
        Err(ReadError::Memory) => ("out of memory", 0),
    }
}

#[test]
fn texts_are_read_or_refused_where_they_should_be(rt: HostRuntime) -> Result<(), Fail> {
    for line in TEXTS.lines() {
        let (expected, text) = line.split_once('|').ok_or("a line without an answer")?;
        let (text, refused) = text_of(rt.alloc(), text)?;
        assert!(rt; text.len() <= 1_048_576);
        let answer = read(rt.alloc(), &text);
        let (found, at) = answer_of(&answer);
        assert_eq!(rt; found, expected, "{line}");
        assert_eq!(rt; at, refused, "{line}");
    }
    Ok(())
}

#[test]
fn bytes_that_are_no_text_are_refused(rt: HostRuntime) -> Result<(), Fail> {
    let answer = read(rt.alloc(), &[0x41, 0xff]);
    assert_eq!(rt; answer_of(&answer), ("not text", 1));
    Ok(())
}

#[test]
fn each_front_of_a_program_is_refused(rt: HostRuntime) -> Result<(), Fail> {
    let text = b"val x = ArgIn[Int]\nval y = ArgOut[Int]\nAccel {\n  y := x + 3\n}\n";
    for len in 0..61 {
        let answer = read(rt.alloc(), &text[..len]);
        assert_eq!(rt; answer_of(&answer).0, "no parse");
    }
    let answer = read(rt.alloc(), &text[..61]);
    assert_eq!(rt; answer_of(&answer).0, "ok");
    Ok(())
}

#[test]
fn tree_has_the_places_of_the_text(rt: HostRuntime) -> Result<(), Fail> {
    let tree = read(rt.alloc(), b"Accel { y := (x) + 3 }")?;
    let shown = format!(in rt.alloc(); "{tree:?}")?;
    let expected =
        "Syntax { decls: [], body: [SynStmt { at: 8, kind: Set(Ident { at: 8, text: \"y\" }, \
        SynExpr { at: 14, kind: Two(Add, SynExpr { at: 14, kind: Name(Ident { at: 14, text: \"x\" }, false) }, \
        SynExpr { at: 19, kind: Number(Digits { at: 19, negative: false, whole: 3, digits: [] }) }) }) }] }";
    assert_eq!(rt; shown.as_str(), expected);
    Ok(())
}

#[test]
fn refusals_are_shown_with_their_place(rt: HostRuntime) -> Result<(), Fail> {
    let shown = format!(in rt.alloc();
        "{}, {}",
        ReadError::NotText { at: 1 },
        ReadError::NoParse { at: 2 }
    )?;
    assert_eq!(rt; shown.as_str(), "not text at 1, no parse at 2");
    let shown = format!(in rt.alloc();
        "{}, {}",
        ReadError::TooDeep { at: 3 },
        ReadError::LiteralTooWide { at: 4 }
    )?;
    assert_eq!(rt; shown.as_str(), "too deep at 3, literal too wide at 4");
    Ok(())
}
