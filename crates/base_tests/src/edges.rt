// What the inputs and sinks answer, call by call.
use sp_edges::{
    HostInputs, HostSink, InputFault, Inputs, MemFile, MemInputs, MemSink, Sink, SinkFailed,
    SinkStop, put_text,
};
use std::alloc::Global;
use std::test::Fail;

fn file(alloc: Global, name: &str, bytes: &[u8]) -> Result<MemFile, Fail> {
    Ok(MemFile {
        name: String::from_str(alloc, name)?,
        bytes: Vec::from_slice(alloc, bytes)?,
    })
}

#[test]
fn files_in_memory_answer_call_by_call(rt: HostRuntime) -> Result<(), Fail> {
    let alloc = rt.alloc();
    let mut files = Vec::new(alloc);
    files.push(file(alloc, "a", b"hello")?)?;
    files.push(file(alloc, "b", b"")?)?;
    files.push(file(alloc, "a", b"second")?)?;
    let mut inputs = MemInputs::new(files, vec![in alloc; 1, 1, 6]?);
    let calls: [(&str, usize, Result<(), InputFault>, &str); 8] = [
        ("a", 5, Ok(()), ">hello"),
        ("a", 5, Err(InputFault::Failed), ">"),
        ("a", 4, Err(InputFault::TooLong), ">hello"),
        ("a", 1, Err(InputFault::TooLong), ">he"),
        ("c", 9, Err(InputFault::Failed), ">"),
        ("b", 0, Ok(()), ">"),
        ("b", 9, Err(InputFault::Failed), ">"),
        ("a", usize::MAX, Ok(()), ">hello"),
    ];
    for (number, (name, most, answer, text)) in calls.iter().enumerate() {
        let mut into = Vec::from_slice(alloc, b">")?;
        let found = inputs.read_into(name, *most, &mut into);
        assert_eq!(rt; found, *answer, "call {number}");
        assert_eq!(rt; into.as_slice(), text.as_bytes(), "call {number}");
    }
    Ok(())
}

#[test]
fn sink_in_memory_stops_and_fills(rt: HostRuntime) -> Result<(), Fail> {
    let alloc = rt.alloc();
    let mut stops = Vec::new(alloc);
    for (call, takes) in [(1, 2), (1, 3), (3, 9), (6, 5)] {
        stops.push(SinkStop { call, takes })?;
    }
    let mut sink = MemSink::new(alloc, 13, stops)?;
    let puts: [(&str, Result<(), SinkFailed>, &str); 9] = [
        ("abc", Ok(()), "abc"),
        ("defg", Err(SinkFailed), "abcde"),
        ("hi", Ok(()), "abcdehi"),
        ("jk", Err(SinkFailed), "abcdehijk"),
        ("", Ok(()), "abcdehijk"),
        ("l", Ok(()), "abcdehijkl"),
        ("mnop", Err(SinkFailed), "abcdehijklmno"),
        ("p", Err(SinkFailed), "abcdehijklmno"),
        ("", Ok(()), "abcdehijklmno"),
    ];
    for (number, (piece, answer, taken)) in puts.iter().enumerate() {
        assert_eq!(rt; sink.put(piece.as_bytes()), *answer, "put {number}");
        assert_eq!(rt; sink.bytes(), taken.as_bytes(), "put {number}");
    }
    Ok(())
}

#[test]
fn texts_are_put_in_pieces_of_65536(rt: HostRuntime) -> Result<(), Fail> {
    let alloc = rt.alloc();
    // How long the text is, which put fails after how many bytes, and how many bytes were taken.
    let cases: [(usize, u64, usize, Result<(), SinkFailed>, usize); 6] = [
        (0, 0, 0, Ok(()), 0),
        (65_536, 1, 0, Ok(()), 65_536),
        (65_537, 1, 0, Err(SinkFailed), 65_536),
        (131_072, 2, 0, Ok(()), 131_072),
        (131_073, 1, 10, Err(SinkFailed), 65_546),
        (70_000, 0, 7, Err(SinkFailed), 7),
    ];
    for (len, call, takes, answer, taken) in cases {
        let text = vec![in alloc; 7u8; len]?;
        let mut sink = MemSink::new(alloc, 200_000, vec![in alloc; SinkStop { call, takes }]?)?;
        assert_eq!(rt; put_text(&mut sink, text.as_slice()), answer, "{len} bytes");
        assert_eq!(rt; sink.bytes().len(), taken, "{len} bytes");
    }
    Ok(())
}

#[test]
fn files_of_the_machine_are_written_and_read(rt: HostRuntime) -> Result<(), Fail> {
    let alloc = rt.alloc();
    let mut inputs = HostInputs::new(&rt, alloc);
    let mut into = Vec::from_slice(alloc, b">")?;
    let mut sink = HostSink::file(&rt, alloc, "text");
    assert_eq!(rt;
        inputs.read_into("text", 6, &mut into),
        Err(InputFault::Failed),
        "not made yet"
    );
    assert_eq!(rt; sink.put(b"abc"), Ok(()));
    assert_eq!(rt; sink.put(b"def"), Ok(()));
    assert_eq!(rt; inputs.read_into("text", 6, &mut into), Ok(()));
    assert_eq!(rt; into.as_slice(), b">abcdef".as_slice());
    assert_eq!(rt;
        inputs.read_into("text", 4, &mut into),
        Err(InputFault::TooLong)
    );
    assert_eq!(rt; into.as_slice(), b">abcdefabcde".as_slice());
    assert_eq!(rt;
        inputs.read_into("missing", 6, &mut into),
        Err(InputFault::Failed)
    );
    assert_eq!(rt;
        inputs.read_into(".", 6, &mut into),
        Err(InputFault::Failed),
        "a folder"
    );
    let mut unmade = HostSink::file(&rt, alloc, "missing/text");
    assert_eq!(rt; unmade.put(b"abc"), Err(SinkFailed));
    let mut long = HostSink::file(&rt, alloc, "long");
    let text = vec![in alloc; 9u8; 200_000]?;
    assert_eq!(rt; put_text(&mut long, text.as_slice()), Ok(()));
    into.clear();
    assert_eq!(rt; inputs.read_into("long", 200_000, &mut into), Ok(()));
    assert_eq!(rt; into.as_slice(), text.as_slice());
    Ok(())
}

#[test]
fn standard_output_takes_bytes(rt: HostRuntime) {
    let mut sink = HostSink::stdout(&rt, rt.alloc());
    assert_eq!(rt; sink.put(b"taken\n"), Ok(()));
}
