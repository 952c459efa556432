use sp_words::{
    ArgIn, ArgOut, Dram, Fifo, Kind, LineBuf, MemId, MemKind, ReadPort, Readable, Reg, Sram,
    Writable, WritePort, accesses_are_footprints, fresh_memories_fit, kinds_decide,
    ports_keep_to_their_kinds, states_are_what_is_held, types_name_their_kinds,
};

fn said<K: MemKind>() -> (Kind, u8, u8) {
    (K::KIND, K::MIN_RANK, K::MAX_RANK)
}

#[test]
fn kinds_have_their_ranks(rt: HostRuntime) {
    let cases = [
        (said::<Reg>(), (Kind::Reg, 0, 0)),
        (said::<Sram>(), (Kind::Sram, 1, 3)),
        (said::<Fifo>(), (Kind::Fifo, 0, 0)),
        (said::<LineBuf>(), (Kind::LineBuf, 2, 2)),
        (said::<Dram>(), (Kind::Dram, 1, 3)),
        (said::<ArgIn>(), (Kind::ArgIn, 0, 0)),
        (said::<ArgOut>(), (Kind::ArgOut, 0, 0)),
    ];
    for (found, expected) in cases {
        assert_eq!(rt; found, expected);
    }
}

fn read_number<K: Readable>(number: u32) -> u32 {
    ReadPort::<K>::new(MemId::new(number)).number()
}

fn write_number<K: Writable>(number: u32) -> u32 {
    WritePort::<K>::new(MemId::new(number)).number()
}

#[test]
fn ports_keep_the_number_of_their_memory(rt: HostRuntime) {
    let cases = [
        (read_number::<Reg>(0), 0),
        (read_number::<Sram>(1), 1),
        (read_number::<Fifo>(2), 2),
        (read_number::<LineBuf>(3), 3),
        (read_number::<ArgIn>(u32::MAX), u32::MAX),
        (write_number::<Reg>(5), 5),
        (write_number::<Sram>(6), 6),
        (write_number::<Fifo>(7), 7),
        (write_number::<ArgOut>(u32::MAX), u32::MAX),
        (MemId::<Dram>::new(9).number(), 9),
    ];
    for (found, expected) in cases {
        assert_eq!(rt; found, expected);
    }
}

#[test]
fn numbers_are_equal_where_their_memories_are(rt: HostRuntime) {
    let first = MemId::<Sram>::new(1);
    let port = ReadPort::new(first);
    let copy = port;
    assert!(rt; port == copy);
    assert!(rt; first == MemId::new(1));
    assert!(rt; first != MemId::new(2));
    assert!(rt; WritePort::new(first) != WritePort::new(MemId::new(2)));
}

#[test]
fn laws_of_memories_are_called_at_a_kind(rt: HostRuntime) {
    let memory = MemId::<Fifo>::new(4);
    accesses_are_footprints::<Fifo, u64>(memory);
    kinds_decide::<Fifo>();
    ports_keep_to_their_kinds::<ArgIn, ArgOut>();
    types_name_their_kinds();
    fresh_memories_fit();
    states_are_what_is_held();
    assert_eq!(rt; memory.number(), 4);
}
