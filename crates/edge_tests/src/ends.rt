//! Sources and sinks, each through its trait.
use host_edge::{Failed, MemSink, MemSource, Sink, Source, StdSink, StdSource};

// What two reads give, of three bytes at most.
fn read_twice<S: Source>(source: &mut S) -> [Result<usize, Failed>; 2] {
    let mut buffer = [0; 3];
    [source.read(&mut buffer), source.read(&mut buffer)]
}

#[test]
fn sources_give_pieces_and_fail(rt: HostRuntime) {
    let fails = vec![in rt.alloc(); 2].expect(&rt, "memory");
    let mut source = MemSource::new(
        Vec::from_slice(rt.alloc(), b"abcde").expect(&rt, "memory"),
        2,
        fails,
    );
    let mut standard = StdSource::new(b"abcde".as_slice());
    let reads = [read_twice(&mut source), read_twice(&mut standard)];
    assert!(rt; reads == [[Ok(2), Err(Failed)], [Ok(3), Ok(2)]]);
}

// What two writes of three bytes take.
fn write_twice<K: Sink>(sink: &mut K) -> [Result<usize, Failed>; 2] {
    [sink.write(b"abc"), sink.write(b"abc")]
}

// A write that takes nothing has failed.
#[test]
fn sinks_take_pieces_and_fail(rt: HostRuntime) {
    let mut sink = MemSink::new(rt.alloc(), 2, vec![in rt.alloc(); 2].expect(&rt, "memory"));
    let mut room = [0u8; 3];
    let mut standard = StdSink::new(room.as_mut_slice());
    let writes = [write_twice(&mut sink), write_twice(&mut standard)];
    assert!(rt; writes == [[Ok(2), Err(Failed)], [Ok(3), Err(Failed)]]);
}
