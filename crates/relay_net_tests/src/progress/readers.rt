//! Counted readers.
use relay_action::{ByteIn, MemStream};
use relay_progress::{CountedReader, Counts, Shared};
use std::process::Abort;
use std::sync::Arc;

// A stream of five bytes that returns two at a time, and fails at its third call.
fn stream(rt: &(impl Abort + AllocGlobal)) -> MemStream {
    let bytes = b"abcde".to_vec(rt.alloc()).expect(rt, "memory");
    MemStream::new(rt.alloc(), bytes, 0, 2, 3).expect(rt, "memory")
}

// The results of four reads.
fn reads<S: ByteIn>(reader: &mut S) -> [Option<usize>; 4] {
    let mut buffer = [0; 8];
    let first = reader.read(&mut buffer).ok();
    let second = reader.read(&mut buffer).ok();
    let third = reader.read(&mut buffer).ok();
    [first, second, third, reader.read(&mut buffer).ok()]
}

// The same with a counted reader of that stream.
fn counted(rt: &(impl Abort + AllocGlobal), counts: Option<Shared>) -> [Option<usize>; 4] {
    reads(&mut CountedReader::new(stream(rt), counts))
}

const GIVEN: [Option<usize>; 4] = [Some(2), Some(2), None, Some(1)];

#[test]
fn bytes_that_were_read(rt: HostRuntime) {
    let counts = Counts::shared(rt.alloc()).expect(&rt, "memory");
    let shared = Arc::try_clone(&counts).expect(&rt, "a handle");
    assert!(rt; counted(&rt, Some(shared)) == GIVEN);
    assert!(rt; counts.read() == 5);
    assert!(rt; counted(&rt, None) == GIVEN);
}
