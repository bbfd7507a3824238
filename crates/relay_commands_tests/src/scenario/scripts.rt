//! `world_script` over streams in memory: a worked script, bad ones, failures in the middle, and
//! what is written before them.
use relay_action::MemStream;
use relay_index::Index;
use relay_scenario::exit::exit_of_script;
use relay_scenario::script::{ScriptFault, world_script};
use relay_words::Exit;
use std::alloc::Global;
use std::process::Abort;

pub const THREE_THEN_ONE: &[u8] =
    b"world 1 1 10 10 10 4096 0 3 1 0 1000\nput 0 b 1 index {\"a\":1}\nput 0 b 2 index {\"a\":2}\nput 0 b 3 delete\ntake 0\ntake 0\ntake 0\nsend 0\nrun 1 1\nrun 1 2 429\nrun 1 3\nreply 1\nsend 0\ntick 0\ntake 0\nsend 0\nrun 2 1\nreply 2\nclose 0 0\nclose 1 0\ntake 0\ntake 0\n";

pub const ITS_ANSWERS: &[u8] =
    b"ok 0:1\nok 0:2\nok 0:3\nok\nok\nok\nok 1 b/1@1 b/2@2 b/3@3\nok 201\nok 429\nok 404\nok 2 0 0 1\nno NoRequest\nok\nok\nok 2 b/2@2\nok 201\nok 1 0 0 0\nok\nok\nok\nok\naccepted 0 3\napplied b/1 1 0:1\napplied b/2 2 0:2\napplied b/3 3 0:3\nfinished yes\n";

/// Whether a script in pieces of this many bytes has this result, and this is written.
fn gives(
    rt: &impl Abort,
    alloc: Global,
    input: &[u8],
    piece: usize,
    answer: Result<(), ScriptFault>,
    written: &[u8],
) -> bool {
    let input = input.to_vec(alloc).expect(rt, "memory");
    let output = Vec::new(alloc);
    let mut reader = MemStream::new(alloc, input, 0, piece.max(1), 0).expect(rt, "memory");
    let mut writer = MemStream::new(alloc, output, 100_000, piece.max(1), 0).expect(rt, "memory");
    let found = world_script(alloc, &mut reader, &mut writer, Index::new(alloc));
    found == answer && writer.written() == written
}

#[test]
fn three_then_one(rt: HostRuntime) {
    for piece in [1usize, 7, 100_000] {
        assert!(rt; gives(&rt, rt.alloc(), THREE_THEN_ONE, piece, Ok(()), ITS_ANSWERS));
    }
}

#[test]
fn bad_scripts(rt: HostRuntime) {
    let rows: [(&[u8], u64, &[u8]); 5] = [
        (b"", 1, b""),
        (b"\n", 1, b""),
        (b"world 1 1 10 10 10 4096 0 3 9 0 1000\n", 1, b""),
        (b"world 1 1 10 10 10 4096 0 3 1 0 1000\ntake  0\n", 2, b""),
        (
            b"world 1 1 10 10 10 4096 0 3 1 0 1000\ntake 0\ntick 0\nput 0 b 1 delete \n",
            4,
            b"no NothingQueued\nok\n",
        ),
    ];
    for (script, line, written) in rows {
        let answer = Err(ScriptFault::BadLine { line });
        assert!(rt; gives(&rt, rt.alloc(), script, 5, answer, written));
    }
}

/// The result of a script whose reader or writer fails at a call, and how many bytes were written,
/// or none if they are not a prefix of the answers.
fn failing(
    rt: &impl Abort,
    alloc: Global,
    read_at: u64,
    write_at: u64,
) -> (Result<(), ScriptFault>, Option<usize>) {
    let input = THREE_THEN_ONE.to_vec(alloc).expect(rt, "memory");
    let output = Vec::new(alloc);
    let mut reader = MemStream::new(alloc, input, 0, 50, read_at).expect(rt, "memory");
    let mut writer = MemStream::new(alloc, output, 100_000, 9, write_at).expect(rt, "memory");
    let answer = world_script(alloc, &mut reader, &mut writer, Index::new(alloc));
    let written = writer.written();
    (
        answer,
        ITS_ANSWERS.starts_with(written).then_some(written.len()),
    )
}

#[test]
fn each_read_fails_in_turn(rt: HostRuntime) {
    let mut last = 0;
    for call in 1..7u64 {
        let (answer, written) = failing(&rt, rt.alloc(), call, 0);
        let written = written.unwrap_or(0);
        assert!(rt; answer == Err(ScriptFault::Read) && written >= last);
        last = written;
    }
    assert!(rt; last > 0);
}

#[test]
fn each_write_fails_in_turn(rt: HostRuntime) {
    for call in 1..12u64 {
        let (answer, written) = failing(&rt, rt.alloc(), 0, call);
        let sent = written.unwrap_or(100_000) as u64;
        assert!(rt; answer == Err(ScriptFault::Write { sent }));
    }
}

#[test]
fn statuses(rt: HostRuntime) {
    let rows = [
        (ScriptFault::BadLine { line: 7 }, Exit::Input),
        (ScriptFault::Read, Exit::Device),
        (ScriptFault::Write { sent: 9 }, Exit::Device),
        (ScriptFault::Memory, Exit::Memory),
    ];
    for (fault, exit) in rows {
        assert!(rt; exit_of_script(fault) == exit);
    }
}
