//! Limits, copies, and streams as a generic caller sees them.
use relay_action::{
    Action, ActionFault, ActionKind, ByteIn, ByteOut, DocKey, List, MemStream, Op, OpName, Source,
    StdStream, StreamFailed, Text, Write, lane_of, write_all,
};
use std::alloc::{AllocError, Global};
use std::process::Abort;

// Whether a text equals its copy.
fn equals_its_copy(rt: &impl Abort, text: &Text) -> bool {
    let copy = text.copy().expect(rt, "memory");
    copy == *text
}

// Whether the texts of these letters are equal.
fn are_equal(rt: &impl Abort, alloc: Global, letters: &str, others: &str) -> bool {
    let text = Text::new(alloc, letters).expect(rt, "memory");
    let other = Text::new(alloc, others).expect(rt, "memory");
    text == other
}

#[test]
fn texts_equal_their_copies_alone(rt: HostRuntime) {
    let alloc = rt.alloc();
    assert!(rt;
        holds(&rt, alloc, "b")
            && are_equal(&rt, alloc, "b", "b")
            && !are_equal(&rt, alloc, "b", "c")
    );
}

// Whether a list is these two numbers, also as a vector.
fn is_list(list: List<i32>, numbers: &[i32]) -> bool {
    let same = list.as_slice() == numbers;
    let vector = list.into_vec();
    same & (vector.as_slice() == numbers)
}

#[test]
fn lists_hold_what_they_were_given(rt: HostRuntime) {
    let numbers = [3, 1].to_vec(rt.alloc()).expect(&rt, "memory");
    assert!(rt; is_list(List::of(numbers), &[3, 1]));
}

const LENGTHS: &[usize] = &[0, 1, 37, 38, 39, 600];

// Whether a text keeps these letters, equals its copy, and is the empty text exactly if there are none.
fn keeps(rt: &impl Abort, text: &Text, letters: &str) -> bool {
    let is_empty = *text == Text::empty();
    text.as_str() == letters && equals_its_copy(rt, text) && is_empty == letters.is_empty()
}

fn holds(rt: &impl Abort, alloc: Global, letters: &str) -> bool {
    let text = Text::new(alloc, letters).expect(rt, "memory");
    keeps(rt, &text, letters)
}

fn holds_letters(rt: &impl Abort, alloc: Global, count: usize) -> bool {
    let letters = "a".repeat(alloc, count).expect(rt, "memory");
    holds(rt, alloc, letters.as_str())
}

// A text keeps its bytes, inline and on the heap.
#[test]
fn texts_of_all_lengths(rt: HostRuntime) {
    for length in LENGTHS {
        assert!(rt; holds_letters(&rt, rt.alloc(), *length));
    }
}

fn key_equals_its_copy(rt: &impl Abort, key: &DocKey) -> bool {
    let copy = key.copy().expect(rt, "memory");
    copy == *key
}

// Whether a key has this index and this id, and equals its copy.
fn is_key(rt: &impl Abort, alloc: Global, index: &str, id: &str) -> Result<bool, ActionFault> {
    let key = DocKey::new(alloc, index, id)?;
    Ok(((key.index(), key.id()) == (index, id)) & key_equals_its_copy(rt, &key))
}

// The same for an index and an id of this many letters.
fn is_key_of(rt: &impl Abort, alloc: Global, index: usize, id: usize) -> Result<bool, ActionFault> {
    let index = "a".repeat(alloc, index).expect(rt, "memory");
    let id = "a".repeat(alloc, id).expect(rt, "memory");
    is_key(rt, alloc, index.as_str(), id.as_str())
}

const KEYS: &[(usize, usize, Result<bool, ActionFault>)] = &[
    (1, 1, Ok(true)),
    (255, 512, Ok(true)),
    (0, 1, Err(ActionFault::IndexEmpty)),
    (0, 0, Err(ActionFault::IndexEmpty)),
    (256, 0, Err(ActionFault::IndexLong)),
    (256, 1, Err(ActionFault::IndexLong)),
    (1, 0, Err(ActionFault::IdEmpty)),
    (255, 513, Err(ActionFault::IdLong)),
];

#[test]
fn keys_at_their_limits(rt: HostRuntime) {
    for (index, id, answer) in KEYS {
        assert!(rt; is_key_of(&rt, rt.alloc(), *index, *id) == *answer);
    }
}

const NAMES: &[(ActionFault, &str)] = &[
    (ActionFault::IndexEmpty, "IndexEmpty"),
    (ActionFault::IndexLong, "IndexLong"),
    (ActionFault::IdEmpty, "IdEmpty"),
    (ActionFault::IdLong, "IdLong"),
    (ActionFault::SourceEmpty, "SourceEmpty"),
    (ActionFault::SourceLong, "SourceLong"),
    (ActionFault::SourceNewline, "SourceNewline"),
    (ActionFault::Memory, "Memory"),
];

// A fault is printed as its name.
#[test]
fn names_of_faults(rt: HostRuntime) {
    for (fault, name) in NAMES {
        let printed = format!(in rt.alloc(); "{fault}").expect(&rt, "memory");
        assert!(rt; (fault.name(), printed.as_str()) == (*name, *name));
    }
}

// Whether a source is this text, and so is its copy.
fn is_of(rt: &impl Abort, source: &Source, text: &str) -> bool {
    let copy = source.copy().expect(rt, "memory");
    (copy.text(), source.text()) == (text, text)
}

// Whether an action indexes this text, and so does the copy of its source.
fn indexes(rt: &impl Abort, action: &Action, text: &str) -> bool {
    match action {
        Action::Index(source) => is_of(rt, source, text),
        Action::Delete => false,
    }
}

// The same for the action made of a text.
fn is_source(rt: &impl Abort, alloc: Global, text: &str) -> Result<bool, ActionFault> {
    let action = Action::index(alloc, text)?;
    Ok(indexes(rt, &action, text) & (action.kind() == ActionKind::Index))
}

// The same for a source of this many letters.
fn is_source_of(rt: &impl Abort, alloc: Global, length: usize) -> Result<bool, ActionFault> {
    let text = "a".repeat(alloc, length).expect(rt, "memory");
    is_source(rt, alloc, text.as_str())
}

const SOURCES: &[(&str, Result<bool, ActionFault>)] = &[
    ("", Err(ActionFault::SourceEmpty)),
    ("a\rb", Err(ActionFault::SourceNewline)),
    ("a\nb", Err(ActionFault::SourceNewline)),
    ("no JSON", Ok(true)),
];

#[test]
fn sources_at_their_limits(rt: HostRuntime) {
    for (text, answer) in SOURCES {
        assert!(rt; is_source(&rt, rt.alloc(), *text) == *answer);
    }
    let limits = (
        is_source_of(&rt, rt.alloc(), 1_048_576),
        is_source_of(&rt, rt.alloc(), 1_048_577),
    );
    assert!(rt; limits == (Ok(true), Err(ActionFault::SourceLong)));
}

const KINDS: &[(&str, Option<ActionKind>)] = &[
    ("index", Some(ActionKind::Index)),
    ("delete", Some(ActionKind::Delete)),
    ("create", None),
    ("update", None),
    ("Index", None),
    ("indexes", None),
    ("", None),
];

// OpenSearch has four names; the relay accepts two of them, in this spelling.
#[test]
fn kinds_of_names(rt: HostRuntime) {
    for (name, kind) in KINDS {
        assert!(rt; ActionKind::named(name) == *kind);
    }
}

// Whether the copy of a write of a book equals it.
fn is_copied(rt: &impl Abort, write: &Write) -> bool {
    let copy = write.copy().expect(rt, "memory");
    (copy.key == write.key) & (copy.version == 7) & indexes(rt, &copy.action, "{}")
}

fn copies_write(rt: &impl Abort, alloc: Global) -> bool {
    let write = Write {
        key: DocKey::new(alloc, "books", "1").expect(rt, "a key"),
        version: 7,
        action: Action::index(alloc, "{}").expect(rt, "a source"),
    };
    is_copied(rt, &write)
}

fn copies_delete(rt: &impl Abort) -> bool {
    let copy = Action::delete().copy().expect(rt, "memory");
    let kinds = (copy.kind(), Action::delete().kind());
    kinds == (ActionKind::Delete, ActionKind::Delete)
}

// The removal of a book by producer 3, its operation 9.
const REMOVAL: OpName = OpName {
    epoch: 0,
    producer: 3,
    number: 9,
};

// Whether an operation has this name, and so has its copy, which is of the same document.
fn is_op(rt: &impl Abort, op: &Op, name: OpName) -> bool {
    let copy = op.copy().expect(rt, "memory");
    ((op.name(), copy.name()) == (name, name)) & (copy.key == op.key)
}

fn copies_operation(rt: &impl Abort, alloc: Global) -> bool {
    let op = Op {
        epoch: 0,
        producer: 3,
        number: 9,
        key: DocKey::new(alloc, "books", "1").expect(rt, "a key"),
        action: Action::delete(),
    };
    is_op(rt, &op, REMOVAL)
}

#[test]
fn copies_equal_them(rt: HostRuntime) {
    let alloc = rt.alloc();
    assert!(rt; copies_write(&rt, alloc) && copies_delete(&rt) && copies_operation(&rt, alloc));
}

// A key, made by a second call if the first one's allocation failed.
fn key_again(rt: &impl Abort, alloc: Global) -> DocKey {
    match DocKey::new(alloc, "books", "1") {
        Ok(key) => key,
        Err(_) => DocKey::new(alloc, "books", "1").expect(rt, "a key"),
    }
}

// Whether the copy of a key, if it could be allocated, equals it.
fn is_copied_key(key: &DocKey) -> bool {
    match key.copy() {
        Ok(copy) => copy == *key,
        Err(AllocError) => true,
    }
}

fn is_made(rt: &impl Abort, alloc: Global) -> bool {
    let key = key_again(rt, alloc);
    is_copied_key(&key) & ((key.index(), key.id()) == ("books", "1"))
}

// A failed allocation is reported as out of memory, and nothing else changes.
#[test]
fn refusals(rt: HostRuntime) {
    assert!(rt; is_made(&rt, rt.alloc()));
}

// What a generic caller sees of a stream.
fn copy_piece<S: ByteIn + ByteOut>(stream: &mut S) -> usize {
    let mut buffer = [0; 8];
    match stream.read(&mut buffer) {
        Ok(n) => stream.write(&buffer[..n]).unwrap_or(0),
        Err(_) => 0,
    }
}

// Whether a piece of three bytes is copied, and the next call of the stream fails.
fn copies_three(stream: &mut MemStream) -> bool {
    let is_first = copy_piece(stream) == 3;
    let is_second = copy_piece(stream) == 0;
    is_first && is_second && stream.written() == b"abc".as_slice()
}

// Whether two more bytes are written, and then none.
fn takes_what_it_has_room_for(stream: &mut MemStream) -> bool {
    let is_first = stream.write(b"xyz") == Ok(2);
    let is_second = stream.write(b"xyz") == Err(StreamFailed);
    is_first && is_second && stream.written() == b"abcxy".as_slice()
}

// A stream of six bytes in pieces of three, whose fourth call fails.
#[test]
fn pieces(rt: HostRuntime) {
    let input = b"abcdef".to_vec(rt.alloc()).expect(&rt, "memory");
    let mut stream = MemStream::new(rt.alloc(), input, 5, 3, 4).expect(&rt, "memory");
    assert!(rt; copies_three(&mut stream) && takes_what_it_has_room_for(&mut stream));
}

const TEN: &[u8] = b"0123456789";

// The call that fails, and how many of ten bytes are sent in pieces of three.
const SENT: &[(u64, Result<(), usize>)] = &[
    (1, Err(0)),
    (2, Err(3)),
    (3, Err(6)),
    (4, Err(9)),
    (5, Ok(())),
];

// What is answered if this call fails, and whether this many of the ten bytes are written then.
fn written_until(
    rt: &impl Abort,
    alloc: Global,
    fail_at: u64,
    count: usize,
) -> (Result<(), usize>, bool) {
    let mut stream = MemStream::new(alloc, Vec::new(alloc), 10, 3, fail_at).expect(rt, "memory");
    let sent = write_all(&mut stream, TEN);
    (sent, TEN.get(..count) == Some(stream.written()))
}

// Each call in turn is the one that fails. No more is written than what was sent.
#[test]
fn each_call_fails_in_turn(rt: HostRuntime) {
    for (fail_at, sent) in SENT {
        let count = sent.err().unwrap_or(10);
        assert!(rt; written_until(&rt, rt.alloc(), *fail_at, count) == (*sent, true));
    }
}

// Whether a reader of `std` gives three bytes two at a time, and then none.
fn reads_to_the_end() -> bool {
    let mut reader = StdStream::new(b"abc".as_slice());
    let mut buffer = [0; 2];
    let first = reader.read(&mut buffer);
    let is_first = first == Ok(2) && buffer == *b"ab";
    let second = reader.read(&mut buffer);
    let third = reader.read(&mut buffer);
    is_first && second == Ok(1) && third == Ok(0) && reader.get_ref().len() == 0
}

// Whether a writer of `std` takes three bytes.
fn takes_all(alloc: Global) -> bool {
    let mut writer = StdStream::new(Vec::new(alloc));
    write_all(&mut writer, b"abc") == Ok(())
}

// Whether a writer of `std` with room for two bytes takes two of three.
fn takes_two() -> bool {
    let mut room = [0; 2];
    let mut full = StdStream::new(room.as_mut_slice());
    write_all(&mut full, b"abc") == Err(2)
}

// A reader and a writer of `std`, at the end and without room.
#[test]
fn streams_of_std(rt: HostRuntime) {
    assert!(rt; reads_to_the_end() && takes_all(rt.alloc()) && takes_two());
}

// The lanes of the ids 0 to 7 of one index, with eight lanes.
const LANES: &[(&str, u32)] = &[
    ("0", 6),
    ("1", 1),
    ("2", 0),
    ("3", 3),
    ("4", 2),
    ("5", 5),
    ("6", 4),
    ("7", 7),
];

// The same documents are all in the first lane if there is only one.
#[test]
fn lanes_of_documents(rt: HostRuntime) {
    for (id, lane) in LANES {
        let key = DocKey::new(rt.alloc(), "books", *id).expect(&rt, "a key");
        assert!(rt; (lane_of(&key, 8), lane_of(&key, 1)) == (*lane, 0));
    }
}
