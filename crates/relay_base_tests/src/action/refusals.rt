//! Each call that allocates, with any one of its allocations refused (`make refusals`): the refusal
//! is reported, and the call succeeds when it is repeated.
use relay_action::{Action, DocKey, MemStream, Op, Source, Text, Write};
use std::alloc::{AllocError, Global};
use std::process::Abort;

// A text that is too long to be stored in the value itself.
const LONG: &str = "more than the thirty-eight bytes that a value has room for by itself";

fn text_of(rt: &impl Abort, alloc: Global) -> Text {
    match Text::new(alloc, LONG) {
        Ok(text) => text,
        Err(AllocError) => Text::new(alloc, LONG).expect(rt, "a text"),
    }
}

fn text_copy(rt: &impl Abort, text: &Text) -> Text {
    match text.copy() {
        Ok(copy) => copy,
        Err(AllocError) => text.copy().expect(rt, "a copy"),
    }
}

fn are_texts(rt: &impl Abort, alloc: Global) -> bool {
    let text = text_of(rt, alloc);
    let copy = text_copy(rt, &text);
    (text.as_str(), copy.as_str()) == (LONG, LONG)
}

#[test]
fn refused_texts(rt: HostRuntime) {
    assert!(rt; are_texts(&rt, rt.alloc()));
}

fn key_of(rt: &impl Abort, alloc: Global) -> DocKey {
    match DocKey::new(alloc, LONG, LONG) {
        Ok(key) => key,
        Err(_) => DocKey::new(alloc, LONG, LONG).expect(rt, "a key"),
    }
}

fn key_copy(rt: &impl Abort, key: &DocKey) -> DocKey {
    match key.copy() {
        Ok(copy) => copy,
        Err(AllocError) => key.copy().expect(rt, "a copy"),
    }
}

fn is_key(key: &DocKey) -> bool {
    (key.index(), key.id()) == (LONG, LONG)
}

fn is_key_copied(rt: &impl Abort, key: &DocKey) -> bool {
    let copy = key_copy(rt, key);
    is_key(&copy)
}

fn are_keys(rt: &impl Abort, alloc: Global) -> bool {
    let key = key_of(rt, alloc);
    is_key(&key) & is_key_copied(rt, &key)
}

#[test]
fn refused_documents(rt: HostRuntime) {
    assert!(rt; are_keys(&rt, rt.alloc()));
}

fn action_of(rt: &impl Abort, alloc: Global) -> Action {
    match Action::index(alloc, LONG) {
        Ok(action) => action,
        Err(_) => Action::index(alloc, LONG).expect(rt, "an action"),
    }
}

fn action_copy(rt: &impl Abort, action: &Action) -> Action {
    match action.copy() {
        Ok(copy) => copy,
        Err(AllocError) => action.copy().expect(rt, "a copy"),
    }
}

// Whether a copy of a source is the long text.
fn is_source(rt: &impl Abort, source: &Source) -> bool {
    let copy = match source.copy() {
        Ok(copy) => copy,
        Err(AllocError) => source.copy().expect(rt, "a copy"),
    };
    copy.text() == LONG
}

// Whether a copy of an action's source is the long text.
fn has_source(rt: &impl Abort, action: &Action) -> bool {
    match action {
        Action::Index(source) => is_source(rt, source),
        Action::Delete => false,
    }
}

fn are_actions(rt: &impl Abort, alloc: Global) -> bool {
    let action = action_of(rt, alloc);
    let copy = action_copy(rt, &action);
    has_source(rt, &action) & has_source(rt, &copy)
}

#[test]
fn refused_actions(rt: HostRuntime) {
    assert!(rt; are_actions(&rt, rt.alloc()));
}

fn op_copy(rt: &impl Abort, op: &Op) -> Op {
    match op.copy() {
        Ok(copy) => copy,
        Err(AllocError) => op.copy().expect(rt, "a copy"),
    }
}

// Whether the parts of an operation or of a write are the long texts.
fn are_long(rt: &impl Abort, key: &DocKey, action: &Action) -> bool {
    is_key(key) && has_source(rt, action)
}

fn is_op(rt: &impl Abort, alloc: Global) -> bool {
    let op = Op {
        epoch: 1,
        producer: 2,
        number: 3,
        key: key_of(rt, alloc),
        action: action_of(rt, alloc),
    };
    let copy = op_copy(rt, &op);
    (copy.name() == op.name()) & are_long(rt, &copy.key, &copy.action)
}

fn write_copy(rt: &impl Abort, write: &Write) -> Write {
    match write.copy() {
        Ok(copy) => copy,
        Err(AllocError) => write.copy().expect(rt, "a copy"),
    }
}

fn is_write(rt: &impl Abort, alloc: Global) -> bool {
    let write = Write {
        key: key_of(rt, alloc),
        version: 7,
        action: action_of(rt, alloc),
    };
    let copy = write_copy(rt, &write);
    (copy.version == 7) & are_long(rt, &copy.key, &copy.action)
}

#[test]
fn refused_operations_and_writes(rt: HostRuntime) {
    assert!(rt; is_op(&rt, rt.alloc()) && is_write(&rt, rt.alloc()));
}

fn stream_of(alloc: Global) -> Result<MemStream, AllocError> {
    MemStream::new(alloc, Vec::new(alloc), 100, 10, 0)
}

fn is_stream(rt: &impl Abort, alloc: Global) -> bool {
    let stream = match stream_of(alloc) {
        Ok(stream) => stream,
        Err(AllocError) => stream_of(alloc).expect(rt, "a stream"),
    };
    stream.written().is_empty()
}

#[test]
fn refused_streams(rt: HostRuntime) {
    assert!(rt; is_stream(&rt, rt.alloc()));
}
