//! Runs of writes, look-ups, and bodies of bulk requests.
ghost use Rattle.relay_index.specs.Choices.{MayChoose};

use crate::writes::{is_of, write_of};
use relay_action::{DocKey, Write};
use relay_index::{Choice, Index, Script, may_refuse};
use relay_results::{DoneResult, ItemDone, VersionConflict};
use std::alloc::AllocError;
use std::mem;
use std::process::Abort;

// A fresh index. It is leaked: to prove that an index can be dropped costs more than the rest of a
// test.
fn fresh<'i>(rt: &(impl Abort + AllocGlobal)) -> &'i mut Index {
    Box::leak(Box::new(rt.alloc(), Index::new(rt.alloc())).expect(rt, "memory"))
}

/// The id, the version and the source of a write to a document of index `b`; a source of `None` is
/// a delete.
type Row<'r> = (&'r str, u64, Option<&'r str>);

/// The status, the result, the stored version and the sequence number after running a write.
type Said = (u16, DoneResult, u64, u64);

// The result of running a write, which names its document.
fn said_of(rt: &impl Abort, index: &mut Index, write: &Write, choice: Choice) -> Said
    requires { MayChoose choice }
{
    let done = index.run(write, choice).expect(rt, "memory");
    assert!(rt; done.key == write.key);
    (done.status, done.result, done.version, done.seq)
}

// The result of running the write of a row.
fn run(rt: &(impl Abort + AllocGlobal), index: &mut Index, row: Row, choice: Choice) -> Said
    requires { MayChoose choice }
{
    let (id, version, source) = row;
    let write = write_of(rt, "b", id, version, source);
    let said = said_of(rt, index, &write, choice);
    mem::forget(write);
    said
}

const RUNS: &[(Row<'static>, Said)] = &[
    (("2", 5, None), (404, DoneResult::NotFound, 5, 0)),
    (("2", 4, Some("{}")), (409, DoneResult::Conflict, 0, 0)),
    (("2", 5, None), (409, DoneResult::Conflict, 0, 0)),
    (("2", 6, Some("{}")), (201, DoneResult::Created, 6, 1)),
    (("2", 7, Some("[]")), (200, DoneResult::Updated, 7, 2)),
    (("1", 0, Some("{}")), (201, DoneResult::Created, 0, 3)),
    (("2", 9, None), (200, DoneResult::Deleted, 9, 4)),
    (("2", 8, Some("{}")), (409, DoneResult::Conflict, 0, 0)),
    (("2", 10, None), (404, DoneResult::NotFound, 10, 5)),
];

// The table of results of a write, line by line.
#[test]
fn writes_that_run(rt: HostRuntime) {
    let index = fresh(&rt);
    for (row, said) in RUNS {
        assert!(rt; run(&rt, index, *row, Choice::Run) == *said);
    }
}

// The statuses at the ends of the range of refusals, and the two inside it that are not.
#[test]
fn statuses_of_refusals(rt: HostRuntime) {
    let rows = [
        (399u16, false),
        (400, true),
        (404, false),
        (409, false),
        (429, true),
        (599, true),
        (600, false),
    ];
    for (status, wanted) in rows {
        assert!(rt; may_refuse(status) == wanted);
    }
}

// A refused write changes nothing: its version runs afterwards.
#[test]
fn writes_that_are_refused(rt: HostRuntime) {
    let index = fresh(&rt);
    let row = ("2", 7, Some("{}"));
    let refused = run(&rt, index, row, Choice::Refuse(429));
    let created = run(&rt, index, row, Choice::Run);
    assert!(rt;
        refused == (429, DoneResult::Refused, 0, 0) && created == (201, DoneResult::Created, 7, 0)
    );
}

// The version and the source of a document, and how many writes were applied to it.
fn look_up<'i>(
    rt: &(impl Abort + AllocGlobal),
    index: &'i Index,
    id: &str,
) -> (Option<u64>, Option<&'i str>, usize) {
    let key = DocKey::new(rt.alloc(), "b", id).expect(rt, "a key");
    (
        index.version(&key),
        index.source(&key),
        index.applied(&key).len(),
    )
}

const WRITES: &[Row<'static>] = &[
    ("1", 3, Some("{}")),
    ("3", 9, Some("[1]")),
    ("2", 4, Some("{}")),
    ("2", 5, None),
    ("1", 2, None),
];

const LOOK_UPS: &[(&str, (Option<u64>, Option<&str>, usize))] = &[
    ("1", (Some(3), Some("{}"), 1)),
    ("2", (Some(5), None, 2)),
    ("3", (Some(9), Some("[1]"), 1)),
    ("4", (None, None, 0)),
];

// A document that exists, one that was deleted, one that was replaced, and one that never existed.
#[test]
fn look_ups(rt: HostRuntime) {
    let index = fresh(&rt);
    assert!(rt; index.highest().is_none());
    for row in WRITES {
        run(&rt, index, *row, Choice::Run);
    }
    assert!(rt; index.highest() == Some(9));
    for (id, wanted) in LOOK_UPS {
        assert!(rt; look_up(&rt, index, *id) == *wanted);
    }
}

// Runs the delete of a document twice with the same version.
fn delete_twice(rt: &(impl Abort + AllocGlobal), index: &mut Index, name: &str, id: &str) {
    let write = write_of(rt, name, id, 1, None);
    said_of(rt, index, &write, Choice::Run);
    said_of(rt, index, &write, Choice::Run);
    mem::forget(write);
}

// Whether the documents have these index names and ids.
fn are(keys: &[DocKey], wanted: &[(&str, &str)]) -> bool {
    for (key, (name, id)) in keys.iter().zip(wanted) {
        if !is_of(key, *name, *id) {
            return false;
        }
    }
    keys.len() == wanted.len()
}

// Whether the documents of an index are these, in this order.
fn has_keys(rt: &(impl Abort + AllocGlobal), index: &Index, wanted: &[(&str, &str)]) -> bool {
    let keys = index.keys(rt.alloc()).expect(rt, "memory");
    let good = are(&keys, wanted);
    mem::forget(keys);
    good
}

const DELETES: &[(&str, &str)] = &[
    ("ba", "1"),
    ("b", "z"),
    ("b", "10"),
    ("\u{e9}", "1"),
    ("b", "9"),
    ("B", "1"),
];

const IN_ORDER: &[(&str, &str)] = &[
    ("B", "1"),
    ("b", "10"),
    ("b", "9"),
    ("b", "z"),
    ("ba", "1"),
    ("\u{e9}", "1"),
];

// Documents are in byte order, a name before those that begin with it, each once.
#[test]
fn documents_in_order(rt: HostRuntime) {
    let index = fresh(&rt);
    assert!(rt; has_keys(&rt, index, &[]));
    for (name, id) in DELETES {
        delete_twice(&rt, index, *name, *id);
    }
    assert!(rt; has_keys(&rt, index, IN_ORDER));
}

fn conflict_of(rt: &impl Abort, done: Result<ItemDone, AllocError>) -> Option<VersionConflict> {
    done.expect(rt, "memory").conflict
}

// The versions that the index states for a delete of the document `2` with this version, if it were
// run, if it were refused, and then when it is run.
fn states(
    rt: &(impl Abort + AllocGlobal),
    index: &mut Index,
    version: u64,
) -> [Option<VersionConflict>; 3] {
    let write = write_of(rt, "b", "2", version, None);
    let before = conflict_of(rt, index.preview(&write, Choice::Run));
    let refused = conflict_of(rt, index.preview(&write, Choice::Refuse(429)));
    let after = conflict_of(rt, index.run(&write, Choice::Run));
    mem::forget(write);
    [before, refused, after]
}

// An index, after a write with version 5, states the versions of a conflict if it is told to, and
// only then.
#[test]
fn stated_versions(rt: HostRuntime) {
    let index = fresh(&rt);
    run(&rt, index, ("2", 5, Some("{}")), Choice::Run);
    assert!(rt; states(&rt, index, 3) == [None, None, None]);
    index.state_versions();
    let versions = Some(VersionConflict {
        stored: 5,
        provided: 3,
    });
    assert!(rt;
        states(&rt, index, 3) == [versions, None, versions]
            && states(&rt, index, 6) == [None, None, None]
    );
}

/// A body, and the status and the text of its answer.
type Served<'r> = (&'r str, u16, &'r str);

// Whether an index under a script gives the answer of a row to its body.
fn serves(
    rt: &(impl Abort + AllocGlobal),
    index: &mut Index,
    script: &mut Script,
    row: &Served,
) -> bool {
    let (body, status, text) = *row;
    let answer = index.serve_body(rt.alloc(), body.as_bytes(), script);
    let (told, written) = answer.expect(rt, "memory");
    told == status && written.as_str() == text
}

// Whether a fresh index answers a body with this text, under a script that refuses nothing.
fn serves_first(rt: &(impl Abort + AllocGlobal), body: &str, text: &str) -> bool {
    let mut script = Script::new(rt.alloc());
    let good = serves(rt, fresh(rt), &mut script, &(body, 200, text));
    mem::forget(script);
    good
}

const BODIES: &[(&str, &str)] = &[
    ("", "{\"errors\":false,\"items\":[],\"took\":0}"),
    (
        "{\"delete\":{\"_id\":\"2\",\"_index\":\"b\",\"version\":5,\"version_type\":\"external\"}}\n",
        "{\"errors\":false,\"items\":[{\"delete\":{\"_id\":\"2\",\"_index\":\"b\",\"_seq_no\":0,\"_version\":5,\"result\":\"not_found\",\"status\":404}}],\"took\":0}",
    ),
    (
        "{\"delete\":{\"_id\":\"2\",\"_index\":\"b\",\"version\":5,\"version_type\":\"external\"}}\n\
        {\"index\":{\"_id\":\"2\",\"_index\":\"b\",\"version\":4,\"version_type\":\"external\"}}\n{\"a\":1}\n\
        {\"index\":{\"_id\":\"2\",\"_index\":\"b\",\"version\":6,\"version_type\":\"external\"}}\n{\"a\":2}\n",
        "{\"errors\":true,\"items\":[\
        {\"delete\":{\"_id\":\"2\",\"_index\":\"b\",\"_seq_no\":0,\"_version\":5,\"result\":\"not_found\",\"status\":404}},\
        {\"index\":{\"_id\":\"2\",\"_index\":\"b\",\"error\":{\"type\":\"version_conflict_engine_exception\"},\"status\":409}},\
        {\"index\":{\"_id\":\"2\",\"_index\":\"b\",\"_seq_no\":1,\"_version\":6,\"result\":\"created\",\"status\":201}}],\"took\":0}",
    ),
];

// No bytes; one delete; and then index actions on the same document with a lower and a higher
// version.
#[test]
fn bodies(rt: HostRuntime) {
    for (body, text) in BODIES {
        assert!(rt; serves_first(&rt, *body, *text));
    }
}

// Whether a fresh index gives these answers to these bodies, one after another, under a script; and
// the highest version afterwards.
fn serves_all(
    rt: &(impl Abort + AllocGlobal),
    script: &mut Script,
    rows: &[Served],
) -> (bool, Option<u64>) {
    let index = fresh(rt);
    let mut good = true;
    for row in rows {
        good = good && serves(rt, index, script, row);
    }
    (good, index.highest())
}

const SCRIPTED: &[Served<'static>] = &[
    (
        "{\"delete\":{\"_id\":\"1\",\"_index\":\"b\",\"version\":1,\"version_type\":\"external\"}}\n\
        {\"delete\":{\"_id\":\"2\",\"_index\":\"b\",\"version\":2,\"version_type\":\"external\"}}\n",
        200,
        "{\"errors\":true,\"items\":[\
        {\"delete\":{\"_id\":\"1\",\"_index\":\"b\",\"_seq_no\":0,\"_version\":1,\"result\":\"not_found\",\"status\":404}},\
        {\"delete\":{\"_id\":\"2\",\"_index\":\"b\",\"error\":{\"type\":\"scripted_refusal\"},\"status\":429}}],\"took\":0}",
    ),
    (
        "{\"delete\":{\"_id\":\"2\",\"_index\":\"b\",\"version\":2,\"version_type\":\"external\"}}\n",
        200,
        "{\"errors\":false,\"items\":[{\"delete\":{\"_id\":\"2\",\"_index\":\"b\",\"_seq_no\":1,\"_version\":2,\"result\":\"not_found\",\"status\":404}}],\"took\":0}",
    ),
];

// A script counts positions over all bodies, and the last status of a position counts.
#[test]
fn scripted(rt: HostRuntime) {
    let mut script = Script::new(rt.alloc());
    script.refuse(2, 503).expect(&rt, "memory");
    script.refuse(2, 429).expect(&rt, "memory");
    assert!(rt; serves_all(&rt, &mut script, SCRIPTED) == (true, Some(2)));
    mem::forget(script);
}

const REJECTED: &[Served<'static>] = &[
    (
        "{\"delete\":{\"_id\":\"1\",\"_index\":\"b\",\"version\":1,\"version_type\":\"external\"}}\n\
        {\"index\":{\"_id\":\"2\",\"_index\":\"b\",\"version\":2,\"version_type\":\"external\"}}\n{\"a\":1}",
        400,
        "{\"error\":{\"line\":3,\"type\":\"NoFinalNewline\"},\"status\":400}",
    ),
    (
        "{\"delete\":{\"_id\":\"\",\"_index\":\"b\",\"version\":1,\"version_type\":\"external\"}}\n",
        400,
        "{\"error\":{\"line\":1,\"type\":\"IdEmpty\"},\"status\":400}",
    ),
    (
        "{\"delete\":{\"_id\":\"1\",\"_index\":\"b\",\"version\":1,\"version_type\":\"external\"}}\n",
        200,
        "{\"errors\":true,\"items\":[{\"delete\":{\"_id\":\"1\",\"_index\":\"b\",\"error\":{\"type\":\"scripted_refusal\"},\"status\":503}}],\"took\":0}",
    ),
];

// A body with a fault runs nothing, not even the writes before the fault, and counts no position.
#[test]
fn rejected_bodies(rt: HostRuntime) {
    let mut script = Script::new(rt.alloc());
    script.refuse(1, 503).expect(&rt, "memory");
    assert!(rt; serves_all(&rt, &mut script, REJECTED) == (true, None));
    mem::forget(script);
}
