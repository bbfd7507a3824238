//! Reading and writing replies, matching, and verdicts.
use crate::writes::write_of;
use relay_action::{ActionKind, DocKey, Write};
use relay_results::{
    DoneResult, ItemDone, ItemVerdict, Outcome, ReplyFault, matches, read_reply, verdict,
    write_reply,
};
use std::alloc::Global;
use std::mem;
use std::process::Abort;

// Whether a reply has this fault.
fn has_fault(alloc: Global, text: &[u8], fault: ReplyFault) -> bool {
    read_reply(alloc, text).err() == Some(fault)
}

// Whether an entry has an error of this type.
fn has_error(outcome: &Outcome, error: Option<&str>) -> bool {
    match (&outcome.error, error) {
        (Some(found), Some(wanted)) => found.detail().kind.as_str() == wanted,
        (None, None) => true,
        _ => false,
    }
}

// Whether an entry is of this action and document, with this status and error.
fn is_entry(
    outcome: &Outcome,
    kind: ActionKind,
    id: &str,
    status: u16,
    error: Option<&str>,
) -> bool {
    outcome.kind == kind
        && outcome.id.as_str() == id
        && outcome.status == status
        && has_error(outcome, error)
}

// The entries of a reply.
fn entries_of(rt: &(impl Abort + AllocGlobal), text: &str) -> Vec<Outcome> {
    read_reply(rt.alloc(), text.as_bytes()).expect(rt, "a reply")
}

// Whether a reply matches a request.
fn fits(rt: &(impl Abort + AllocGlobal), text: &str, request: &[Write]) -> bool {
    matches(&entries_of(rt, text), request)
}

const FAULTS: &[(&[u8], ReplyFault)] = &[
    (b"", ReplyFault::NotJson),
    (b"{\"items\":[{\"index\":{\"_id\":\"1", ReplyFault::NotJson),
    (b"\xff", ReplyFault::NotJson),
    (b"{\"items\":[]} x", ReplyFault::NotJson),
    (b"{\"took\":1e999,\"items\":[]}", ReplyFault::NotJson),
    (b"[]", ReplyFault::NoItems),
    (b"{}", ReplyFault::NoItems),
    (b"{\"items\":3}", ReplyFault::NoItems),
    (b"{\"items\":{}}", ReplyFault::NoItems),
    (b"{\"items\":[],\"items\":null}", ReplyFault::NoItems),
    (
        b"{\"items\":[{\"index\":{\"_id\":5,\"status\":201}}]}",
        ReplyFault::BadItem(0),
    ),
    (
        b"{\"items\":[{\"index\":{\"_id\":\"1\"}}]}",
        ReplyFault::BadItem(0),
    ),
    (
        b"{\"items\":[{\"index\":{\"status\":201}}]}",
        ReplyFault::BadItem(0),
    ),
    (
        b"{\"items\":[{\"create\":{\"_id\":\"1\",\"status\":201}}]}",
        ReplyFault::BadItem(0),
    ),
    (b"{\"items\":[{\"index\":201}]}", ReplyFault::BadItem(0)),
    (b"{\"items\":[{}]}", ReplyFault::BadItem(0)),
    (b"{\"items\":[7]}", ReplyFault::BadItem(0)),
    (
        b"{\"items\":[{\"index\":{\"_id\":\"1\",\"status\":201},\"delete\":{\"_id\":\"1\",\"status\":200}}]}",
        ReplyFault::BadItem(0),
    ),
    (
        b"{\"items\":[{\"delete\":{\"_id\":\"1\",\"status\":100}},{\"index\":{\"_id\":\"1\",\"status\":99}}]}",
        ReplyFault::BadItem(1),
    ),
    (
        b"{\"items\":[{\"delete\":{\"_id\":\"1\",\"status\":599}},{\"index\":{\"_id\":\"1\",\"status\":600}}]}",
        ReplyFault::BadItem(1),
    ),
    (
        b"{\"items\":[{\"index\":{\"_id\":\"1\",\"status\":201.0}}]}",
        ReplyFault::BadItem(0),
    ),
    (
        b"{\"items\":[{\"index\":{\"_id\":\"1\",\"status\":-1}}]}",
        ReplyFault::BadItem(0),
    ),
    (
        b"{\"items\":[{\"index\":{\"_id\":\"1\",\"status\":\"201\"}}]}",
        ReplyFault::BadItem(0),
    ),
    (
        b"{\"items\":[{\"index\":{\"_id\":\"1\",\"status\":201,\"status\":null}},5]}",
        ReplyFault::BadItem(0),
    ),
];

#[test]
fn faults(rt: HostRuntime) {
    for (text, fault) in FAULTS {
        assert!(rt; has_fault(rt.alloc(), *text, *fault));
    }
}

// A front, how many nested arrays follow it, a back, and the fault of that reply.
const DEPTHS: &[(&str, usize, &str, Option<ReplyFault>)] = &[
    ("{\"items\":[],\"x\":", 126, "}", None),
    ("{\"items\":[],\"x\":", 127, "}", Some(ReplyFault::NotJson)),
    ("{\"items\":", 126, "}", Some(ReplyFault::BadItem(0))),
    ("{\"items\":", 127, "}", Some(ReplyFault::NotJson)),
    ("", 127, "", Some(ReplyFault::NoItems)),
    ("", 128, "", Some(ReplyFault::NotJson)),
];

// The fault of a reply of nested arrays, this many, between a front and a back.
fn fault_of_nested(
    rt: &(impl Abort + AllocGlobal),
    front: &str,
    count: usize,
    back: &str,
) -> Option<ReplyFault> {
    let open = "[".repeat(rt.alloc(), count).expect(rt, "memory");
    let close = "]".repeat(rt.alloc(), count).expect(rt, "memory");
    let text = [front, open.as_str(), close.as_str(), back]
        .concat(rt.alloc())
        .expect(rt, "memory");
    read_reply(rt.alloc(), text.as_bytes()).err()
}

// JSON is nested at most 127 deep, even in a member that is not looked at.
#[test]
fn depth(rt: HostRuntime) {
    for (front, count, back, fault) in DEPTHS {
        assert!(rt; fault_of_nested(&rt, *front, *count, *back) == *fault);
    }
}

const ENTRIES: &[(&str, u16, Option<&str>, bool)] = &[
    (
        "{\"items\":[{\"index\":{\"_id\":\"1\",\"status\":201}}]}",
        201,
        None,
        true,
    ),
    (
        "{\"items\":[{\"index\":{\"_id\":\"2\",\"status\":201}}]}",
        201,
        None,
        false,
    ),
    (
        "{\"items\":[{\"delete\":{\"_id\":\"1\",\"status\":200}}]}",
        200,
        None,
        false,
    ),
    (
        "{\"items\":[{\"index\":{\"_id\":\"1\",\"status\":200,\"error\":null}}]}",
        200,
        None,
        true,
    ),
    (
        "{\"items\":[{\"index\":{\"_id\":\"1\",\"status\":400,\"error\":\"x\"}}]}",
        400,
        Some(""),
        true,
    ),
    (
        "{\"items\":[{\"index\":{\"_id\":\"1\",\"status\":400,\"error\":{}}}]}",
        400,
        Some(""),
        true,
    ),
    (
        "{\"items\":[{\"index\":{\"_id\":\"1\",\"status\":400,\"error\":{\"type\":7}}}]}",
        400,
        Some(""),
        true,
    ),
    (
        "{\"items\":[{\"index\":{\"_id\":\"1\",\"status\":400,\"error\":{\"type\":\"aaaaaaaaaaaaaaaaaaaaaaaaaaaaaaaaaaaaaaaaaaaaaaaaaaaaaaaaaaaaaaa\u{e9}\"}}}]}",
        400,
        Some("aaaaaaaaaaaaaaaaaaaaaaaaaaaaaaaaaaaaaaaaaaaaaaaaaaaaaaaaaaaaaaa"),
        true,
    ),
    (
        "{\"items\":[{\"index\":{\"_id\":\"1\",\"status\":400,\"error\":{\"type\":\"aaaaaaaaaaaaaaaaaaaaaaaaaaaaaaaaaaaaaaaaaaaaaaaaaaaaaaaaaaaaaa\u{e9}b\"}}}]}",
        400,
        Some("aaaaaaaaaaaaaaaaaaaaaaaaaaaaaaaaaaaaaaaaaaaaaaaaaaaaaaaaaaaaaa\u{e9}"),
        true,
    ),
    (
        "{\"items\":3,\"items\":[{\"index\":{\"_id\":\"2\",\"_id\":\"1\",\"status\":99,\"status\":201}}]}",
        201,
        None,
        true,
    ),
];

// Whether this is one entry, with this status and error.
fn is_one(outcomes: &[Outcome], status: u16, error: Option<&str>) -> bool {
    match outcomes {
        [one] => one.status == status && has_error(one, error),
        _ => false,
    }
}

// Whether a reply has such an entry, and matches a request if it should.
fn says_one(
    rt: &(impl Abort + AllocGlobal),
    text: &str,
    status: u16,
    error: Option<&str>,
    request: &[Write],
    fit: bool,
) -> bool {
    let outcomes = entries_of(rt, text);
    is_one(&outcomes, status, error) & (matches(&outcomes, request) == fit)
}

// The content of a single entry, and whether the reply matches an index write of id `1`.
#[test]
fn entries(rt: HostRuntime) {
    let request = [write_of(&rt, "b", "1", 1, Some("{}"))];
    for (text, status, error, fit) in ENTRIES {
        assert!(rt; says_one(&rt, *text, *status, *error, &request, *fit));
    }
}

// An entry: its action, its document, its status and its error.
type Entry = (ActionKind, &'static str, u16, Option<&'static str>);

fn are_entries(outcomes: &[Outcome], wanted: &[Entry]) -> bool {
    for (outcome, (kind, id, status, error)) in outcomes.iter().zip(wanted) {
        if !is_entry(outcome, *kind, *id, *status, *error) {
            return false;
        }
    }
    outcomes.len() == wanted.len()
}

// Whether a reply has these entries.
fn has_entries(rt: &(impl Abort + AllocGlobal), text: &str, wanted: &[Entry]) -> bool {
    are_entries(&entries_of(rt, text), wanted)
}

// A reply in the usual form to a delete of the document 1, in five parts.
const USUAL: [&str; 5] = [
    "{\"took\":1,\"errors\":false,\"items\":[",
    "{\"delete\":{\"_index\":\"b\",\"_id\":\"1\",",
    "\"_version\":1,\"result\":\"deleted\",\"_shards\":{\"total\":2,\"successful\":1,\"failed\":0},",
    "\"_seq_no\":0,\"_primary_term\":1,\"status\":200}}",
    "]}",
];

// What it says: a delete of the document 1 with status 200 and no error.
const DELETION: &[Entry] = &[(ActionKind::Delete, "1", 200, None)];

// The position of a part, its replacement, and the fault of that reply.
const FORMS: &[(usize, &str, Option<ReplyFault>)] = &[
    (4, "]}", None),
    (
        1,
        "{\"delete\":{\"_index\":\"b\",\"_type\":\"_doc\",\"_id\":\"1\",",
        None,
    ),
    (0, "{\"took\":1,\"errors\":true,\"items\":[", None),
    (0, "{\"took\":1, \"errors\":false,\"items\":[", None),
    (0, "{\"errors\":false,\"took\":1,\"items\":[", None),
    (
        1,
        "{\"delete\":{\"_index\":\"\u{e4}\",\"_id\":\"\\u0031\",",
        None,
    ),
    (2, "\"result\":\"\\n\",", None),
    (2, "\"_version\":1e2,", None),
    (4, "]} ", None),
    (4, "],\"ingest_took\":5}", None),
    (
        3,
        "\"_seq_no\":0,\"_primary_term\":1,\"status\":200,\"x\":1}}",
        None,
    ),
    (
        3,
        "\"_seq_no\":0,\"_primary_term\":1,\"status\":99}}",
        Some(ReplyFault::BadItem(0)),
    ),
    (
        3,
        "\"_seq_no\":0,\"_primary_term\":1,\"status\":600}}",
        Some(ReplyFault::BadItem(0)),
    ),
    (
        3,
        "\"_seq_no\":00,\"_primary_term\":1,\"status\":200}}",
        Some(ReplyFault::NotJson),
    ),
    (4, "]", Some(ReplyFault::NotJson)),
    (4, ",]}", Some(ReplyFault::NotJson)),
];

// Whether a reply with that part has this fault, or else that entry.
fn is_read(
    rt: &(impl Abort + AllocGlobal),
    place: usize,
    part: &str,
    fault: Option<ReplyFault>,
) -> bool {
    let mut parts = USUAL;
    *parts.get_mut(place).expect(rt, "a part") = part;
    let text = parts.concat(rt.alloc()).expect(rt, "memory");
    match fault {
        Some(fault) => has_fault(rt.alloc(), text.as_bytes(), fault),
        None => has_entries(rt, text.as_str(), DELETION),
    }
}

// The outcome of a delete in a reply in the usual form, and the same in one in another form; a
// fault is found in both.
#[test]
fn forms_of_replies(rt: HostRuntime) {
    for (place, part, fault) in FORMS {
        assert!(rt; is_read(&rt, *place, *part, *fault));
    }
}

// All entries of a reply in the usual form, in order.
#[test]
fn entries_in_the_usual_form(rt: HostRuntime) {
    let text = "{\"took\":7,\"errors\":false,\"items\":[\
        {\"index\":{\"_index\":\"b\",\"_id\":\"1\",\"_version\":5,\"result\":\"created\",\
        \"_shards\":{\"total\":2,\"successful\":1,\"failed\":0},\"_seq_no\":0,\"_primary_term\":1,\"status\":201}},\
        {\"delete\":{\"_index\":\"b\",\"_id\":\"2\",\"_version\":6,\"result\":\"not_found\",\
        \"_shards\":{\"total\":2,\"successful\":2,\"failed\":0},\"_seq_no\":10,\"_primary_term\":1,\"status\":404}},\
        {\"index\":{\"_index\":\"c\",\"_type\":\"_doc\",\"_id\":\"3\",\"_version\":12345678901,\"result\":\"updated\",\
        \"_shards\":{\"total\":2,\"successful\":1,\"failed\":1},\"_seq_no\":11,\"_primary_term\":3,\"status\":200}}]}";
    let wanted = [
        (ActionKind::Index, "1", 201, None),
        (ActionKind::Delete, "2", 404, None),
        (ActionKind::Index, "3", 200, None),
    ];
    assert!(rt; has_entries(&rt, text, &wanted));
}

// A reply with the members that an OpenSearch node sends.
#[test]
fn reply_of_a_node(rt: HostRuntime) {
    let text = "{\"took\":30,\"errors\":true,\"items\":[\
        {\"index\":{\"_index\":\"b\",\"_id\":\"1\",\"_version\":5,\"result\":\"created\",\"forced_refresh\":true,\
        \"_shards\":{\"total\":2,\"successful\":1,\"failed\":0},\"_seq_no\":0,\"_primary_term\":1,\"status\":201}},\
        {\"delete\":{\"_index\":\"b\",\"_id\":\"2\",\"status\":409,\"error\":{\"type\":\"version_conflict_engine_exception\",\
        \"reason\":\"[2]: version conflict, current version [7] is higher or equal to the one provided [6]\",\
        \"index\":\"b\",\"shard\":\"0\",\"index_uuid\":\"q0xC1mVJTA\"}}},\
        {\"index\":{\"_index\":\"b\",\"_id\":\"3\",\"status\":400,\"error\":{\"type\":\"mapper_parsing_exception\",\
        \"reason\":\"failed to parse\",\"caused_by\":{\"type\":\"illegal_argument_exception\",\"reason\":\"no\"}}}}]}";
    let conflict = Some("version_conflict_engine_exception");
    let mapping = Some("mapper_parsing_exception");
    let wanted = [
        (ActionKind::Index, "1", 201, None),
        (ActionKind::Delete, "2", 409, conflict),
        (ActionKind::Index, "3", 400, mapping),
    ];
    assert!(rt; has_entries(&rt, text, &wanted));
}

// A reply, and whether it matches an index write of id `1` and a delete of id `2`.
const MATCHES: &[(&str, bool)] = &[
    ("{\"items\":[]}", false),
    (
        "{\"items\":[{\"index\":{\"_id\":\"1\",\"status\":400}},{\"delete\":{\"_id\":\"2\",\"status\":404}}]}",
        true,
    ),
    (
        "{\"items\":[{\"delete\":{\"_id\":\"2\",\"status\":404}},{\"index\":{\"_id\":\"1\",\"status\":400}}]}",
        false,
    ),
    (
        "{\"items\":[{\"index\":{\"_id\":\"1\",\"status\":400}}]}",
        false,
    ),
    (
        "{\"items\":[{\"index\":{\"_id\":\"1\",\"status\":400}},{\"index\":{\"_id\":\"2\",\"status\":404}}]}",
        false,
    ),
    (
        "{\"items\":[{\"index\":{\"_id\":\"1\",\"status\":400}},{\"delete\":{\"_id\":\"22\",\"status\":404}}]}",
        false,
    ),
    (
        "{\"items\":[{\"index\":{\"_id\":\"1\",\"status\":400}},{\"delete\":{\"_id\":\"2\",\"status\":404}},{\"delete\":{\"_id\":\"2\",\"status\":404}}]}",
        false,
    ),
];

#[test]
fn matching(rt: HostRuntime) {
    let writes = [
        write_of(&rt, "b", "1", 1, Some("{}")),
        write_of(&rt, "b", "2", 1, None),
    ];
    for (text, wanted) in MATCHES {
        assert!(rt; fits(&rt, *text, &writes) == *wanted);
    }
    assert!(rt; matches(&[], &[]));
}

// A kind, a status, whether there is an error, the sends, the attempts and their maximum, and the
// verdict, for an error that states no stored version.
const VERDICTS: &[(ActionKind, u16, bool, u32, u32, u32, ItemVerdict)] = &[
    (ActionKind::Index, 200, false, 1, 1, 3, ItemVerdict::Applied),
    (ActionKind::Index, 299, false, 5, 5, 3, ItemVerdict::Applied),
    (ActionKind::Index, 199, false, 1, 1, 3, ItemVerdict::Refused),
    (ActionKind::Index, 300, false, 1, 1, 3, ItemVerdict::Refused),
    (ActionKind::Index, 201, true, 1, 1, 3, ItemVerdict::Refused),
    (
        ActionKind::Delete,
        404,
        false,
        1,
        1,
        3,
        ItemVerdict::Applied,
    ),
    (ActionKind::Delete, 404, true, 1, 1, 3, ItemVerdict::Refused),
    (ActionKind::Index, 404, false, 1, 1, 3, ItemVerdict::Refused),
    (ActionKind::Index, 409, true, 1, 1, 3, ItemVerdict::Conflict),
    (ActionKind::Index, 409, true, 2, 1, 3, ItemVerdict::Already),
    (
        ActionKind::Delete,
        409,
        false,
        2,
        2,
        3,
        ItemVerdict::Already,
    ),
    (ActionKind::Index, 429, true, 1, 2, 3, ItemVerdict::Retry),
    (ActionKind::Index, 429, true, 3, 3, 3, ItemVerdict::GaveUp),
    (ActionKind::Index, 503, true, 9, 2, 3, ItemVerdict::Retry),
    (ActionKind::Index, 503, false, 9, 4, 3, ItemVerdict::GaveUp),
    (ActionKind::Index, 413, true, 1, 1, 3, ItemVerdict::Refused),
    (ActionKind::Index, 400, true, 1, 1, 3, ItemVerdict::Refused),
    (ActionKind::Index, 502, true, 1, 1, 3, ItemVerdict::Refused),
];

#[test]
fn verdicts(rt: HostRuntime) {
    for (kind, status, has_error, sends, attempts, max, wanted) in VERDICTS {
        assert!(rt; verdict(*kind, *status, *has_error, true, *sends, *attempts, *max) == *wanted);
    }
}

// A status, the sends, and the verdict on an error that states another version than the
// operation's own.
const OTHER_STORED: &[(u16, u32, ItemVerdict)] = &[
    (409, 1, ItemVerdict::Conflict),
    (409, 2, ItemVerdict::Conflict),
    (409, 9, ItemVerdict::Conflict),
    (400, 2, ItemVerdict::Refused),
    (429, 2, ItemVerdict::Retry),
];

#[test]
fn verdicts_on_another_version(rt: HostRuntime) {
    for (status, sends, wanted) in OTHER_STORED {
        assert!(rt; verdict(ActionKind::Index, *status, true, false, *sends, 1, 3) == *wanted);
    }
}

// The result of an item of `b/2`.
fn item(
    rt: &(impl Abort + AllocGlobal),
    kind: ActionKind,
    status: u16,
    became: DoneResult,
    version: u64,
    seq: u64,
) -> ItemDone {
    ItemDone {
        key: DocKey::new(rt.alloc(), "b", "2").expect(rt, "a key"),
        kind,
        status,
        result: became,
        version,
        seq,
        conflict: None,
    }
}

// Whether the reply to these items is this text.
fn is_written(
    rt: &(impl Abort + AllocGlobal),
    took: u64,
    items: &[ItemDone],
    wanted: &str,
) -> bool {
    let text = write_reply(rt.alloc(), took, items).expect(rt, "memory");
    text.as_str() == wanted
}

// Replies to no item, to the first of six, and to all of them, one for each result.
#[test]
fn written_replies(rt: HostRuntime) {
    let items = [
        item(&rt, ActionKind::Delete, 404, DoneResult::NotFound, 5, 0),
        item(&rt, ActionKind::Index, 409, DoneResult::Conflict, 0, 0),
        item(&rt, ActionKind::Index, 201, DoneResult::Created, 6, 1),
        item(&rt, ActionKind::Index, 200, DoneResult::Updated, 7, 2),
        item(&rt, ActionKind::Delete, 200, DoneResult::Deleted, 8, 3),
        item(&rt, ActionKind::Delete, 429, DoneResult::Refused, 0, 0),
    ];
    let none = "{\"errors\":false,\"items\":[],\"took\":7}";
    let first =
        "{\"errors\":false,\"items\":[{\"delete\":{\"_id\":\"2\",\"_index\":\"b\",\"_seq_no\":0,\"_version\":5,\"result\":\"not_found\",\"status\":404}}],\"took\":0}";
    let all = "{\"errors\":true,\"items\":[\
        {\"delete\":{\"_id\":\"2\",\"_index\":\"b\",\"_seq_no\":0,\"_version\":5,\"result\":\"not_found\",\"status\":404}},\
        {\"index\":{\"_id\":\"2\",\"_index\":\"b\",\"error\":{\"type\":\"version_conflict_engine_exception\"},\"status\":409}},\
        {\"index\":{\"_id\":\"2\",\"_index\":\"b\",\"_seq_no\":1,\"_version\":6,\"result\":\"created\",\"status\":201}},\
        {\"index\":{\"_id\":\"2\",\"_index\":\"b\",\"_seq_no\":2,\"_version\":7,\"result\":\"updated\",\"status\":200}},\
        {\"delete\":{\"_id\":\"2\",\"_index\":\"b\",\"_seq_no\":3,\"_version\":8,\"result\":\"deleted\",\"status\":200}},\
        {\"delete\":{\"_id\":\"2\",\"_index\":\"b\",\"error\":{\"type\":\"scripted_refusal\"},\"status\":429}}],\"took\":0}";
    assert!(rt;
        is_written(&rt, 7, &[], none)
            && is_written(&rt, 0, &items[..1], first)
            && is_written(&rt, 0, &items, all)
    );
    mem::forget(items);
}
