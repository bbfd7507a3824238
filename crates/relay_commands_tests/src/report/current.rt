//! Which of the named operations are current.
use relay_action::MemStream;
use relay_ndjson::{InputFault, LineKind};
use relay_report::{InputEnd, Kept, Named, current_names};
use std::process::Abort;

const FIRST: &[u8] =
    b"{\"delete\":{\"_id\":\"1\"}}\n{\"index\":{\"_id\":\"2\"}}\n{}\n\n{\"delete\":{\"_id\":\"1\"}}\n";

const SECOND: &[u8] =
    b"{\"delete\":{\"_id\":\"2\",\"_index\":\"other\"}}\n{\"delete\":{\"_id\":\"1\",\"_index\":\"b\"}}\n{\"delete\":{\"_id\":\"1\"}}\nx\n";

// A producer and a number.
type Place = (u32, u64);

fn names_of(rt: &(impl Abort + AllocGlobal), places: &[Place]) -> Vec<Named> {
    let mut names = Vec::new(rt.alloc());
    for (producer, number) in places {
        let name = Named {
            producer: *producer,
            number: *number,
            line: *number,
        };
        names.push(name).expect(rt, "memory");
    }
    names
}

// A text in pieces; if `fails` is not 0, this read of it fails.
fn stream_of(rt: &(impl Abort + AllocGlobal), text: &[u8], piece: usize, fails: u64) -> MemStream {
    let text = text.to_vec(rt.alloc()).expect(rt, "memory");
    MemStream::new(rt.alloc(), text, 0, piece.max(1), fails).expect(rt, "memory")
}

// What is current of the two inputs in pieces; if `fails` is not 0, this read of the second one
// fails.
fn kept_of(rt: &(impl Abort + AllocGlobal), places: &[Place], piece: usize, fails: u64) -> Kept {
    let names = names_of(rt, places);
    let mut inputs = Vec::new(rt.alloc());
    inputs
        .push(stream_of(rt, FIRST, piece, 0))
        .expect(rt, "memory");
    inputs
        .push(stream_of(rt, SECOND, piece, fails))
        .expect(rt, "memory");
    current_names(rt.alloc(), &names, inputs, Some("b")).expect(rt, "memory")
}

// What is named, what is current, and how many are found.
type Row = (&'static [Place], &'static [Place], usize);

const ROWS: &[Row] = &[
    (&[], &[], 0),
    (&[(0, 1)], &[], 1),
    (&[(0, 3), (0, 1)], &[], 2),
    (&[(0, 2)], &[(0, 2)], 1),
    (&[(1, 1), (0, 2), (0, 2)], &[(0, 2), (1, 1)], 2),
    (&[(1, 3), (0, 1)], &[(1, 3)], 2),
    (&[(1, 3), (1, 2), (0, 1)], &[(1, 2), (1, 3)], 3),
    (
        &[(1, 3), (1, 2), (0, 1), (0, 3), (2, 1), (0, 9), (0, 0)],
        &[(0, 1), (0, 3), (1, 2), (1, 3)],
        4,
    ),
];

// How far the second input is read.
const SECOND_END: InputEnd = InputEnd {
    count: 3,
    fault: Some(InputFault {
        line: 4,
        kind: LineKind::NotJson,
    }),
};

// How far the first input is read.
const FIRST_END: InputEnd = InputEnd {
    count: 3,
    fault: None,
};

fn is_kept(rt: &(impl Abort + AllocGlobal), row: &Row, piece: usize) -> bool {
    let (places, current, found) = *row;
    let kept = kept_of(rt, places, piece, 0);
    kept.names == names_of(rt, current)
        && kept.found == found
        && kept.ends.as_slice() == [FIRST_END, SECOND_END].as_slice()
}

#[test]
fn current_names_of_inputs(rt: HostRuntime) {
    for row in ROWS {
        for piece in [1usize, 7, 1000] {
            assert!(rt; is_kept(&rt, row, piece));
        }
    }
}

// If a read of the second input fails, it is read to there.
#[test]
fn reads_that_fail(rt: HostRuntime) {
    let failed = InputEnd {
        count: 0,
        fault: Some(InputFault {
            line: 1,
            kind: LineKind::Read,
        }),
    };
    let kept = kept_of(&rt, &[(0, 1)], 50, 1);
    assert!(rt; kept.ends.last() == Some(&failed));
}
