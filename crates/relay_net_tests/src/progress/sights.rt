//! What is said of what was seen, and when.
use relay_lane::Loss;
use relay_progress::{Event, NOTHING, Outage, Said, Sight, after, may_say, next_event, noticed};

// Nothing was seen to go wrong.
const CALM: Sight = Sight {
    moment: 0,
    is_down: false,
    reason: Loss::Closed,
    failures: 0,
    requests: 0,
    too_large: 0,
    conflicts: 0,
};

const REFUSED: Sight = Sight {
    moment: 1_000,
    is_down: true,
    reason: Loss::Refused,
    failures: 1,
    requests: 7,
    ..CALM
};

// An address that is down, as was said after a second.
const DOWN: Said = Said {
    outage: Some(Outage {
        since: 1_000,
        requests: 7,
        is_said: true,
    }),
    failures: 1,
    down: Some(1_000),
    ..NOTHING
};

// What was said, what is seen, and what is said of it.
const ROWS: &[(Said, Sight, Option<Event>)] = &[
    (NOTHING, CALM, None),
    (
        NOTHING,
        REFUSED,
        Some(Event::Down {
            reason: Loss::Refused,
        }),
    ),
    // It was over before it was seen.
    (
        NOTHING,
        Sight {
            is_down: false,
            ..REFUSED
        },
        Some(Event::Down {
            reason: Loss::Refused,
        }),
    ),
    (
        DOWN,
        Sight {
            moment: 5_000,
            failures: 4,
            ..REFUSED
        },
        None,
    ),
    (
        DOWN,
        Sight {
            moment: 5_250,
            is_down: false,
            failures: 4,
            requests: 12,
            ..REFUSED
        },
        Some(Event::Up {
            millis: 4_250,
            sends: 5,
        }),
    ),
    // It went down again within ten seconds.
    (
        Said {
            down: Some(1_000),
            failures: 4,
            ..NOTHING
        },
        Sight {
            moment: 10_999,
            failures: 5,
            ..REFUSED
        },
        None,
    ),
    (
        Said {
            down: Some(1_000),
            failures: 4,
            ..NOTHING
        },
        Sight {
            moment: 11_000,
            failures: 5,
            ..REFUSED
        },
        Some(Event::Down {
            reason: Loss::Refused,
        }),
    ),
    (
        NOTHING,
        Sight {
            too_large: 2,
            conflicts: 3,
            ..CALM
        },
        Some(Event::TooLarge),
    ),
    (
        Said {
            too_large: true,
            ..NOTHING
        },
        Sight {
            too_large: 2,
            conflicts: 3,
            ..CALM
        },
        Some(Event::Conflicts { count: 3 }),
    ),
    (
        Said {
            conflicts: 3,
            conflict: Some(0),
            ..NOTHING
        },
        Sight {
            moment: 20_000,
            conflicts: 3,
            ..CALM
        },
        None,
    ),
];

#[test]
fn what_is_said(rt: HostRuntime) {
    for (said, sight, wanted) in ROWS {
        assert!(rt; next_event(&noticed(said, sight), sight) == *wanted);
    }
}

// What was said, once it was said to be down.
fn down() -> Said {
    let said = noticed(&NOTHING, &REFUSED);
    after(
        &said,
        &Event::Down {
            reason: Loss::Refused,
        },
        1_000,
    )
}

#[test]
fn what_was_said(rt: HostRuntime) {
    assert!(rt; down() == DOWN);
    let up = Event::Up {
        millis: 1,
        sends: 1,
    };
    let said = after(&DOWN, &up, 9_000);
    assert!(rt; said.outage == None && said.up == Some(9_000) && said.down == Some(1_000));
    assert!(rt; after(&DOWN, &Event::TooLarge, 5).too_large);
    let said = after(&DOWN, &Event::Conflicts { count: 4 }, 5);
    assert!(rt; said.conflicts == 4 && said.conflict == Some(5));
}

#[test]
fn lines_of_a_kind(rt: HostRuntime) {
    assert!(rt; may_say(None, 0) && may_say(Some(5), 10_005) && !may_say(Some(5), 10_004));
    assert!(rt; !may_say(Some(u64::MAX), u64::MAX));
}
