//! Lengths of time, as words.
use relay_words::duration_of;

// A word, the unit in milliseconds, and the value.
const WORDS: &[(&str, u64, Option<u64>)] = &[
    ("0", 100, Some(0)),
    ("65536", 100, Some(65_536)),
    ("200ms", 100, Some(2)),
    ("201ms", 100, Some(3)),
    ("0ms", 100, Some(0)),
    ("1s", 100, Some(10)),
    ("2m", 1_000, Some(120)),
    ("168h", 1_000, Some(604_800)),
    ("1ms", 1_000, Some(1)),
    ("007s", 1_000, Some(7)),
    ("18446744073709551615", 1, Some(18_446_744_073_709_551_615)),
    (
        "18446744073709551615ms",
        1,
        Some(18_446_744_073_709_551_615),
    ),
    ("18446744073709551616ms", 1_000, None),
    ("18446744073709551615", 2, None),
    ("18446744073709552s", 1_000, None),
    ("", 100, None),
    ("ms", 100, None),
    ("s", 100, None),
    ("+1s", 100, None),
    ("-1s", 100, None),
    ("1.5s", 100, None),
    ("1 s", 100, None),
    ("1S", 100, None),
    ("1d", 100, None),
    ("1sm", 100, None),
    ("1mss", 100, None),
    ("\u{662}s", 100, None),
];

#[test]
fn lengths_of_time(rt: HostRuntime) {
    for (word, unit, wanted) in WORDS {
        assert!(rt; duration_of(*word, (*unit).max(1)) == *wanted);
    }
}
