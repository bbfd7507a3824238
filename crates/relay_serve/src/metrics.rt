//! What a server counts, in the text format of Prometheus, version 0.0.4.
use crate::board::Board;
use crate::counts::BOUNDS;
use relay_progress::{HIGHEST_STATUS, LOWEST_STATUS};
use relay_words::add_number;
use std::alloc::{AllocError, Global};
use std::time::Instant;

// The lines in front of a metric.
fn add_heading(text: &mut Vec<u8>, name: &str, kind: &str, help: &str) -> Result<(), AllocError> {
    for part in [
        "# HELP ",
        name,
        " ",
        help,
        "\n# TYPE ",
        name,
        " ",
        kind,
        "\n",
    ] {
        text.extend_from_slice(part.as_bytes())?;
    }
    Ok(())
}

// The line of a value.
fn add_value(text: &mut Vec<u8>, name: &str, value: u64) -> Result<(), AllocError> {
    text.extend_from_slice(name.as_bytes())?;
    text.push(b' ')?;
    add_number(text, value)?;
    text.push(b'\n')?;
    Ok(())
}

// A metric with one value.
fn add_single(
    text: &mut Vec<u8>,
    name: &str,
    kind: &str,
    help: &str,
    value: u64,
) -> Result<(), AllocError> {
    add_heading(text, name, kind, help)?;
    add_value(text, name, value)
}

fn add_ends(text: &mut Vec<u8>, board: &Board) -> Result<(), AllocError> {
    add_heading(
        text,
        "relay_operations_total",
        "counter",
        "Operations of requests that were answered, by how they ended.",
    )?;
    let ends = board.counts.ends();
    add_value(
        text,
        "relay_operations_total{end=\"applied\"}",
        ends.applied,
    )?;
    add_value(
        text,
        "relay_operations_total{end=\"already\"}",
        ends.already,
    )?;
    add_value(
        text,
        "relay_operations_total{end=\"reported\"}",
        ends.reported,
    )?;
    add_value(text, "relay_operations_total{end=\"late\"}", ends.late)?;
    add_value(text, "relay_operations_total{end=\"unput\"}", ends.unput)?;
    add_value(text, "relay_operations_total{end=\"gone\"}", ends.gone)
}

// A number of milliseconds, in seconds.
fn add_seconds(text: &mut Vec<u8>, millis: u64) -> Result<(), AllocError> {
    add_number(text, millis / 1_000)?;
    text.push(b'.')?;
    let rest = millis % 1_000;
    for unit in [100, 10, 1] {
        add_number(text, rest / unit % 10)?;
    }
    Ok(())
}

fn add_times(text: &mut Vec<u8>, board: &Board) -> Result<(), AllocError> {
    let name = "relay_request_seconds";
    add_heading(
        text,
        name,
        "histogram",
        "How long requests that write took, from the first put.",
    )?;
    let mut count = 0u64;
    for place in 0..BOUNDS.len() {
        count = count.saturating_add(board.counts.within(place));
        text.extend_from_slice(b"relay_request_seconds_bucket{le=\"")?;
        text.extend_from_slice(BOUNDS[place].1.as_bytes())?;
        add_value(text, "\"}", count)?;
    }
    count = count.saturating_add(board.counts.within(BOUNDS.len()));
    add_value(text, "relay_request_seconds_bucket{le=\"+Inf\"}", count)?;
    text.extend_from_slice(b"relay_request_seconds_sum ")?;
    add_seconds(text, board.counts.took())?;
    text.push(b'\n')?;
    add_value(text, "relay_request_seconds_count", count)
}

// A metric with a number as its label, without its end.
fn add_labelled(text: &mut Vec<u8>, begun: &str, label: u64, value: u64) -> Result<(), AllocError> {
    text.extend_from_slice(begun.as_bytes())?;
    add_number(text, label)?;
    add_value(text, "\"}", value)
}

// How often the index answered with each status that it answered with, and with 200.
fn add_answers(text: &mut Vec<u8>, board: &Board) -> Result<(), AllocError> {
    add_heading(
        text,
        "relay_index_answers_total",
        "counter",
        "Requests that the index answered, by the status of the answer.",
    )?;
    for status in LOWEST_STATUS..=HIGHEST_STATUS {
        let count = board.index.answered_with(status);
        if count > 0 || status == 200 {
            add_labelled(
                text,
                "relay_index_answers_total{status=\"",
                u64::from(status),
                count,
            )?;
        }
    }
    Ok(())
}

// How many operations are open, and for how long.
fn add_open(text: &mut Vec<u8>, board: &Board, now: Option<Instant>) -> Result<(), AllocError> {
    add_heading(
        text,
        "relay_open_operations",
        "gauge",
        "The length of each lane's queue: operations that were put to it and, as far as workers have heard, have not ended.",
    )?;
    for lane in 0..8usize {
        if let Some(count) = board.open(lane) {
            add_labelled(text, "relay_open_operations{lane=\"", lane as u64, count)?;
        }
    }
    add_heading(
        text,
        "relay_oldest_open_seconds",
        "gauge",
        "For how long a worker has had open operations without a break, at most.",
    )?;
    text.extend_from_slice(b"relay_oldest_open_seconds ")?;
    add_seconds(text, board.oldest(now))?;
    text.push(b'\n')?;
    Ok(())
}

// What is known of the index.
fn add_index(text: &mut Vec<u8>, board: &Board) -> Result<(), AllocError> {
    let index = &board.index;
    add_single(
        text,
        "relay_index_up",
        "gauge",
        "Whether the index has answered since an exchange or a try to connect failed last.",
        u64::from(!board.is_down()),
    )?;
    add_single(
        text,
        "relay_index_requests_total",
        "counter",
        "Requests to the index.",
        index.requests(),
    )?;
    add_answers(text, board)?;
    add_single(
        text,
        "relay_index_operations_total",
        "counter",
        "Operations in requests to the index.",
        index.operations(),
    )?;
    add_single(
        text,
        "relay_index_repeats_total",
        "counter",
        "Operations that a request to the index did not settle.",
        index.repeats(),
    )
}

// What is known of requests that were not served, or not written down.
fn add_requests(text: &mut Vec<u8>, board: &Board) -> Result<(), AllocError> {
    add_single(
        text,
        "relay_connections_refused_total",
        "counter",
        "Connections that were closed as soon as they were accepted, since too many were open.",
        board.refused(),
    )?;
    add_single(
        text,
        "relay_open_bytes",
        "gauge",
        "Room that requests have taken which were read and not yet answered, for their bytes beyond the first 16384 of each, in portions of 65536.",
        board.room.open(),
    )?;
    add_single(
        text,
        "relay_requests_refused_total",
        "counter",
        "Requests that were refused with 429, since there was no room for long enough.",
        board.room.refused(),
    )?;
    add_single(
        text,
        "relay_report_failures_total",
        "counter",
        "Requests with operations that were to be added to the file of --report and were not.",
        board.unsaved(),
    )
}

// What is known of answers that are kept, and of those that were given again.
fn add_repeats(text: &mut Vec<u8>, board: &Board) -> Result<(), AllocError> {
    let memory = &board.memory;
    add_single(
        text,
        "relay_requests_repeated_total",
        "counter",
        "Requests that were answered with the answer to an earlier one, whose client had left.",
        memory.repeats(),
    )?;
    add_single(
        text,
        "relay_kept_answers",
        "gauge",
        "Answers that are kept, since their clients had left.",
        memory.kept(),
    )?;
    add_single(
        text,
        "relay_kept_bytes",
        "gauge",
        "Bytes of all answers that were kept in this term, and of their requests.",
        memory.held(),
    )
}

/// The metrics at this moment. `AllocError`: allocation failed.
pub(crate) fn metrics_text(
    alloc: Global,
    board: &Board,
    now: Option<Instant>,
) -> Result<Vec<u8>, AllocError> {
    let mut text = Vec::new(alloc);
    add_ends(&mut text, board)?;
    add_times(&mut text, board)?;
    add_index(&mut text, board)?;
    add_heading(
        &mut text,
        "relay_connections",
        "gauge",
        "Connections of clients.",
    )?;
    add_value(
        &mut text,
        "relay_connections{state=\"waiting\"}",
        board.waiting(),
    )?;
    add_value(
        &mut text,
        "relay_connections{state=\"served\"}",
        board.served(),
    )?;
    add_open(&mut text, board, now)?;
    add_requests(&mut text, board)?;
    add_repeats(&mut text, board)?;
    add_single(
        &mut text,
        "relay_epoch",
        "gauge",
        "The epoch of the versions.",
        board.epoch(),
    )?;
    add_single(
        &mut text,
        "relay_terms_total",
        "counter",
        "Terms that have begun, each in an epoch above the one before.",
        board.terms(),
    )?;
    Ok(text)
}
