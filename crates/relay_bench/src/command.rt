//! The command line.
ghost use Rattle.std.specs.Prelude.{◌<◌, ◌≤◌, IfSome};

use crate::fault::BenchFault;
use crate::rate::tenths_each;
use crate::{http, lane, queue, replies, tell};
use std::rt::Env;
use std::sync::Wait;
use std::thread::Threads;
use std::time::Clock;
use std::{env, io};

// The maximum number of messages per sender, and of readings of a reply.
const MOST: u64 = 1_000_000_000;

// A measurement of the queue.
#[derive(Clone, Copy)]
pub(crate) struct QueueTask {
    senders: u32,
    capacity: u32,
    count: u64,
    ghost senders_in_range: { (0 < senders) × (senders ≤ 16) },
    ghost capacity_in_range: { (0 < capacity) × (capacity ≤ 65536) },
    ghost count_in_range: { (0 < count) × (count ≤ 1000000000) },
}

// What a command line asks for.
#[derive(Clone, Copy)]
pub(crate) enum Task {
    Nothing,
    Queue(QueueTask),
    // The same words: lanes, places, and endings of each lane.
    Tell(QueueTask),
    Replies(u64),
    Lane(HeldTask),
    HttpRead(ReadTask),
    HttpWrite(WriteTask),
}

// The number of bytes of a reply that arrive at a time, and how often it is read.
#[derive(Clone, Copy)]
pub(crate) struct ReadTask {
    piece: usize,
    turns: u64,
    ghost piece_in_range: { 0 < piece },
    ghost turns_in_range: { 0 < turns },
}

// The number of writes in a request, the size of each source in bytes, and how often it is written.
#[derive(Clone, Copy)]
pub(crate) struct WriteTask {
    count: u32,
    size: usize,
    turns: u64,
    ghost turns_in_range: { 0 < turns },
}

// The number of operations that the lane holds, and the number of their documents.
#[derive(Clone, Copy)]
pub(crate) struct HeldTask {
    held: u32,
    documents: u32,
    ghost held_in_range: { (0 < held) × (held ≤ 65536) },
    ghost documents_in_range: { 0 < documents },
}

// The number in a word, if it is from 1 to `most`.
fn number_of(word: &str, most: u64) -> Option<u64>
    ensures { IfSome result (λ n. (0 < n) × (n ≤ most)) }
{
    match word.parse::<u64>() {
        Ok(number) if 0 < number && number <= most => Some(number),
        _ => None,
    }
}

// The measurement with these three words.
fn queue_task(senders: &str, capacity: &str, count: &str) -> Option<Task> {
    let senders = number_of(senders, 16)? as u32;
    let capacity = number_of(capacity, 65_536)? as u32;
    let count = number_of(count, MOST)?;
    Some(Task::Queue(QueueTask {
        senders,
        capacity,
        count,
    }))
}

// The telling with these three words.
fn tell_task(lanes: &str, places: &str, count: &str) -> Option<Task> {
    match queue_task(lanes, places, count)? {
        Task::Queue(task) => Some(Task::Tell(task)),
        _ => None,
    }
}

// The lane with these two words.
fn lane_task(held: &str, documents: &str) -> Option<Task> {
    let held = number_of(held, 65_536)? as u32;
    let documents = number_of(documents, 65_536)? as u32;
    Some(Task::Lane(HeldTask { held, documents }))
}

// The readings with these two words.
fn read_task(piece: &str, turns: &str) -> Option<Task> {
    let piece = number_of(piece, MOST)? as usize;
    let turns = number_of(turns, MOST)?;
    Some(Task::HttpRead(ReadTask { piece, turns }))
}

// The requests with these three words.
fn write_task(count: &str, size: &str, turns: &str) -> Option<Task> {
    let count = number_of(count, 10_000)? as u32;
    let size = number_of(size, 1_048_576)? as usize;
    let turns = number_of(turns, MOST)?;
    Some(Task::HttpWrite(WriteTask { count, size, turns }))
}

// What a command line asks for; its first word is the name of the program.
pub(crate) fn task_of(words: &[String]) -> Option<Task> {
    match words {
        [] | [_] => Some(Task::Nothing),
        [_, name, turns] if name.as_str() == "replies" => {
            Some(Task::Replies(number_of(turns.as_str(), MOST)?))
        }
        [_, name, held] if name.as_str() == "lane" => lane_task(held.as_str(), held.as_str()),
        [_, name, held, documents] if name.as_str() == "lane" => {
            lane_task(held.as_str(), documents.as_str())
        }
        [_, name, piece, turns] if name.as_str() == "http-read" => {
            read_task(piece.as_str(), turns.as_str())
        }
        [_, name, count, size, turns] if name.as_str() == "http-write" => {
            write_task(count.as_str(), size.as_str(), turns.as_str())
        }
        [_, name, senders, capacity, count] if name.as_str() == "queue" => {
            queue_task(senders.as_str(), capacity.as_str(), count.as_str())
        }
        [_, name, lanes, places, count] if name.as_str() == "tell" => {
            tell_task(lanes.as_str(), places.as_str(), count.as_str())
        }
        _ => None,
    }
}

// Measures the queue, and prints the time per message.
fn run_queue<R: Threads + Wait + Clock + Print + AllocGlobal + Copy + Send + 'static>(
    rt: R,
    task: QueueTask,
) -> Result<(), BenchFault> {
    let QueueTask {
        senders,
        capacity,
        count,
    } = task;
    let nanoseconds = queue::measure(rt, rt.alloc(), senders, capacity, count)?;
    let messages = senders as u64 * (count + 1);
    let tenths = tenths_each(nanoseconds, messages);
    println!(rt;
        "{messages} messages in order, {}.{} ns a message",
        tenths / 10,
        tenths % 10
    )?;
    Ok(())
}

// Measures telling, and prints the time per notice.
fn run_tell<R: Threads + Wait + Clock + Print + AllocGlobal + Copy + Send + 'static>(
    rt: R,
    task: QueueTask,
) -> Result<(), BenchFault> {
    let QueueTask {
        senders,
        capacity,
        count,
    } = task;
    let nanoseconds = tell::measure(rt, rt.alloc(), senders, capacity, count)?;
    let notices = senders as u64 * (count + 1);
    let tenths = tenths_each(nanoseconds, notices);
    println!(rt;
        "{notices} notices in order, {}.{} ns a notice",
        tenths / 10,
        tenths % 10
    )?;
    Ok(())
}

// Measures reading the reply on standard input, and prints the time per item.
fn run_replies<R: Clock + Input + Print + AllocGlobal>(
    rt: &R,
    turns: u64,
) -> Result<(), BenchFault> {
    let body = io::read_to_string(rt.alloc(), rt.reader())?;
    let readings = replies::measure(rt, rt.alloc(), body.as_bytes(), turns)?;
    let items = readings.items.saturating_mul(turns);
    if items == 0 {
        return Err(BenchFault::NoItems);
    }
    let tenths = tenths_each(readings.nanoseconds, items);
    println!(rt;
        "{} items, {} errors, statuses {}, {}.{} ns an item",
        readings.items,
        readings.errors,
        readings.statuses,
        tenths / 10,
        tenths % 10
    )?;
    Ok(())
}

// Measures a lane, and prints the time per operation for taking it, for a request and for its
// reply, and the time of one query for the first due tick.
fn run_lane<R: Clock + Print + AllocGlobal>(rt: &R, task: HeldTask) -> Result<(), BenchFault> {
    let HeldTask { held, documents } = task;
    let times = lane::measure(rt, rt.alloc(), held, documents)?;
    if times.sent == 0 {
        return Err(BenchFault::Lane);
    }
    let take = tenths_each(times.take, held as u64);
    let request = tenths_each(times.request, times.sent as u64);
    let reply = tenths_each(times.reply, times.sent as u64);
    println!(rt;
        "{held} held, {} sent, take {}.{}, request {}.{}, reply {}.{} ns an operation, due {} ns",
        times.sent,
        take / 10,
        take % 10,
        request / 10,
        request % 10,
        reply / 10,
        reply % 10,
        times.due
    )?;
    Ok(())
}

// Measures reading the HTTP reply on standard input, and prints the time per reading.
fn run_http_read<R: Clock + Input + Print + AllocGlobal>(
    rt: &R,
    task: ReadTask,
) -> Result<(), BenchFault> {
    let ReadTask { piece, turns } = task;
    let bytes = io::read_to_string(rt.alloc(), rt.reader())?;
    let read = http::measure_read(rt, rt.alloc(), bytes.as_bytes(), piece, turns)?;
    let tenths = tenths_each(read.nanoseconds, turns);
    println!(rt;
        "status {}, {} bytes, {}.{} ns a reading",
        read.status,
        read.bytes,
        tenths / 10,
        tenths % 10
    )?;
    Ok(())
}

// Measures writing a request, and prints the time per request.
fn run_http_write<R: Clock + Print + AllocGlobal>(
    rt: &R,
    task: WriteTask,
) -> Result<(), BenchFault> {
    let WriteTask { count, size, turns } = task;
    let (bytes, nanoseconds) = http::measure_write(rt, rt.alloc(), count, size, turns)?;
    let tenths = tenths_each(nanoseconds, turns);
    println!(rt;
        "{count} writes, {bytes} bytes, {}.{} ns a request",
        tenths / 10,
        tenths % 10
    )?;
    Ok(())
}

/// Runs what the command line of the process asks for.
pub fn run<R>(rt: R) -> Result<(), BenchFault>
where
    R: Threads + Wait + Clock + Input + Print + Env + AllocGlobal + Copy + Send + 'static,
{
    let words: Vec<String> = env::args(&rt)?.collect(rt.alloc())?;
    match task_of(words.as_slice()) {
        Some(Task::Nothing) => Ok(()),
        Some(Task::Queue(task)) => run_queue(rt, task),
        Some(Task::Tell(task)) => run_tell(rt, task),
        Some(Task::Replies(turns)) => run_replies(&rt, turns),
        Some(Task::Lane(task)) => run_lane(&rt, task),
        Some(Task::HttpRead(task)) => run_http_read(&rt, task),
        Some(Task::HttpWrite(task)) => run_http_write(&rt, task),
        None => Err(BenchFault::Usage),
    }
}
