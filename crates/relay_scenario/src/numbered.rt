//! Events with a word and numbers.
ghost use Rattle.std.specs.Prelude.{◌≡◌};
ghost use Rattle.relay_world.specs.declared.event.Event.TheVariants as event;
ghost use Rattle.relay_scenario.specs.Events.{close_of, event_of, lost_of, of_lane, only_lane};
ghost use Rattle.relay_scenario.specs.Events.{reply_of, restart_of, run_of, whole_of};

use relay_action::List;
use relay_index::Choice;
use relay_world::Event;

/// The event with this word and these numbers, if there is one.
pub fn event_of(word: &str, numbers: Vec<u64>) -> Option<Event>
    ensures { result ≡ event_of word.now numbers.items }
{
    match word {
        "close" => close_of(numbers.as_slice()),
        "tick" => tick_of(numbers.as_slice()),
        "flush" => flush_of(numbers.as_slice()),
        "take" => take_of(numbers.as_slice()),
        "send" => send_of(numbers.as_slice()),
        "run" => run_of(numbers.as_slice()),
        "reply" => reply_of(numbers),
        "whole" => whole_of(numbers.as_slice()),
        "lost" => lost_of(numbers.as_slice()),
        "restart" => restart_of(numbers.as_slice()),
        _ => None,
    }
}

fn close_of(numbers: &[u64]) -> Option<Event>
    ensures { result ≡ close_of numbers.now }
{
    match numbers {
        [sender, lane] => match (u32::try_from(*sender), u32::try_from(*lane)) {
            (Ok(sender), Ok(lane)) => Some(Event::Close(sender, lane)),
            _ => None,
        },
        _ => None,
    }
}

// The lane, if there is just one number, of 32 bits.
fn lane_of(numbers: &[u64]) -> Option<u32>
    ensures { result ≡ only_lane numbers.now }
{
    match numbers {
        [lane] => u32::try_from(*lane).ok(),
        _ => None,
    }
}

fn tick_of(numbers: &[u64]) -> Option<Event>
    ensures { result ≡ of_lane event.Tick numbers.now }
{
    Some(Event::Tick(lane_of(numbers)?))
}

fn flush_of(numbers: &[u64]) -> Option<Event>
    ensures { result ≡ of_lane event.Flush numbers.now }
{
    Some(Event::Flush(lane_of(numbers)?))
}

fn take_of(numbers: &[u64]) -> Option<Event>
    ensures { result ≡ of_lane event.Take numbers.now }
{
    Some(Event::Take(lane_of(numbers)?))
}

fn send_of(numbers: &[u64]) -> Option<Event>
    ensures { result ≡ of_lane event.Send numbers.now }
{
    Some(Event::Send(lane_of(numbers)?))
}

fn run_of(numbers: &[u64]) -> Option<Event>
    ensures { result ≡ run_of numbers.now }
{
    match numbers {
        [request, item] => Some(Event::Run(*request, *item, Choice::Run)),
        [request, item, status] => match u16::try_from(*status) {
            Ok(status) => Some(Event::Run(*request, *item, Choice::Refuse(status))),
            Err(_) => None,
        },
        _ => None,
    }
}

fn reply_of(mut numbers: Vec<u64>) -> Option<Event>
    ensures { result ≡ reply_of numbers.items }
{
    if numbers.is_empty() {
        return None;
    }
    let request = numbers.remove(0);
    Some(Event::Reply(request, List::of(numbers)))
}

fn whole_of(numbers: &[u64]) -> Option<Event>
    ensures { result ≡ whole_of numbers.now }
{
    match numbers {
        [request, status] => match u16::try_from(*status) {
            Ok(status) => Some(Event::Whole(*request, status)),
            Err(_) => None,
        },
        _ => None,
    }
}

fn lost_of(numbers: &[u64]) -> Option<Event>
    ensures { result ≡ lost_of numbers.now }
{
    match numbers {
        [request] => Some(Event::Lost(*request)),
        _ => None,
    }
}

fn restart_of(numbers: &[u64]) -> Option<Event>
    ensures { result ≡ restart_of numbers.now }
{
    match numbers {
        [epoch] => match u32::try_from(*epoch) {
            Ok(epoch) => Some(Event::Restart(epoch)),
            Err(_) => None,
        },
        _ => None,
    }
}
