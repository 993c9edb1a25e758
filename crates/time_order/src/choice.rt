ghost use Rattle.std.specs.Prelude.{◌≡◌, ℕ, max, nat_lt, true, Some, None, length};
ghost use Rattle.time_order.specs.declared.choice.Choice.{Choice as AChoice};
ghost use Rattle.time_order.specs.Choices.{IsFirstChoice, choice_of, mail_choice};

use crate::flight::Flight;
use message_net::Event;

/// What an actor can start first, and when it can.
#[derive(Clone, Copy, Drop)]
pub(crate) struct Choice {
    pub(crate) start: u64,
    pub(crate) event: Event,
}

/// The later of two ticks.
fn later(a: u64, b: u64) -> u64
    ensures { result ≡ max a b }
{
    if a < b { b } else { a }
}

impl Choice {
    /// The handling of a message, whose receiver is free at a tick.
    fn handling(free: u64, flight: Flight) -> Choice
        ensures { result ≡ mail_choice free flight }
    {
        Choice {
            start: later(flight.arrival, free),
            event: Event::Handle(flight.id),
        }
    }

    /// What an actor can start first, by its own event, when it is free, and the first message to it.
    pub(crate) fn of(own: Option<Event>, free: u64, first: Option<Flight>) -> Option<Choice>
        ensures { result ≡ choice_of own free first }
    {
        match (own, first) {
            (Some(event), Some(flight)) => {
                if free < flight.arrival {
                    Some(Choice { start: free, event })
                } else {
                    Some(Choice::handling(free, flight))
                }
            }
            (Some(event), None) => Some(Choice { start: free, event }),
            (None, Some(flight)) => Some(Choice::handling(free, flight)),
            (None, None) => None,
        }
    }
}

/// Whether a choice starts before the best so far, if there is one.
fn is_first(choice: &Choice, best: &Option<(usize, Choice)>) -> bool
    ensures none { best.now ≡ None → result ≡ true }
    ensures some { (b : ℕ × AChoice) → best.now ≡ Some b → result ≡ nat_lt choice.now.start b.1.start }
{
    match best {
        Some((_, other)) => choice.start < other.start,
        None => true,
    }
}

/// The actor that can start first, by its index, and what it does then; of several the one with the least index. None if none can
/// start anything.
pub(crate) fn first(choices: &[Option<Choice>]) -> Option<(usize, Choice)>
    ensures { IsFirstChoice choices.now (length choices.now) result }
{
    let mut best = None;
    for (place, choice) in choices.iter().enumerate() {
        if let Some(choice) = choice {
            if is_first(choice, &best) {
                best = Some((place, *choice));
            }
        }
    }
    best
}
