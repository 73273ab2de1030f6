//! What the numbers of a line are called, and how many there are of what they name.

use crate::text::Text;
use cmwq_model::Counts;
use cmwq_text::NumberOf;

/// How a number is called, and what is expected where it should stand.
pub fn names_of(number: NumberOf) -> (&'static str, &'static str) {
    match number {
        NumberOf::Item => ("item", "an item's number"),
        NumberOf::Queue => ("queue", "a queue's number"),
        NumberOf::Cpu => ("CPU", "a CPU's number"),
        NumberOf::Ticks => ("ticks", "how many ticks"),
        NumberOf::MaxActive => ("max_active", "a max_active"),
        NumberOf::Ticket => ("ticket", "a ticket's number"),
        NumberOf::Serial => ("serial", "a serial"),
        NumberOf::Entry => ("entry", "an entry's number"),
        NumberOf::Time | NumberOf::Now => ("time", "a time"),
        NumberOf::Worker => ("worker", "a worker's number"),
        NumberOf::Width => ("width", "a width"),
        NumberOf::Cpus => ("CPUs", "how many CPUs"),
        NumberOf::Workers => ("workers", "how many workers in a pool"),
        NumberOf::Callers => ("callers", "how many callers"),
        NumberOf::Items => ("items", "how many items"),
        NumberOf::Room => ("room", "the room"),
    }
}

/// The numbers of a shape, and how many queues it has.
#[derive(Clone, Copy)]
pub struct Sizes {
    pub counts: Counts,
    pub queues: usize,
}

impl Sizes {
    /// How many there are of what a number names, which is below that. None: it names nothing of the shape.
    pub fn count_of(self, number: NumberOf) -> Option<u64> {
        match number {
            NumberOf::Item => Some(u64::from(self.counts.items)),
            NumberOf::Queue => Some(self.queues as u64),
            NumberOf::Cpu => Some(u64::from(self.counts.cpus)),
            NumberOf::Worker => Some(u64::from(self.counts.workers)),
            _ => None,
        }
    }
}

/// Says how many there are of something, and their numbers.
pub fn say_count(text: &mut Text, count: u64) {
    if count == 1 {
        text.say(": there is one, 0");
        return;
    }
    text.say(": there are ");
    text.number(count);
    text.say(", 0 to ");
    text.number(count.saturating_sub(1));
}

/// Says which limit a number passes. None: it is above all numbers.
pub fn say_limit(text: &mut Text, number: Option<u64>, least: u64, most: u64) {
    match number {
        Some(number) if number < least => {
            text.say(": at least ");
            text.number(least);
        }
        _ => {
            text.say(": at most ");
            text.number(most);
        }
    }
}
