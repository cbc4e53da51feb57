// How many values of each kind were compared.
// Promises nothing of its own.
// Rests on the comparisons (compare).
use compare::{Fault, Value, Way, hold};
use std::alloc::Global;
use std::fmt;

const NUMBER: usize = 9;

// In the order in which counts are told.
const KINDS: [Value; NUMBER] = [
    Value::Schedule,
    Value::Word,
    Value::RoundKey,
    Value::State(Way::Forth),
    Value::State(Way::Back),
    Value::Answer(Way::Forth),
    Value::Answer(Way::Back),
    Value::Message(Way::Forth),
    Value::Message(Way::Back),
];

// A count for each kind, in their order: no map, whose memory each vector would keep.
#[derive(Drop)]
pub struct Tally {
    counts: [u64; NUMBER],
}

impl Tally {
    pub fn new() -> Tally {
        Tally {
            counts: [0; NUMBER],
        }
    }

    pub fn count(&mut self, value: Value) {
        for (kind, count) in KINDS.iter().zip(self.counts.iter_mut()) {
            if *kind == value {
                *count = count.saturating_add(1);
            }
        }
    }

    // Compares a value with the one that is due, and counts it where they are equal.
    pub fn hold(
        &mut self,
        heap: Global,
        value: Value,
        found: &[u8],
        due: &[u8],
    ) -> Result<(), Fault> {
        hold(heap, value, found, due)?;
        self.count(value);
        Ok(())
    }

    // All of them.
    pub fn values(&self) -> u64 {
        self.counts
            .iter()
            .fold(0, |all: u64, count| all.saturating_add(*count))
    }
}

// The words of a count; `Value`'s own words are those of one. A function, and no type with a `Display`: one place prints them.
fn plural(value: Value) -> &'static str {
    match value {
        Value::Schedule => "schedule",
        Value::Word => "words of the expansion",
        Value::RoundKey => "round keys",
        Value::State(Way::Forth) => "states forth",
        Value::State(Way::Back) => "states back",
        Value::Answer(Way::Forth) => "enciphered",
        Value::Answer(Way::Back) => "deciphered",
        Value::Message(Way::Forth) => "messages sent",
        Value::Message(Way::Back) => "messages received",
    }
}

impl fmt::Display for Tally {
    fn fmt<W: fmt::Write>(&self, f: &mut fmt::Formatter<W>) -> fmt::Result {
        let counted = KINDS
            .iter()
            .zip(self.counts.iter())
            .filter(|(_, count)| **count > 0);
        for (i, (value, count)) in counted.enumerate() {
            if i > 0 {
                f.write_str(", ")?;
            }
            let what = plural(*value);
            write!(f, "{count} {what}")?;
        }
        Ok(())
    }
}
