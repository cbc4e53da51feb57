// The signal record: one beacon heard once. And the figures that people write of it: identity, distance, time.
// Promises what a text is read as, and just when it is no such figure; what is written of each; and a record's 11 bytes, both ways.
// Rests on nothing.
#![tactic(auto)]

mod read;
mod record;
mod write;

pub use read::{beacon, clock, metres, number, strength};
pub use record::SignalRecord;
pub use write::{Beacon, Clock, Metres};
