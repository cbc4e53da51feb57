// A search under way: sets with their signal records on shelves and their radio links, and what comes of each step.
// Promises that a set answers as its shelf does and its radio as its bank does, what a set tells of its own steps, and the bytes of
// reports and of the season's lines.
// Rests on `shelf`, `bank`, `bank_calls`, `signal`, `ciphers`, `searchfile` and `refusal`.
#![tactic(auto)]

mod board;
mod calls;
mod channel;
mod course;
mod event;
mod links;
mod radio;
mod report;
mod season;
mod set;
mod steps;

pub use board::{Board, Listed};
pub use course::Search;
pub use event::{Event, KeyRoom, Refused, Side};
pub use season::HEADING;
