// Why a run over a data file stops: a line that is not of the format, or a value that differs.
// Promises nothing of its own.
// Rests on the reasons of crate refusal.
use refusal::Refusal;
use std::alloc::AllocError;
use std::fmt;
use thiserror::Error;

// Which way a cipher, or a step of it, is taken.
#[derive(Clone, Copy, PartialEq, Eq, PartialOrd, Ord, Debug)]
pub enum Way {
    Forth,
    Back,
}

// What was compared, in the order in which counts are told.
#[derive(Clone, Copy, PartialEq, Eq, PartialOrd, Ord, Debug)]
pub enum Value {
    Schedule,
    // a word of a row of the key expansion
    Word,
    RoundKey,
    // the block after a step, or after a step undone
    State(Way),
    // the text enciphered, or the answer deciphered
    Answer(Way),
    // what a sending link gives, or a receiving one
    Message(Way),
}

impl fmt::Display for Value {
    fn fmt<W: fmt::Write>(&self, f: &mut fmt::Formatter<W>) -> fmt::Result {
        f.write_str(match self {
            Value::Schedule => "the schedule",
            Value::Word => "the word",
            Value::RoundKey => "the round key",
            Value::State(Way::Forth) => "the state",
            Value::State(Way::Back) => "the state on the way back",
            Value::Answer(Way::Forth) => "the text enciphered",
            Value::Answer(Way::Back) => "the cipher deciphered",
            Value::Message(Way::Forth) => "the message sent",
            Value::Message(Way::Back) => "the message received",
        })
    }
}

// Why a run stops.
#[derive(Debug, Drop, Error)]
pub enum Fault {
    // the program's value in hexadecimal digits, where the line has another
    #[error("{value} differs: the program has {found}")]
    Differs { value: Value, found: String },
    // a call of a cipher was refused
    #[error("refused {}: {}", .0.number(), .0)]
    Refused(#[from] Refusal),
    // what the line should have been
    #[error("expected {0}")]
    Form(&'static str),
    #[error("no memory is left")]
    Memory(#[from(alloc)] AllocError),
}
