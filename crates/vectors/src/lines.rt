// The line format of the data files; the head of each file has it in words.
// Promises nothing of its own: a line that is of no form is a fault.
// Rests on the digits (compare).
use crate::expansion::Column;
use crate::messages::Message;
use crate::steps::Step;
use compare::{Cipher, Fault, Way, parse_hex};
use std::alloc::Global;

// A round key of AES as it stands in the schedule, or with MixColumns undone.
#[derive(Clone, Copy, PartialEq, Eq, Debug)]
pub enum KeyForm {
    Plain,
    Mixed,
}

#[derive(Drop)]
pub enum Line<'a> {
    Blank,
    // the head of a vector
    Vector { cipher: Cipher, name: &'a str },
    Entry(Entry<'a>),
}

// What a line gives to its vector, or what it has compared.
#[derive(Drop)]
pub enum Entry<'a> {
    Key(Vec<u8>),
    Schedule(Vec<u8>),
    Text(Vec<u8>),
    Enciphered(Vec<u8>),
    State(Vec<u8>),
    Step {
        step: Step<'a>,
        due: Vec<u8>,
    },
    RoundKey {
        form: KeyForm,
        round: u8,
        due: Vec<u8>,
    },
    Word {
        row: u8,
        column: Column,
        due: Vec<u8>,
    },
    Pair {
        key: Vec<u8>,
        text: Vec<u8>,
        due: Vec<u8>,
    },
    Message(Message),
}

pub fn parse<'a>(heap: Global, line: &'a str) -> Result<Line<'a>, Fault> {
    let words: Vec<&'a str> = line.split_whitespace().collect(heap)?;
    match words.as_slice() {
        [] | ["#", ..] => Ok(Line::Blank),
        ["vector", ..] => vector(line),
        words => Ok(Line::Entry(entry_of(heap, words)?)),
    }
}

fn vector<'a>(line: &'a str) -> Result<Line<'a>, Fault> {
    let (cipher, name) = line
        .split_once(' ')
        .and_then(|(_, rest)| rest.split_once(' '))
        .ok_or(Fault::Form("`vector CIPHER NAME`"))?;
    let cipher = cipher.parse()?;
    Ok(Line::Vector { cipher, name })
}

fn entry_of<'a>(heap: Global, words: &[&'a str]) -> Result<Entry<'a>, Fault> {
    match words {
        [word, value] => one_value(word, parse_hex(heap, value)?),
        ["step", name, round, due] => step(heap, Way::Forth, name, round, due),
        ["undo", name, round, due] => step(heap, Way::Back, name, round, due),
        ["roundkey", round, due] => round_key(heap, KeyForm::Plain, round, due),
        ["mixedkey", round, due] => round_key(heap, KeyForm::Mixed, round, due),
        ["word", row, column, due] => Ok(Entry::Word {
            row: number(row)?,
            column: column.parse()?,
            due: parse_hex(heap, due)?,
        }),
        ["pair", key, text, due] => Ok(Entry::Pair {
            key: parse_hex(heap, key)?,
            text: parse_hex(heap, text)?,
            due: parse_hex(heap, due)?,
        }),
        ["message", fields @ ..] => Ok(Entry::Message(Message::of(heap, fields)?)),
        _ => Err(Fault::Form("a line of the format")),
    }
}

fn one_value<'a>(word: &str, value: Vec<u8>) -> Result<Entry<'a>, Fault> {
    match word {
        "key" => Ok(Entry::Key(value)),
        "schedule" => Ok(Entry::Schedule(value)),
        "text" => Ok(Entry::Text(value)),
        "cipher" => Ok(Entry::Enciphered(value)),
        "state" => Ok(Entry::State(value)),
        _ => Err(Fault::Form("a line of the format")),
    }
}

fn number(text: &str) -> Result<u8, Fault> {
    text.parse().map_err(|_| Fault::Form("a number up to 255"))
}

fn step<'a>(
    heap: Global,
    way: Way,
    name: &'a str,
    round: &str,
    due: &str,
) -> Result<Entry<'a>, Fault> {
    let round = number(round)?;
    Ok(Entry::Step {
        step: Step { way, name, round },
        due: parse_hex(heap, due)?,
    })
}

fn round_key<'a>(heap: Global, form: KeyForm, round: &str, due: &str) -> Result<Entry<'a>, Fault> {
    Ok(Entry::RoundKey {
        form,
        round: number(round)?,
        due: parse_hex(heap, due)?,
    })
}
