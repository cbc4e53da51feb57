// The search file's grammar: one statement a line, from `#` on a comment. A comma, a semicolon or a colon after a word is for the eye.
ghost use Rattle.searchfile.specs.Lines.{Numbered, ModeNumbered, Recorded};

use super::fault::Fault;
use ciphers::Pile;
use signal::SignalRecord;
use std::alloc::{AllocError, Global};
use std::fmt;

// What may stand behind a word for the eye.
const MARKS: [char; 3] = [',', ';', ':'];

// What a set is in its search.
#[derive(Clone, Copy, PartialEq, Eq, Debug)]
pub enum Role {
    Leader,
    Patroller,
}

// What a set does. Lists, positions and cells are what the file says: whether there are such is for the shelf to say.
#[derive(Drop)]
pub enum Action {
    Hear {
        record: SignalRecord,
        list: usize,
    },
    Sweep {
        list: usize,
        records: Vec<SignalRecord>,
    },
    Report {
        list: usize,
    },
    Lose {
        list: usize,
    },
    LoseLink,
    Open {
        mode: u8,
        bytes: usize,
    },
    Close,
    Read {
        list: usize,
        position: usize,
    },
    List,
    Count,
    Get {
        cells: usize,
    },
    GetKeyCells {
        cells: usize,
    },
    Key {
        cipher: Pile,
        bytes: usize,
    },
}

// What a line says.
#[derive(Drop)]
pub enum Statement<'a> {
    Blank,
    Title {
        title: &'a str,
    },
    Radio {
        cipher: Pile,
    },
    Set {
        role: Role,
        name: &'a str,
        cells: usize,
        // none where the line tells none
        key_cells: Option<usize>,
    },
    Step {
        second: u32,
        name: &'a str,
        action: Action,
    },
}

impl fmt::Display for Role {
    fn fmt<W: fmt::Write>(&self, f: &mut fmt::Formatter<W>) -> fmt::Result {
        match self {
            Role::Leader => write!(f, "leader"),
            Role::Patroller => write!(f, "patroller"),
        }
    }
}

// The statement on a line.
pub fn parse<'a>(heap: Global, line: &'a str) -> Result<Statement<'a>, Fault> {
    let told = line.split_once('#').map_or(line, |(before, _)| before);
    if told.chars().any(|c| c.is_control() && c != '\t') {
        return Err(Fault::Control);
    }
    let words = words(heap, told)?;
    match words.as_slice() {
        [] => Ok(Statement::Blank),
        ["search", ..] => title(told),
        ["radio", named @ ..] => Ok(Statement::Radio {
            cipher: cipher(named)?,
        }),
        ["leader", rest @ ..] => declared(Role::Leader, rest),
        ["patroller", rest @ ..] => declared(Role::Patroller, rest),
        [time, name, does, rest @ ..] => step(heap, time, name, does, rest),
        _ => Err(Fault::Statement),
    }
}

// The words of a line, without the marks behind them.
fn words<'a>(heap: Global, told: &'a str) -> Result<Vec<&'a str>, AllocError> {
    told.split_whitespace()
        .map(|word| word.trim_end_matches(MARKS))
        .filter(|bare| !bare.is_empty())
        .collect(heap)
}

fn title<'a>(told: &'a str) -> Result<Statement<'a>, Fault> {
    told.trim()
        .strip_prefix("search")
        .map(|rest| rest.trim().trim_start_matches(MARKS).trim())
        .filter(|title| !title.is_empty())
        .map(|title| Statement::Title { title })
        .ok_or(Fault::TitleForm)
}

fn declared<'a>(role: Role, rest: &[&'a str]) -> Result<Statement<'a>, Fault> {
    let [name, "with", cells, "cells", others @ ..] = rest else {
        return Err(Fault::SetForm);
    };
    let cells = number(cells)?;
    let key_cells = match others {
        [] => None,
        ["and", n, "key", "cells"] => Some(number(n)?),
        _ => return Err(Fault::SetForm),
    };
    Ok(Statement::Set {
        role,
        name,
        cells,
        key_cells,
    })
}

fn step<'a>(
    heap: Global,
    time: &str,
    name: &'a str,
    does: &str,
    rest: &[&str],
) -> Result<Statement<'a>, Fault> {
    let second = signal::clock(time).ok_or(Fault::Time)?;
    let action = match does {
        "hears" => hears(second, rest),
        "sweeps" => sweeps(heap, second, rest),
        "reports" => one_list(rest, Fault::ReportsForm).map(|list| Action::Report { list }),
        "loses" => loses(rest),
        "opens" => opens(rest),
        "closes" => closes(rest),
        "reads" => reads(rest),
        "lists" => alone(rest, Action::List, Fault::ListsForm),
        "counts" => alone(rest, Action::Count, Fault::CountsForm),
        "gets" => gets(rest),
        "keys" => keys(rest),
        _ => Err(Fault::Statement),
    }?;
    Ok(Statement::Step {
        second,
        name,
        action,
    })
}

fn hears(second: u32, rest: &[&str]) -> Result<Action, Fault> {
    let [
        beacon,
        "at",
        distance,
        "m",
        "strength",
        strength,
        "on",
        "list",
        list,
    ] = rest
    else {
        return Err(Fault::HearsForm);
    };
    let record = record(second, beacon, distance, strength)?;
    let list = number(list)?;
    Ok(Action::Hear { record, list })
}

fn sweeps(heap: Global, second: u32, rest: &[&str]) -> Result<Action, Fault> {
    let ["list", list, figures @ ..] = rest else {
        return Err(Fault::SweepsForm);
    };
    let list = number(list)?;
    let records = figures
        .chunks(4)
        .map(|of_one| match of_one {
            [beacon, distance, "m", strength] => record(second, beacon, distance, strength),
            _ => Err(Fault::SweepsForm),
        })
        .try_collect(heap)?;
    Ok(Action::Sweep { list, records })
}

// The list that an action names alone.
fn one_list(rest: &[&str], form: Fault) -> Result<usize, Fault> {
    let ["list", list] = rest else {
        return Err(form);
    };
    number(list)
}

fn reads(rest: &[&str]) -> Result<Action, Fault> {
    let ["list", list, "at", position] = rest else {
        return Err(Fault::ReadsForm);
    };
    let list = number(list)?;
    let position = number(position)?;
    Ok(Action::Read { list, position })
}

// An action that has no more words.
fn alone(rest: &[&str], action: Action, form: Fault) -> Result<Action, Fault> {
    match rest {
        [] => Ok(action),
        _ => Err(form),
    }
}

fn loses(rest: &[&str]) -> Result<Action, Fault> {
    match rest {
        ["link"] => Ok(Action::LoseLink),
        _ => one_list(rest, Fault::LosesForm).map(|list| Action::Lose { list }),
    }
}

fn closes(rest: &[&str]) -> Result<Action, Fault> {
    match rest {
        ["link"] => Ok(Action::Close),
        _ => Err(Fault::ClosesForm),
    }
}

fn opens(rest: &[&str]) -> Result<Action, Fault> {
    let ["link", mode, "with", bytes, "bytes"] = rest else {
        return Err(Fault::OpensForm);
    };
    let mode = mode_number(mode)?;
    let bytes = number(bytes)?;
    Ok(Action::Open { mode, bytes })
}

// A mode by its name; a number is passed on as it stands.
fn mode_number(text: &str) -> Result<u8, Fault>
    ensures { ModeNumbered text.now result }
{
    match text {
        "cbc" => Ok(1),
        "cfb" => Ok(2),
        "ofb" => Ok(3),
        _ => u8::try_from(number(text)?).ok().ok_or(Fault::OpensForm),
    }
}

fn gets(rest: &[&str]) -> Result<Action, Fault> {
    match rest {
        [cells, "cells"] => Ok(Action::Get {
            cells: number(cells)?,
        }),
        [cells, "key", "cells"] => Ok(Action::GetKeyCells {
            cells: number(cells)?,
        }),
        _ => Err(Fault::GetsForm),
    }
}

fn keys(rest: &[&str]) -> Result<Action, Fault> {
    let [named @ .., "with", bytes, "bytes"] = rest else {
        return Err(Fault::KeysForm);
    };
    let cipher = cipher(named)?;
    let bytes = number(bytes)?;
    Ok(Action::Key { cipher, bytes })
}

fn cipher(words: &[&str]) -> Result<Pile, Fault> {
    Pile::named(words).ok_or(Fault::CipherForm)
}

fn number(text: &str) -> Result<usize, Fault>
    ensures { Numbered text.now result }
{
    signal::number(text).ok_or(Fault::Number)
}

fn record(second: u32, beacon: &str, distance: &str, strength: &str) -> Result<SignalRecord, Fault>
    ensures { Recorded second beacon.now distance.now strength.now result }
{
    let beacon = signal::beacon(beacon).ok_or(Fault::Beacon)?;
    let distance = signal::metres(distance).ok_or(Fault::Distance)?;
    let strength = signal::strength(strength).ok_or(Fault::Strength)?;
    Ok(SignalRecord {
        beacon,
        distance,
        strength,
        second,
    })
}
