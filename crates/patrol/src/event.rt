// What comes of a step: accepted with counts, or refused, with what was free and what was needed.
ghost use Rattle.std.specs.Prelude.{◌≡◌};
ghost use Rattle.searchfile.specs.declared.fault.Fault.TheVariants.{Memory};
ghost use Rattle.patrol.specs.declared.event.Undone.TheVariants.{Refused as RefusedStep, Fault as FaultyStep};

use ciphers::Pile;
use refusal::Refusal;
use searchfile::Fault;
use signal::SignalRecord;
use std::alloc::AllocError;
use std::fmt;

#[derive(Clone, Copy)]
pub enum Event {
    Joined {
        cells: usize,
        key_cells: Option<usize>,
    },
    Sized {
        cells: usize,
    },
    KeysSized {
        cells: usize,
    },
    Heard {
        list: usize,
        records: usize,
        free: usize,
    },
    Opened {
        link: usize,
        there: usize,
        room: KeyRoom,
    },
    // of a list's records, those that came whole at the leader's set, with those of reports before
    Reported {
        list: usize,
        sent: usize,
        records: usize,
        onto: usize,
        free: usize,
    },
    Closed {
        link: usize,
        records: usize,
        onto: usize,
        free: usize,
        room: KeyRoom,
    },
    LinkLost {
        link: usize,
        room: KeyRoom,
    },
    Lost {
        list: usize,
        records: usize,
        free: usize,
    },
    Told {
        list: usize,
        position: usize,
        record: SignalRecord,
    },
    Listed,
    Counted {
        free: usize,
        key_cells: usize,
        links: usize,
    },
    Keyed {
        cipher: Pile,
        bytes: usize,
        cells: usize,
    },
    Refused(Refused),
}

// The free key cells of both sides of a link.
#[derive(Clone, Copy)]
pub struct KeyRoom {
    pub patroller: usize,
    pub leader: usize,
}

// Which set refuses: the one that does the step, or the leader's.
#[derive(Clone, Copy, PartialEq, Eq, Debug)]
pub enum Side {
    Own,
    Leader,
}

// A refusal, with the cells that were free then and those that were needed, where the call asks for any.
#[derive(Clone, Copy)]
pub struct Refused {
    pub by: Side,
    pub refusal: Refusal,
    pub free: usize,
    pub needed: Option<usize>,
}

// Why a step is not done: a set refuses it, which is told as an event, or its line is at fault.
#[derive(Clone, Copy)]
pub(super) enum Undone {
    Refused(Refused),
    Fault(Fault),
}

// By hand: the derive asks for words, and this error is never printed.
impl From<Refused> for Undone {
    ghost from_gives = { λ refused e. e ≡ RefusedStep refused };

    fn from(refused: Refused) -> Undone {
        Undone::Refused(refused)
    }
}

impl From<Fault> for Undone {
    ghost from_gives = { λ fault e. e ≡ FaultyStep fault };

    fn from(fault: Fault) -> Undone {
        Undone::Fault(fault)
    }
}

impl From<AllocError> for Undone {
    ghost from_gives = { λ none e. e ≡ FaultyStep (Memory none) };

    fn from(e: AllocError) -> Undone {
        Undone::Fault(Fault::Memory(e))
    }
}

// A count of things, and their noun.
#[derive(Clone, Copy)]
struct Count(usize, &'static str);

impl fmt::Display for Count {
    fn fmt<W: fmt::Write>(&self, f: &mut fmt::Formatter<W>) -> fmt::Result {
        let Count(n, noun) = *self;
        let plural = if n == 1 { "" } else { "s" };
        write!(f, "{n} {noun}{plural}")
    }
}

impl fmt::Display for Event {
    fn fmt<W: fmt::Write>(&self, f: &mut fmt::Formatter<W>) -> fmt::Result {
        match *self {
            Event::Joined {
                cells,
                key_cells: Some(key_cells),
            } => {
                write!(
                    f,
                    "has {} and {}",
                    Count(cells, "cell"),
                    Count(key_cells, "key cell")
                )
            }
            Event::Joined {
                cells,
                key_cells: None,
            }
            | Event::Sized { cells } => write!(f, "has {}", Count(cells, "cell")),
            Event::KeysSized { cells } => write!(f, "has {}", Count(cells, "key cell")),
            Event::Heard {
                list,
                records,
                free,
            } => {
                write!(
                    f,
                    "{} onto list {list}, {} free",
                    Count(records, "record"),
                    Count(free, "cell")
                )
            }
            Event::Opened { link, there, room } => {
                write!(f, "opens link {link}, the leader's link {there}: {room}")
            }
            Event::Reported {
                list,
                sent,
                records,
                onto,
                free,
            } => {
                write!(
                    f,
                    "reports list {list}: {} sent, {} onto the leader's list {onto}, {} free there",
                    Count(sent, "record"),
                    Count(records, "record"),
                    Count(free, "cell")
                )
            }
            Event::Closed {
                link,
                records,
                onto,
                free,
                room,
            } => {
                write!(
                    f,
                    "closes link {link}: {} onto the leader's list {onto}, {} free there; {room}",
                    Count(records, "record"),
                    Count(free, "cell")
                )
            }
            Event::LinkLost { link, room } => write!(f, "loses link {link}: {room}"),
            Event::Lost {
                list,
                records,
                free,
            } => {
                write!(
                    f,
                    "loses list {list}: {} gone, {} free",
                    Count(records, "record"),
                    Count(free, "cell")
                )
            }
            Event::Told {
                list,
                position,
                record,
            } => { write!(f, "list {list} at {position}: {record}") }
            Event::Listed => write!(f, "lists"),
            Event::Counted {
                free,
                key_cells,
                links,
            } => {
                write!(
                    f,
                    "{} and {} free, {} open",
                    Count(free, "cell"),
                    Count(key_cells, "key cell"),
                    Count(links, "link")
                )
            }
            Event::Keyed {
                cipher,
                bytes,
                cells,
            } => {
                write!(
                    f,
                    "would use {cipher}, key of {bytes} bytes: a link needs {}",
                    Count(cells, "key cell")
                )
            }
            Event::Refused(refused) => write!(f, "{refused}"),
        }
    }
}

impl fmt::Display for KeyRoom {
    fn fmt<W: fmt::Write>(&self, f: &mut fmt::Formatter<W>) -> fmt::Result {
        let there = self.leader;
        write!(
            f,
            "{} free, {there} there",
            Count(self.patroller, "key cell")
        )
    }
}

impl fmt::Display for Side {
    fn fmt<W: fmt::Write>(&self, f: &mut fmt::Formatter<W>) -> fmt::Result {
        match self {
            Side::Own => Ok(()),
            Side::Leader => write!(f, " by the leader's set"),
        }
    }
}

impl fmt::Display for Refused {
    fn fmt<W: fmt::Write>(&self, f: &mut fmt::Formatter<W>) -> fmt::Result {
        let Refused {
            by,
            refusal,
            free,
            needed,
        } = *self;
        let number = refusal.number();
        write!(f, "refused {number}{by}: {refusal}")?;
        match (refusal, needed) {
            (Refusal::Cells, Some(needed)) => write!(f, " ({free} free, {needed} needed)"),
            _ => Ok(()),
        }
    }
}
