// A search under way: the sets by name, the leader's first, the links between them, and what each statement does to them.
use super::board::{Board, lists};
use super::channel::Channel;
use super::event::{Event, Undone};
use super::season;
use super::set::Transceiver;
use ciphers::{Base, Coat, Coated, Narrow, Pile};
use itertools::Itertools;
use searchfile::{Action, Fault, Role};
use std::alloc::{AllocError, Global};
use std::collections::BTreeMap;

// The cipher of a search that names none.
pub(super) const PLAIN: Pile = Pile::Narrow(Coated {
    coat: Coat::Bare,
    base: Base::One(Narrow::Aes),
});

// A set with its name.
#[derive(Drop)]
pub(super) struct Member {
    pub(super) name: String,
    pub(super) set: Transceiver,
}

// No `Drop`: the tickets of open links are spent where the search is over.
pub struct Search {
    pub(super) heap: Global,
    // once the file has told it
    pub(super) title: Option<String>,
    // the cipher of all radios, once the file has told it
    pub(super) radio: Option<Pile>,
    // The leader first. A patroller's place is its number, and that of the leader's list for its reports.
    pub(super) members: Vec<Member>,
    // By a tree and no table of hashes: names come from the file, and each set is found as fast, whatever they are.
    pub(super) places: BTreeMap<String, usize>,
    // at most one for each patroller, and no more than the leader's radio has links
    pub(super) channels: Vec<Channel>,
    // how many links were asked for: no two have the same key and start block
    pub(super) opens: u32,
    pub(super) second: u32,
}

impl Search {
    // A search of which nothing is told yet.
    pub fn new(heap: Global) -> Search {
        Search {
            heap,
            title: None,
            radio: None,
            members: Vec::new(heap),
            places: BTreeMap::new(heap),
            channels: Vec::new(heap),
            opens: 0,
            second: 0,
        }
    }

    // Its title, with one space between words.
    pub fn begin(&mut self, title: &str) -> Result<(), Fault> {
        if self.title.is_some() {
            return Err(Fault::OneSearch);
        }
        // one of no words tells none
        self.title = Some(spaced(self.heap, title)?).filter(|title| !title.is_empty());
        Ok(())
    }

    // The cipher of all radios.
    pub fn tune(&mut self, cipher: Pile) -> Result<(), Fault> {
        if self.title.is_none() {
            return Err(Fault::SearchFirst);
        }
        if self.radio.is_some() || !self.members.is_empty() {
            return Err(Fault::OneRadio);
        }
        self.radio = Some(cipher);
        Ok(())
    }

    pub(super) fn cipher(&self) -> Pile {
        self.radio.unwrap_or(PLAIN)
    }

    // A set joins, with its cells, and with its key cells where it has a radio.
    pub fn declare(
        &mut self,
        role: Role,
        name: &str,
        cells: usize,
        key_cells: Option<usize>,
    ) -> Result<Event, Fault> {
        self.may_join(role)?;
        if self.places.contains_key(name) {
            return Err(Fault::NewName);
        }
        let mut set = Transceiver::new(self.heap, self.cipher());
        let event = told(set.joined(self.heap, cells, key_cells))?;
        // memory for both first, so that a set joins in both or in neither
        let place = self.members.len();
        let member = Member {
            name: String::from_str(self.heap, name)?,
            set,
        };
        self.members.reserve(1)?;
        self.places
            .insert(String::from_str(self.heap, name)?, place)?;
        self.members.push_reserved(member);
        Ok(event)
    }

    // The title comes first, then one leader, then patrollers.
    fn may_join(&self, role: Role) -> Result<(), Fault> {
        if self.title.is_none() {
            return Err(Fault::SearchFirst);
        }
        match role {
            Role::Leader if !self.members.is_empty() => Err(Fault::OneLeader),
            Role::Patroller if self.members.is_empty() => Err(Fault::LeaderFirst),
            _ => Ok(()),
        }
    }

    // A set does something at a second, not before that of the step above.
    pub fn act(&mut self, second: u32, name: &str, action: &Action) -> Result<Event, Fault> {
        if self.members.is_empty() {
            return Err(Fault::LeaderFirst);
        }
        let place = *self.places.get(name).ok_or(Fault::KnownName)?;
        if second < self.second {
            return Err(Fault::LaterTime);
        }
        self.second = second;
        told(self.done(place, action))
    }

    // By its place: a report needs two sets at once, which names do not lend.
    fn done(&mut self, place: usize, action: &Action) -> Result<Event, Undone> {
        let heap = self.heap;
        match action {
            Action::Hear { record, list } => Ok(self.set(place)?.heard(*list, &[*record])?),
            Action::Sweep { list, records } => {
                Ok(self.set(place)?.heard(*list, records.as_slice())?)
            }
            Action::Report { list } => self.report(place, *list),
            Action::Lose { list } => Ok(self.set(place)?.lost(*list)?),
            Action::Open { mode, bytes } => self.open(place, *mode, *bytes),
            Action::Close => self.close(place),
            Action::LoseLink => self.lose_link(place),
            Action::Read { list, position } => Ok(self.set(place)?.told(*list, *position)?),
            Action::List => Ok(Event::Listed),
            Action::Count => Ok(self.set(place)?.counted()),
            Action::Get { cells } => self.set(place)?.sized(heap, *cells),
            Action::GetKeyCells { cells } => self.set(place)?.keys_sized(heap, *cells),
            Action::Key { cipher, bytes } => Ok(self.set(place)?.keyed(*cipher, *bytes)?),
        }
    }

    fn set(&mut self, place: usize) -> Result<&mut Transceiver, Fault> {
        let member = self.members.get_mut(place).ok_or(Fault::KnownName)?;
        Ok(&mut member.set)
    }

    // What probers need of a set.
    pub fn board(&self, name: &str) -> Result<Board, Fault> {
        let place = *self.places.get(name).ok_or(Fault::KnownName)?;
        let member = self.members.get(place).ok_or(Fault::KnownName)?;
        Ok(Board::of(self.heap, &member.set)?)
    }

    // The leader's name, once the file has told it.
    pub fn leader(&self) -> Result<&str, Fault> {
        let leader = self.members.first().ok_or(Fault::Ends)?;
        Ok(leader.name.as_str())
    }

    // Adds the season's lines of this search: every record that a set lists now, set by set.
    pub fn season(&self, text: &mut String) -> Result<(), Fault> {
        let Some(title) = &self.title else {
            return Ok(());
        };
        for member in self.members.iter() {
            let lists = lists(self.heap, &member.set)?;
            for record in lists.iter().flat_map(|listed| listed.records.iter()) {
                let line = season::line(self.heap, title.as_str(), member.name.as_str(), *record)?;
                text.push_str(line.as_str())?;
            }
        }
        Ok(())
    }
}

// A text with one space between words.
fn spaced(heap: Global, text: &str) -> Result<String, AllocError> {
    text.split_whitespace().intersperse(" ").collect(heap)
}

// A refusal is told as an event; a fault stays one.
fn told(done: Result<Event, Undone>) -> Result<Event, Fault> {
    done.or_else(|undone| match undone {
        Undone::Refused(refused) => Ok(Event::Refused(refused)),
        Undone::Fault(fault) => Err(fault),
    })
}
