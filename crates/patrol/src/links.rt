// The radio links of a search, each from a patroller's set to the leader's: opened, reported over, closed, lost.
ghost use Rattle.std.specs.Prelude.{◌≡◌, ◌++◌, replicate, map, IfOk};
ghost use Rattle.std.specs.Int.{w32, to_be_bytes};
ghost use Rattle.std.specs.List.{range_with_len};
ghost use Rattle.patrol.specs.Radios.{radio_books};
ghost use Rattle.patrol.specs.Links.{undone_of, key_byte};

use super::channel::{Broken, Channel, Sides, WIDEST};
use super::course::{Member, PLAIN, Search};
use super::event::{Event, KeyRoom, Side, Undone};
use super::radio::{Agreed, width};
use super::report;
use super::set::Transceiver;
use modes::Mode;
use refusal::Refusal;
use searchfile::Fault;
use signal::SignalRecord;
use std::alloc::{AllocError, Global};

// No cipher takes a longer key.
const LONGEST_KEY: usize = 256;

impl<'a> Sides<'a> {
    // The leader's set and the one at a place.
    fn of(members: &'a mut [Member], place: usize) -> Result<Sides<'a>, Fault> {
        let after_leader = place.checked_sub(1).ok_or(Fault::PatrollerName)?;
        let (leader, patrollers) = members.split_first_mut().ok_or(Fault::LeaderFirst)?;
        let patroller = patrollers.get_mut(after_leader).ok_or(Fault::KnownName)?;
        Ok(Sides {
            leader: &mut leader.set,
            patroller: &mut patroller.set,
        })
    }

    fn room(&self) -> KeyRoom
        ensures patroller { result.patroller ≡ (radio_books self.now.patroller.now.radio).room }
        ensures leader { result.leader ≡ (radio_books self.now.leader.now.radio).room }
    {
        let (patroller, _) = self.patroller.radio.count();
        let (leader, _) = self.leader.radio.count();
        KeyRoom { patroller, leader }
    }

    // What a broken call is told as.
    fn undone(&self, broken: Broken, needed: Option<usize>) -> Undone
        ensures { result ≡ undone_of self.now.patroller.now self.now.leader.now broken needed }
    {
        match broken {
            Broken::ByPatroller(refusal) => {
                Undone::from(self.patroller.unlinked(Side::Own, refusal, needed))
            }
            Broken::ByLeader(refusal) => {
                Undone::from(self.leader.unlinked(Side::Leader, refusal, needed))
            }
            Broken::Memory(e) => Undone::from(e),
        }
    }

    // Lists the reports that came whole, each whole or not at all; tells how many records they have.
    fn listed(&mut self, heap: Global, came: &mut Vec<u8>, onto: usize) -> Result<usize, Undone> {
        let mut listed = 0;
        while let Some((records, rest)) = report::first(came.as_slice()) {
            let records = records
                .iter()
                .map(|bytes| SignalRecord::from_bytes(*bytes))
                .collect::<Vec<SignalRecord>>(heap)?;
            let rest = Vec::from_slice(heap, rest)?;
            *came = rest;
            self.leader
                .hear(onto, records.as_slice())
                .map_err(|refusal| {
                    self.leader
                        .refused(Side::Leader, refusal, Some(records.len()))
                })?;
            listed = records.len().saturating_add(listed);
        }
        Ok(listed)
    }
}

impl Search {
    // How many links are open.
    pub fn links(&self) -> usize {
        self.channels.len()
    }

    // A patroller's set and the leader's open a link.
    pub(super) fn open(&mut self, place: usize, mode: u8, bytes: usize) -> Result<Event, Undone> {
        let cipher = self.cipher();
        let needed = cipher.need(bytes).ok();
        let mut sides = Sides::of(self.members.as_mut_slice(), place)?;
        if self.channels.iter().any(|channel| channel.place == place) {
            return Err(Undone::from(Fault::OneLink));
        }
        if bytes > LONGEST_KEY {
            // refused by its length alone, after its mode: no key is made up (that neither is refused does not come)
            let refusal = Mode::try_from(mode).and_then(|_| cipher.need(bytes)).err();
            return Err(sides.undone(Broken::ByPatroller(refusal.unwrap_or(Refusal::Mode)), None));
        }
        self.channels.reserve(1)?;
        self.opens = self.opens.wrapping_add(1);
        let key = made_key(self.heap, self.opens, bytes)?;
        let start = start_block(self.opens);
        let agreed = Agreed {
            mode,
            key: key.as_slice(),
            start: &start[WIDEST - width(cipher)..],
        };
        let channel = Channel::open(self.heap, place, &mut sides, &agreed).map_err(
            |broken| sides.undone(broken, needed),
        )?;
        let (link, there) = channel.links();
        self.channels.push_reserved(channel);
        Ok(Event::Opened {
            link,
            there,
            room: sides.room(),
        })
    }

    // A patroller's list goes over its link; what came whole goes onto the leader's list with the patroller's number.
    pub(super) fn report(&mut self, place: usize, list: usize) -> Result<Event, Undone> {
        let mut sides = Sides::of(self.members.as_mut_slice(), place)?;
        let records = sides.patroller.whole(list).map_err(|refusal| {
            sides.patroller.refused(Side::Own, refusal, None)
        })?;
        let mut channels = self.channels.iter_mut();
        let Some(channel) = channels.find(|channel| channel.place == place) else {
            return Err(sides.undone(Broken::ByPatroller(Refusal::Closed), None));
        };
        let text = report::written(self.heap, &records)?;
        channel
            .send(&mut sides, text.as_slice())
            .map_err(|broken| sides.undone(broken, None))?;
        let listed = sides.listed(self.heap, &mut channel.came, place)?;
        Ok(Event::Reported {
            list,
            sent: records.len(),
            records: listed,
            onto: place,
            free: sides.leader.free(),
        })
    }

    // A patroller's link ends, and what is still to come of its reports comes.
    pub(super) fn close(&mut self, place: usize) -> Result<Event, Undone> {
        let mut sides = Sides::of(self.members.as_mut_slice(), place)?;
        let Some(channel) = taken(&mut self.channels, place) else {
            return Err(sides.undone(Broken::ByPatroller(Refusal::Closed), None));
        };
        let (link, _) = channel.links();
        let mut came = channel
            .close(&mut sides)
            .map_err(|broken| sides.undone(broken, None))?;
        let records = sides.listed(self.heap, &mut came, place)?;
        Ok(Event::Closed {
            link,
            records,
            onto: place,
            free: sides.leader.free(),
            room: sides.room(),
        })
    }

    // A patroller is out of range: what is under way on its link is lost.
    pub(super) fn lose_link(&mut self, place: usize) -> Result<Event, Undone> {
        let mut sides = Sides::of(self.members.as_mut_slice(), place)?;
        let Some(channel) = taken(&mut self.channels, place) else {
            return Err(sides.undone(Broken::ByPatroller(Refusal::Closed), None));
        };
        let (link, _) = channel.links();
        channel.strike(&mut sides);
        Ok(Event::LinkLost {
            link,
            room: sides.room(),
        })
    }

    // The search is over: links still open are struck.
    pub fn over(self) {
        let Search {
            heap,
            title: _,
            radio: _,
            mut members,
            places: _,
            mut channels,
            opens: _,
            second: _,
        } = self;
        while let Some(channel) = channels.pop() {
            match Sides::of(members.as_mut_slice(), channel.place) {
                Ok(mut sides) => channel.strike(&mut sides),
                // does not come; a set without links takes any ticket
                Err(_) => channel.strike(&mut Sides {
                    leader: &mut Transceiver::new(heap, PLAIN),
                    patroller: &mut Transceiver::new(heap, PLAIN),
                }),
            }
        }
        channels.destroy_empty();
    }
}

// Takes the channel of a patroller out of the open ones.
fn taken(channels: &mut Vec<Channel>, place: usize) -> Option<Channel> {
    let at = channels.iter().position(|channel| channel.place == place)?;
    Some(channels.swap_remove(at))
}

// The key of link n of a search. Which keys sets use is for others to say; here they are made up, each from its number.
fn made_key(heap: Global, n: u32, len: usize) -> Result<Vec<u8>, AllocError>
    ensures { IfOk result (λ key. key.items ≡ map (key_byte n) (range_with_len 0 len)) }
{
    let [.., n] = n.to_be_bytes();
    (0..len)
        .map(|i| i.to_be_bytes()[7]
            .wrapping_mul(59)
            .wrapping_add(n.wrapping_mul(101)))
        .collect(heap)
}

// The start block of link n: its number, at the end of a block.
fn start_block(n: u32) -> [u8; WIDEST]
    ensures { result ≡ replicate 28 0 ++ to_be_bytes w32 n }
{
    let mut block = [0; WIDEST];
    block[WIDEST - 4..].copy_from_slice(&n.to_be_bytes());
    block
}
