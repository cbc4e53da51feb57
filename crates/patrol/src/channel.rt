// A radio link from a patroller's set to the leader's. Text goes out in pieces and comes in in others, as a radio cuts it.
ghost use Rattle.std.specs.Prelude.{◌≡◌};
ghost use Rattle.bank.specs.Calls.{Strikes};
ghost use Rattle.patrol.specs.Links.{OpensBoth, EndsOrStrikes, SameLists};
ghost use Rattle.patrol.specs.Radios.{radio_books};
ghost use Rattle.bank_calls.specs.Calls.{Written};

use super::radio::{Agreed, Radio};
use super::set::Transceiver;
use bank_calls::{Returned, Ticket};
use refusal::Refusal;
use std::alloc::{AllocError, Global};

// The bytes of a piece of text, of a piece of ciphertext, and of the widest block: what a link may still owe.
const PIECE: usize = 40;

const FRAME: usize = 24;

pub(super) const WIDEST: usize = 32;

const SENDS: u8 = 0;

const RECEIVES: u8 = 1;

// No `Drop`: its tickets are spent where it closes, and where it is struck.
pub(super) struct Channel {
    // the patroller's place among the sets
    pub(super) place: usize,
    sends: Ticket,
    receives: Ticket,
    // what came in and is not yet listed
    pub(super) came: Vec<u8>,
}

// Both sets of a link.
#[derive(Drop)]
pub(super) struct Sides<'a> {
    pub(super) leader: &'a mut Transceiver,
    pub(super) patroller: &'a mut Transceiver,
}

// Why a link is not opened, or bytes do not go over it.
#[derive(Clone, Copy)]
pub(super) enum Broken {
    ByPatroller(Refusal),
    ByLeader(Refusal),
    Memory(AllocError),
}

// By hand: the derive asks for words, and this error is never printed.
impl From<AllocError> for Broken {
    fn from(e: AllocError) -> Broken {
        Broken::Memory(e)
    }
}

impl Channel {
    // Opens a link on both sets. Where the leader's refuses, the patroller's is struck.
    pub(super) fn open(
        heap: Global,
        place: usize,
        sides: &mut Sides<'_>,
        agreed: &Agreed<'_>,
    ) -> Result<Channel, Broken>
        ensures outcome { OpensBoth place sides.old.patroller.now.radio sides.old.leader.now.radio agreed.now result sides.new.patroller.now.radio sides.new.leader.now.radio }
        ensures lists { SameLists sides.old.patroller.now sides.old.leader.now sides.new.patroller.now sides.new.leader.now }
    {
        // a set is taken before its radio is lent: of a radio lent through both no proof is made
        let patroller = &mut *sides.patroller;
        let leader = &mut *sides.leader;
        let sends = patroller
            .radio
            .open(SENDS, agreed)
            .map_err(Broken::ByPatroller)?;
        match leader.radio.open(RECEIVES, agreed) {
            Ok(receives) => Ok(Channel {
                place,
                sends,
                receives,
                came: Vec::new(heap),
            }),
            Err(refusal) => {
                patroller.radio.strike(sends);
                Err(Broken::ByLeader(refusal))
            }
        }
    }

    // The numbers of the link, the patroller's and the leader's.
    pub(super) fn links(&self) -> (usize, usize)
        ensures patroller { result.0 ≡ self.now.sends.link }
        ensures leader { result.1 ≡ self.now.receives.link }
    {
        (self.sends.link(), self.receives.link())
    }

    // Text goes over the link.
    pub(super) fn send(&mut self, sides: &mut Sides<'_>, text: &[u8]) -> Result<(), Broken> {
        let patroller = &mut *sides.patroller;
        let leader = &mut *sides.leader;
        let mut air = [0; PIECE + WIDEST];
        for piece in text.chunks(PIECE) {
            let given = patroller
                .radio
                .put(self.sends.link(), piece, &mut air)
                .map_err(Broken::ByPatroller)?;
            let link = self.receives.link();
            received(&mut leader.radio, link, &air[..given], &mut self.came)?;
        }
        Ok(())
    }

    // Ends the link on both sets, and hands out what came.
    pub(super) fn close(self, sides: &mut Sides<'_>) -> Result<Vec<u8>, Broken> {
        let Channel {
            place: _,
            sends,
            receives,
            mut came,
        } = self;
        let patroller = &mut *sides.patroller;
        let leader = &mut *sides.leader;
        let mut air = [0; WIDEST];
        let mut text = [0; WIDEST];
        let sent = ended(&mut patroller.radio, sends, &mut air).map_err(Broken::ByPatroller);
        let heard = sent.and_then(|given| received(
            &mut leader.radio,
            receives.link(),
            &air[..given],
            &mut came,
        ));
        let last = ended(&mut leader.radio, receives, &mut text).map_err(Broken::ByLeader);
        heard?;
        came.extend_from_slice(&text[..last?])?;
        Ok(came)
    }

    // Closes the link at once on both sets; what was under way is lost.
    pub(super) fn strike(self, sides: &mut Sides<'_>)
        ensures patroller { Strikes (radio_books sides.old.patroller.now.radio) self.sends.link (radio_books sides.new.patroller.now.radio) }
        ensures leader { Strikes (radio_books sides.old.leader.now.radio) self.receives.link (radio_books sides.new.leader.now.radio) }
        ensures lists { SameLists sides.old.patroller.now sides.old.leader.now sides.new.patroller.now sides.new.leader.now }
    {
        let Channel {
            place: _,
            sends,
            receives,
            came: _,
        } = self;
        let patroller = &mut *sides.patroller;
        let leader = &mut *sides.leader;
        patroller.radio.strike(sends);
        leader.radio.strike(receives);
    }
}

// Ciphertext comes in.
fn received(
    radio: &mut Radio,
    link: usize,
    cipher: &[u8],
    came: &mut Vec<u8>,
) -> Result<(), Broken> {
    let mut text = [0; FRAME + WIDEST];
    for frame in cipher.chunks(FRAME) {
        let given = radio.put(link, frame, &mut text).map_err(Broken::ByLeader)?;
        came.extend_from_slice(&text[..given])?;
    }
    Ok(())
}

// Ends a link; where that is refused, it is struck.
fn ended(radio: &mut Radio, ticket: Ticket, out: &mut [u8]) -> Result<usize, Refusal>
    ensures outcome { EndsOrStrikes radio.old ticket.link out.old result out.new radio.new }
    ensures output { Written out.old result out.new }
{
    match radio.end(ticket, out) {
        Ok(given) => Ok(given),
        Err(Returned { refusal, ticket }) => {
            radio.strike(ticket);
            Err(refusal)
        }
    }
}
