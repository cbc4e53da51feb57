// A bank with the cell memory and the scratch that its calls are lent. It looks after each call at what that left of them.
use bank_calls::{Bank, Returned, Ticket};
use kit::Kit;
use refusal::Refusal;
use shelf::KeyCell;
use std::array;

// Scratch bytes before each call.
const USED: u8 = 0xA5;

// Output bytes before each call.
pub(super) const BLANK: u8 = 0x5A;

// A key of any length is the front of these, and so is a start block.
pub(super) const BYTES: [u8; 256] = [0x3C; 256];

// Key bytes that differ.
pub(super) fn keys() -> [u8; 256] {
    array::from_fn(|i| (i % 256) as u8 ^ USED)
}

// What an open asks for.
#[derive(Clone, Copy)]
pub(super) struct Ask<'a> {
    pub(super) mode: u8,
    pub(super) direction: u8,
    pub(super) key: &'a [u8],
    pub(super) start: &'a [u8],
}

// An open's answer: it can't be let go while it may hold a ticket.
pub(super) type Opened = Result<Ticket, Refusal>;

#[derive(Drop)]
pub(super) struct Desk<K> {
    pub(super) bank: Bank<K>,
    pub(super) memory: [KeyCell; 257],
    // how many cells and how many scratch bytes the calls are shown
    pub(super) cells: usize,
    pub(super) scratch: usize,
    // whether every call so far left scratch and output as it should
    pub(super) sound: bool,
}

// The bytes 1 to 100: none of them begins a padding.
pub(super) fn text() -> [u8; 100] {
    array::from_fn(|i| (i.wrapping_add(1) % 256) as u8)
}

// The number of a refusal, or 0.
pub(super) fn told<A: Drop>(answer: Result<A, Refusal>) -> u8 {
    answer.err().map_or(0, |refusal| refusal.number())
}

// The number of the link that was opened.
pub(super) fn number(opened: &Opened) -> Option<usize> {
    match opened {
        Ok(ticket) => Some(ticket.link()),
        Err(_) => None,
    }
}

// A scratch of 1,536 bytes holds zeros; one of another length, and what lies beyond it, is as it was.
fn left(scratch: &[u8; 1537], shown: usize) -> bool {
    let wiped = if shown == 1536 { 1536 } else { 0 };
    let (zeros, kept) = scratch.split_at(wiped);
    zeros.iter().all(|b| *b == 0) && kept.iter().all(|b| *b == USED)
}

impl<K: Kit> Desk<K> {
    // A bank of so many cells.
    pub(super) fn over(kit: K, cells: usize) -> Desk<K> {
        let mut bank = Bank::over(kit);
        let sound = bank.size(cells).is_ok();
        Desk {
            bank,
            memory: [[0; 16]; 257],
            cells,
            scratch: 1536,
            sound,
        }
    }

    pub(super) fn open(&mut self, ask: &Ask<'_>) -> Opened {
        let mut scratch = [USED; 1537];
        let memory = &mut self.memory[..];
        let opened = self.bank.open(
            &mut scratch[..self.scratch.min(1537)],
            &mut memory[..self.cells.min(257)],
            ask.mode,
            ask.direction,
            ask.key,
            ask.start,
        );
        self.sound = self.sound && left(&scratch, self.scratch);
        opened
    }

    // What a call on a link left of scratch and output, which was blank: all of it after a refusal, and what lies beyond the
    // bytes given after an answer.
    fn look(&mut self, scratch: &[u8; 1537], given: Option<usize>, out: &[u8]) {
        let kept = out.iter().skip(given.unwrap_or(0)).all(|b| *b == BLANK);
        self.sound = self.sound && kept && left(scratch, self.scratch);
    }

    pub(super) fn put(
        &mut self,
        link: usize,
        piece: &[u8],
        out: &mut [u8],
    ) -> Result<usize, Refusal> {
        let mut scratch = [USED; 1537];
        let answer = self.bank.put(
            &mut scratch[..self.scratch.min(1537)],
            &self.memory[..self.cells.min(257)],
            link,
            piece,
            out,
        );
        self.look(&scratch, answer.ok(), out);
        answer
    }

    pub(super) fn end(&mut self, ticket: Ticket, out: &mut [u8]) -> Result<usize, Returned> {
        let mut scratch = [USED; 1537];
        let answer = self.bank.end(
            &mut scratch[..self.scratch.min(1537)],
            &self.memory[..self.cells.min(257)],
            ticket,
            out,
        );
        let given = match &answer {
            Ok(given) => Some(*given),
            Err(_) => None,
        };
        self.look(&scratch, given, out);
        answer
    }

    // An end; the ticket of a refused one is struck.
    pub(super) fn ends(&mut self, ticket: Ticket, out: &mut [u8]) -> Result<usize, Refusal> {
        match self.end(ticket, out) {
            Ok(given) => Ok(given),
            Err(Returned { refusal, ticket }) => {
                self.bank.strike(ticket);
                Err(refusal)
            }
        }
    }

    // An end of what an open answered: its refusal's number, or the open's.
    pub(super) fn ended(&mut self, opened: Opened) -> u8 {
        match opened {
            Ok(ticket) => told(self.ends(ticket, &mut [BLANK; 32])),
            Err(refusal) => refusal.number(),
        }
    }

    // An open's answer by its number: a link that was opened is struck.
    pub(super) fn struck(&mut self, opened: Opened) -> u8 {
        match opened {
            Ok(ticket) => {
                self.bank.strike(ticket);
                0
            }
            Err(refusal) => refusal.number(),
        }
    }

    // Opens a link and strikes it: the number of the refusal, or 0.
    pub(super) fn asked(&mut self, ask: &Ask<'_>) -> u8 {
        let opened = self.open(ask);
        self.struck(opened)
    }

    // Eight opens.
    pub(super) fn eight(&mut self, ask: &Ask<'_>) -> [Opened; 8] {
        [
            self.open(ask),
            self.open(ask),
            self.open(ask),
            self.open(ask),
            self.open(ask),
            self.open(ask),
            self.open(ask),
            self.open(ask),
        ]
    }

    pub(super) fn strikes(&mut self, opened: [Opened; 8]) -> [u8; 8] {
        let [a, b, c, d, e, f, g, h] = opened;
        [
            self.struck(a),
            self.struck(b),
            self.struck(c),
            self.struck(d),
            self.struck(e),
            self.struck(f),
            self.struck(g),
            self.struck(h),
        ]
    }

    pub(super) fn end_all(&mut self, opened: [Opened; 8]) -> [u8; 8] {
        let [a, b, c, d, e, f, g, h] = opened;
        [
            self.ended(a),
            self.ended(b),
            self.ended(c),
            self.ended(d),
            self.ended(e),
            self.ended(f),
            self.ended(g),
            self.ended(h),
        ]
    }
}
