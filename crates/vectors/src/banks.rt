// The radio links under comparison: two banks over one cipher, which serve every message of a vector.
// Promises nothing of its own: what a link gives is promised by the bank, and what passes by the comparisons.
// Rests on the bank of links (bank_calls) and the messages of the data files (messages).
use crate::messages::Message;
use crate::tally::Tally;
use bank_calls::{Bank, Returned, Ticket};
use compare::{Cipher, Fault, Value, Way};
use kit::Kit;
use refusal::Refusal;
use shelf::KeyCell;
use std::alloc::Global;

// Enough for the longest schedule, and too few for two of them: so cells serve one message after another.
const CELLS: usize = 40;

const SCRATCH: usize = 1536;

// The longest piece, and what a link may hold before it.
const OUTPUT: usize = 4096 + 32;

// A bank with the memory that its calls work in.
#[derive(Drop)]
pub struct Set<K> {
    bank: Bank<K>,
    memory: Vec<KeyCell>,
    scratch: Vec<u8>,
    output: Vec<u8>,
}

impl<K: Kit + Copy> Set<K> {
    pub fn of(heap: Global, kit: K) -> Result<Set<K>, Fault> {
        let mut bank = Bank::over(kit);
        bank.size(CELLS)?;
        Ok(Set {
            bank,
            memory: vec![in heap; [0; 16]; CELLS]?,
            scratch: vec![in heap; 0; SCRATCH]?,
            output: vec![in heap; 0; OUTPUT]?,
        })
    }

    // A link that sends, or on the way back one that receives.
    pub fn open(
        &mut self,
        way: Way,
        mode: u8,
        key: &[u8],
        start: &[u8],
    ) -> Result<Ticket, Refusal> {
        let direction = match way {
            Way::Forth => 0,
            Way::Back => 1,
        };
        self.bank.open(
            self.scratch.as_mut_slice(),
            self.memory.as_mut_slice(),
            mode,
            direction,
            key,
            start,
        )
    }

    // What a link gives for a piece.
    pub fn put(&mut self, link: usize, piece: &[u8]) -> Result<&[u8], Refusal> {
        let n = self.bank.put(
            self.scratch.as_mut_slice(),
            self.memory.as_slice(),
            link,
            piece,
            self.output.as_mut_slice(),
        )?;
        Ok(&self.output[..n])
    }

    // What a link gives at its end; one whose end is refused is struck.
    fn end(&mut self, ticket: Ticket) -> Result<&[u8], Refusal> {
        // no `?`: a refusal brings the ticket back
        match self.bank.end(
            self.scratch.as_mut_slice(),
            self.memory.as_slice(),
            ticket,
            self.output.as_mut_slice(),
        ) {
            Ok(n) => Ok(&self.output[..n]),
            Err(Returned { refusal, ticket }) => {
                self.bank.strike(ticket);
                Err(refusal)
            }
        }
    }

    pub fn strike(&mut self, ticket: Ticket) {
        self.bank.strike(ticket);
    }

    fn put_all(&mut self, link: usize, pieces: &[&[u8]], given: &mut Vec<u8>) -> Result<(), Fault> {
        for piece in pieces {
            given.extend_from_slice(self.put(link, piece)?)?;
        }
        Ok(())
    }

    // What a link of its own gives for a message, from its open to its end.
    fn carry(&mut self, heap: Global, way: Way, message: &Message) -> Result<Vec<u8>, Fault> {
        let pieces = message.pieces(heap, way)?;
        let (key, start) = (message.key.as_slice(), message.start.as_slice());
        let mut given = Vec::new(heap);
        let ticket = self.open(way, message.mode, key, start)?;
        // no `?`: it would lose the ticket
        if let Err(fault) = self.put_all(ticket.link(), pieces.as_slice(), &mut given) {
            self.strike(ticket);
            return Err(fault);
        }
        given.extend_from_slice(self.end(ticket)?)?;
        Ok(given)
    }
}

// Two banks of one kit: the first has the sending links, the second the receiving ones.
#[derive(Drop)]
pub struct Pair<K> {
    sender: Set<K>,
    receiver: Set<K>,
}

impl<K: Kit + Copy> Pair<K> {
    fn of(heap: Global, kit: K) -> Result<Pair<K>, Fault> {
        Ok(Pair {
            sender: Set::of(heap, kit)?,
            receiver: Set::of(heap, kit)?,
        })
    }

    // Compares what is sent with the ciphertext, and what is heard of that with the text.
    fn hold(&mut self, heap: Global, message: &Message, tally: &mut Tally) -> Result<(), Fault> {
        let (text, due) = (message.text.as_slice(), message.due.as_slice());
        let sent = self.sender.carry(heap, Way::Forth, message)?;
        tally.hold(heap, Value::Message(Way::Forth), sent.as_slice(), due)?;
        let heard = self.receiver.carry(heap, Way::Back, message)?;
        tally.hold(heap, Value::Message(Way::Back), heard.as_slice(), text)
    }
}

// The banks of a cipher. Kits differ in the type of their width, so no `dyn Kit` stands for each of them.
#[derive(Drop)]
pub enum Banks {
    Mkv128(Pair<mkv::Mkv128>),
    Mkv256(Pair<mkv::Mkv256>),
    Aes(Pair<aes::Aes>),
}

impl Banks {
    pub fn of(heap: Global, cipher: Cipher) -> Result<Banks, Fault> {
        match cipher {
            Cipher::Mkv128 => Ok(Banks::Mkv128(Pair::of(heap, mkv::Mkv128)?)),
            Cipher::Mkv256 => Ok(Banks::Mkv256(Pair::of(heap, mkv::Mkv256)?)),
            Cipher::Aes => Ok(Banks::Aes(Pair::of(heap, aes::Aes)?)),
        }
    }

    pub fn hold(
        &mut self,
        heap: Global,
        message: &Message,
        tally: &mut Tally,
    ) -> Result<(), Fault> {
        match self {
            Banks::Mkv128(pair) => pair.hold(heap, message, tally),
            Banks::Mkv256(pair) => pair.hold(heap, message, tally),
            Banks::Aes(pair) => pair.hold(heap, message, tally),
        }
    }
}
