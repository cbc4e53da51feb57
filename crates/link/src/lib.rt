// One radio link's record and its steps, over any kit: it takes text or ciphertext in pieces and gives its mode's bytes.
// Promises, for every schedule, which bytes a piece and the end give, the record that is left, and each refusal.
// Rests on the machine and the laws of crate modes, and on the calls of crate kit.
#![tactic(auto)]

ghost use Rattle.std.specs.Prelude.{◌≡◌, ℕ, ◌<◌, ◌≤◌, List, length};
ghost use Rattle.kit.specs.Meaning.{Meaning};
ghost use Rattle.modes.specs.Machine.{due_count, opened as opens};
ghost use Rattle.link.specs.Record.{view, Fits, Clear, closed as zeros, begun};
ghost use Rattle.link.specs.Calls.{Room, Stepped, Fed, Puts, Ends, Gives, link_given};

mod blocks;
mod ends;
mod takes;

use kit::Kit;
use modes::{Direction, Mode};
use refusal::Refusal;

// The bytes of the longest piece.
const LONGEST: usize = 4096;

// The record of a link. Closing writes zeros over all of it, so closed ones are records too: a flag and no Option, arrays with
// how much of them counts beside, and no invariant that a block has bytes, which would leave each call to ask `1 ≤ width`.
#[derive(Clone, Copy)]
pub struct Link {
    pub open: bool,
    pub mode: Mode,
    pub direction: Direction,
    // the length of its key
    pub key: usize,
    // the bytes of a block
    pub width: usize,
    // the block before the one to come; in CFB and OFB, once that one has begun, its pad
    pub chain: [u8; 32],
    // the bytes of the block that has begun, and how many
    pub held: [u8; 32],
    pub count: usize,
}

// What a link is asked: to take one byte, or to end.
#[derive(Clone, Copy)]
pub enum Call {
    Byte(u8),
    End,
}

// Kit and schedule stay two parameters: of a struct of both each clause would say `cipher.entry.kit.now`, and callers would build it.
impl Link {
    // A closed record, all zeros.
    pub fn closed() -> Link
        ensures { result ≡ zeros }
    {
        Link {
            open: false,
            mode: Mode::Cbc,
            direction: Direction::Send,
            key: 0,
            width: 0,
            chain: [0; 32],
            held: [0; 32],
            count: 0,
        }
    }

    // A link that begins with the start block, which tells its width.
    pub fn opened(mode: Mode, direction: Direction, key: usize, start: &[u8]) -> Link
        requires some { 1 ≤ length start.now }
        requires thin { length start.now ≤ 32 }
        ensures record { result ≡ begun mode direction key (length start.now) start.now }
        ensures state { view result ≡ opens start.now }
        ensures fits { Fits result }
        ensures clear { Clear result }
    {
        let mut chain = [0; 32];
        chain[0..start.len()].copy_from_slice(start);
        Link {
            open: true,
            mode,
            direction,
            key,
            width: start.len(),
            chain,
            held: [0; 32],
            count: 0,
        }
    }

    // How many bytes a piece of n bytes gives; a receiving CBC link gives a block when one more byte comes.
    pub fn due_count(&self, n: usize) -> usize
        requires fits { Fits self.now }
        requires short { n ≤ 4096 }
        ensures count { result ≡ due_count self.now.mode self.now.direction self.now.width self.now.count n }
        ensures gives { Gives self.now n result }
    {
        // no closure for a count: the same match on the record's own mode would choose it
        match (self.mode, self.direction) {
            (Mode::Cbc, Direction::Send) => (self.count + n) / self.width * self.width,
            (Mode::Cbc, Direction::Receive) => (self.count + n).saturating_sub(1) / self.width
                * self.width,
            (Mode::Cfb | Mode::Ofb, _) => n,
        }
    }

    // The link steps in place, as its mode and direction say for the call; answers how many bytes now stand at the front of `out`.
    pub fn step<K: Kit>(
        &mut self,
        kit: &K,
        schedule: &[u8],
        call: Call,
        out: &mut [u8],
    ) -> Result<usize, Refusal>
        requires fits { Fits self.old }
        requires room { Room (K.Kit.meaning kit.now) schedule.now self.old call (length out.old) }
        ensures { Stepped (K.Kit.meaning kit.now) schedule.now self.old call out.old result self.new out.new }
    {
        // no closure or `dyn` for a step: the same match on the record's own mode would choose it
        match (self.mode, self.direction, call) {
            // a piece is taken without this arm; it stays, since a step is any call
            (_, _, Call::Byte(x)) => Ok(self.take(kit, schedule, x, out)),
            (Mode::Cbc, Direction::Send, Call::End) => self.send_end(kit, schedule, out),
            (Mode::Cbc, Direction::Receive, Call::End) => self.receive_end(kit, schedule, out),
            (Mode::Cfb | Mode::Ofb, _, Call::End) => Ok(0),
        }
    }

    // Takes a piece, byte after byte; answers how many bytes it gave.
    fn feed<K: Kit>(&mut self, kit: &K, schedule: &[u8], piece: &[u8], out: &mut [u8]) -> usize
        requires fits { Fits self.old }
        requires room { length (link_given (K.Kit.meaning kit.now) schedule.now self.old piece.now) ≤ length out.old }
        ensures fed { Fed (K.Kit.meaning kit.now) schedule.now self.old piece.now out.old result self.new out.new }
        ensures clear { Clear self.old → Clear self.new }
    {
        let mut at = 0;
        for x in piece {
            at += self.take(kit, schedule, *x, &mut out[at..]);
        }
        at
    }

    // Takes a piece: the bytes that it gives stand at the front of `out`, which holds the rest as before.
    pub fn put<K: Kit>(
        &mut self,
        kit: &K,
        schedule: &[u8],
        piece: &[u8],
        out: &mut [u8],
    ) -> Result<usize, Refusal>
        requires { Fits self.old }
        ensures puts { Puts (K.Kit.meaning kit.now) schedule.now self.old piece.now out.old result self.new out.new }
        ensures clear { Clear self.old → Clear self.new }
    {
        if piece.len() > LONGEST {
            return Err(Refusal::Piece);
        }
        if out.len() < self.due_count(piece.len()) {
            return Err(Refusal::Output);
        }
        Ok(self.feed(kit, schedule, piece, out))
    }

    // Ends the link: its last bytes stand at the front of `out`, which holds the rest as before.
    pub fn end<K: Kit>(&self, kit: &K, schedule: &[u8], out: &mut [u8]) -> Result<usize, Refusal>
        requires { Fits self.now }
        ensures { Ends (K.Kit.meaning kit.now) schedule.now self.now out.old result out.new }
    {
        // on a copy: a step writes in place, and an end leaves the record for its caller to close
        let mut link = *self;
        link.step(kit, schedule, Call::End, out)
    }
}
