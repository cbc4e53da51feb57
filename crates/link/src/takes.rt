// How a link takes one byte, in each mode and direction.
// Promises the state after it and the bytes that it gives; E or D is called once a block.
// Rests on the blocks beside it.
ghost use Rattle.std.specs.Prelude.{◌≡◌, ◌<◌, ◌≤◌, length, take, drop, ◌≢◌, replicate};
ghost use Rattle.modes.specs.declared.Mode.TheVariants.{Cbc};
ghost use Rattle.modes.specs.declared.Direction.TheVariants.{Send, Receive};
ghost use Rattle.modes.specs.Machine.{rolled};
ghost use Rattle.link.specs.Record.{Fits, Clear, link};
ghost use Rattle.link.specs.Calls.{Took, link_due, link_pad};

use crate::Link;
use crate::blocks::{coded_byte, mix_byte, write_front};
use kit::Kit;
use modes::{Direction, Mode};

// Mode and direction stay premises, which the match in `take` gives: records of all modes have one layout, so no type could tell.
impl Link {
    // Takes a byte, as mode and direction say; answers how many bytes now stand at the front of `out`.
    pub(crate) fn take<K: Kit>(&mut self, kit: &K, schedule: &[u8], x: u8, out: &mut [u8]) -> usize
        requires fits { Fits self.old }
        requires room { length (link_due (K.Kit.meaning kit.now) schedule.now self.old x) ≤ length out.old }
        ensures took { Took (K.Kit.meaning kit.now) schedule.now self.old x out.old result self.new out.new }
        ensures clear { Clear self.old → Clear self.new }
    {
        // no closure or `dyn` for a step: the same match on the record's own mode would choose it
        match (self.mode, self.direction) {
            (Mode::Cbc, Direction::Send) => self.send_byte(kit, schedule, x, out),
            (Mode::Cbc, Direction::Receive) => self.receive_byte(kit, schedule, x, out),
            (Mode::Cfb | Mode::Ofb, _) => self.stream_byte(kit, schedule, x, out),
        }
    }

    // Sending CBC: a byte that fills the block gives its ciphertext.
    pub(crate) fn send_byte<K: Kit>(
        &mut self,
        kit: &K,
        schedule: &[u8],
        x: u8,
        out: &mut [u8],
    ) -> usize
        requires fits { Fits self.old }
        requires room { length (link_due (K.Kit.meaning kit.now) schedule.now self.old x) ≤ length out.old }
        requires cbc { self.old.mode ≡ Cbc }
        requires sends { self.old.direction ≡ Send }
        ensures took { Took (K.Kit.meaning kit.now) schedule.now self.old x out.old result self.new out.new }
        ensures clear { Clear self.old → Clear self.new }
    {
        self.held[self.count] = x;
        if self.count + 1 < self.width {
            self.count += 1;
            return 0;
        }
        let block = self.seal(kit, schedule, &self.held);
        write_front(out, &block[0..self.width]);
        self.chain = block;
        self.held = [0; 32];
        self.count = 0;
        self.width
    }

    // Receiving CBC: a byte after a whole block gives that block's text.
    pub(crate) fn receive_byte<K: Kit>(
        &mut self,
        kit: &K,
        schedule: &[u8],
        x: u8,
        out: &mut [u8],
    ) -> usize
        requires fits { Fits self.old }
        requires room { length (link_due (K.Kit.meaning kit.now) schedule.now self.old x) ≤ length out.old }
        requires cbc { self.old.mode ≡ Cbc }
        requires receives { self.old.direction ≡ Receive }
        ensures took { Took (K.Kit.meaning kit.now) schedule.now self.old x out.old result self.new out.new }
        ensures clear { Clear self.old → Clear self.new }
    {
        if self.count < self.width {
            self.held[self.count] = x;
            self.count += 1;
            return 0;
        }
        let text = self.unseal(kit, schedule);
        write_front(out, &text[0..self.width]);
        self.chain = self.held;
        self.held = [0; 32];
        self.held[0] = x;
        self.count = 1;
        self.width
    }

    // CFB and OFB: at a block's first byte its pad takes the chain block's place.
    fn begin_block<K: Kit>(&mut self, kit: &K, schedule: &[u8])
        requires { Fits self.old }
        ensures pad { take self.old.width self.new.chain ≡ link_pad (K.Kit.meaning kit.now) schedule.now self.old }
        ensures beyond { drop self.old.width self.new.chain ≡ drop self.old.width self.old.chain }
        ensures rest { self.new ≡ link self.old self.new.chain self.old.held self.old.count }
    {
        if self.count == 0 {
            self.chain = self.pad(kit, schedule);
        }
    }

    // CFB and OFB: of a block's pad and its ciphertext, the mode's is the block before the next one.
    fn roll(&mut self)
        ensures { self.new ≡ link self.old (rolled self.old.mode self.old.chain self.old.held) (replicate 32 0) 0 }
    {
        if self.mode != Mode::Ofb {
            self.chain = self.held;
        }
        self.held = [0; 32];
        self.count = 0;
    }

    // CFB and OFB: each byte is given as it comes.
    pub(crate) fn stream_byte<K: Kit>(
        &mut self,
        kit: &K,
        schedule: &[u8],
        x: u8,
        out: &mut [u8],
    ) -> usize
        requires fits { Fits self.old }
        requires room { length (link_due (K.Kit.meaning kit.now) schedule.now self.old x) ≤ length out.old }
        requires streams { self.old.mode ≢ Cbc }
        ensures took { Took (K.Kit.meaning kit.now) schedule.now self.old x out.old result self.new out.new }
        ensures clear { Clear self.old → Clear self.new }
    {
        self.begin_block(kit, schedule);
        let y = mix_byte(self.direction, x, self.chain[self.count]);
        out[0] = y;
        self.held[self.count] = coded_byte(self.direction, y, x);
        if self.count + 1 < self.width {
            self.count += 1;
            return 1;
        }
        self.roll();
        1
    }
}
