// The cascade of two kits of one width: the second enciphers what the first gives.
// Promises the joined meaning of the two kits, for every pair of kits.
// Rests on the answers of the crate's root.
ghost use Rattle.std.specs.Prelude.{◌≡◌, ◌≤◌, length, IfOk};
ghost use Rattle.refusal.specs.Checks.{refusal};
ghost use Rattle.layers.specs.Depth.{due_of_schedule, due_of_block};
ghost use Rattle.layers.specs.Cascaded.{bytes_of, cascaded, Parted, Cascades};
ghost use Rattle.layers.specs.CascadesLemmas.{sound_cascaded};
ghost use Rattle.std.proofs.Common.{rules, sym, ◌∙◌};

use crate::{bounded, risen};
use kit::{Kit, fitting, width_of};
use refusal::{KeyFault, Refusal};

// Two kits; the first `split` bytes of a key go to the first, the rest to the second.
#[derive(Clone, Copy)]
pub struct Cascade<A, B> {
    first: A,
    second: B,
    split: usize,
}

// A joined schedule in its parts, with the key length for the second kit.
#[derive(Clone, Copy)]
struct Parts<'a> {
    rest: usize,
    first: &'a [u8],
    second: &'a [u8],
}

impl<A: Kit, B: Kit<Width = A::Width>> Cascade<A, B> {
    // `first`, for keys of `split` bytes, and then `second`. At 0 bytes, or above 256, it takes no key.
    pub fn of(first: A, split: usize, second: B) -> Self
        ensures parts { (result.first ≡ first) × (result.second ≡ second) × (result.split ≡ split) }
        ensures law { Cascades split (A.Kit.meaning first) (B.Kit.meaning second) (cascaded result.split (A.Kit.meaning result.first) (B.Kit.meaning result.second)) }
    {
        Cascade {
            first,
            second,
            split,
        }
    }

    // Where the second's schedule begins in one of `size` bytes, or the refusal that is due.
    fn end_of_first(&self, len: usize, size: usize) -> Result<usize, Refusal>
        ensures outcome { refusal result ≡ due_of_schedule (cascaded self.now.split (A.Kit.meaning self.now.first) (B.Kit.meaning self.now.second)) len size }
        ensures end { IfOk result (λ end. end ≡ bytes_of ((A.Kit.meaning self.now.first).need self.now.split)) }
        ensures within { IfOk result (λ end. (end ≤ size) × (self.now.split ≤ len)) }
    {
        fitting(self.need(len)?, size)?;
        let ours = self.first.need(self.split)?;
        Ok(16 * ours)
    }

    // The parts of a schedule for a block of `block` bytes, or the refusal that is due.
    fn parts<'a>(&self, len: usize, schedule: &'a [u8], block: usize) -> Result<Parts<'a>, Refusal>
        ensures outcome { refusal result ≡ due_of_block (cascaded self.now.split (A.Kit.meaning self.now.first) (B.Kit.meaning self.now.second)) len (length schedule.now) block }
        ensures parts { IfOk result (λ p. Parted self.now.split (A.Kit.meaning self.now.first) len schedule.now p.rest p.first.now p.second.now) }
    {
        let end = self.end_of_first(len, schedule.len())?;
        if block != width_of(&self.first) {
            return Err(Refusal::Block);
        }
        let (first, second) = schedule.split_at(end);
        Ok(Parts {
            rest: len - self.split,
            first,
            second,
        })
    }
}

// The interface asks for both directions; each takes the two ciphers in its own order.
impl<A: Kit, B: Kit<Width = A::Width>> Kit for Cascade<A, B> {
    type Width = A::Width;

    ghost meaning = { λ k. cascaded k.split (A.Kit.meaning k.first) (B.Kit.meaning k.second) };

    ghost width = { Prim.search rules };

    ghost sound = { λ k. sound_cascaded k.split (A.Kit.meaning k.first) (B.Kit.meaning k.second) (A.Kit.sound k.first) (B.Kit.sound k.second) (B.Kit.width k.second ∙ sym (A.Kit.width k.first)) };

    fn need(&self, len: usize) -> Result<usize, Refusal> {
        let rest = len.checked_sub(self.split).ok_or(KeyFault::here(len))?;
        let ours = risen(self.first.need(self.split))?;
        let others = risen(self.second.need(rest))?;
        bounded(len, ours + others)
    }

    fn expand(&self, key: &[u8], schedule: &mut [u8]) -> Result<(), Refusal> {
        let end = self.end_of_first(key.len(), schedule.len())?;
        let (ours, others) = key.split_at(self.split);
        let (first, second) = schedule.split_at_mut(end);
        self.first.expand(ours, first)?;
        self.second.expand(others, second)
    }

    fn encipher(&self, len: usize, schedule: &[u8], block: &mut [u8]) -> Result<(), Refusal> {
        let parts = self.parts(len, schedule, block.len())?;
        self.first.encipher(self.split, parts.first, block)?;
        self.second.encipher(parts.rest, parts.second, block)
    }

    fn decipher(&self, len: usize, schedule: &[u8], block: &mut [u8]) -> Result<(), Refusal> {
        let parts = self.parts(len, schedule, block.len())?;
        self.second.decipher(parts.rest, parts.second, block)?;
        self.first.decipher(self.split, parts.first, block)
    }
}
