// Whitening over a kit: the last two blocks of a key are XORed to what goes in and to what comes out.
// Promises the whitened meaning of the kit below, for every kit.
// Rests on the answers of the crate's root.
ghost use Rattle.std.specs.Prelude.{◌≡◌, ◌≤◌, length, IfOk};
ghost use Rattle.refusal.specs.Checks.{refusal};
ghost use Rattle.layers.specs.Depth.{due_of_block};
ghost use Rattle.layers.specs.Whitened.{white, whitened, Parted, Whitens};
ghost use Rattle.layers.specs.WhitensLemmas.{sound_whitened};
ghost use Rattle.std.proofs.Common.{rules};

use crate::{bounded, risen};
use block::xor_whole;
use kit::{Kit, fitting, width_of};
use refusal::{KeyFault, Refusal};

// A kit whose keys have two blocks a and b more: E'(x) = E(x + a) + b.
#[derive(Clone, Copy)]
pub struct Whitening<K> {
    inner: K,
}

// A schedule in its parts, with the key length for the kit below. Not one type with the cascade's parts:
// there stand two schedules, here one and two blocks, and each has a name of its own.
#[derive(Clone, Copy)]
struct Parts<'a> {
    rest: usize,
    inner: &'a [u8],
    a: &'a [u8],
    b: &'a [u8],
}

impl<K: Kit> Whitening<K> {
    // Whitening over `kit`.
    pub fn over(kit: K) -> Self
        ensures inner { result.inner ≡ kit }
        ensures law { Whitens (K.Kit.meaning kit) (whitened (K.Kit.meaning result.inner)) }
    {
        Whitening { inner: kit }
    }

    // The parts of a schedule for a block of `block` bytes, or the refusal that is due.
    fn parts<'a>(&self, len: usize, schedule: &'a [u8], block: usize) -> Result<Parts<'a>, Refusal>
        ensures outcome { refusal result ≡ due_of_block (whitened (K.Kit.meaning self.now.inner)) len (length schedule.now) block }
        ensures parts { IfOk result (λ p. Parted (K.Kit.meaning self.now.inner).width len schedule.now p.rest p.inner.now p.a.now p.b.now) }
        ensures whole { IfOk result (λ p. (length p.a.now ≡ block) × (length p.b.now ≡ block)) }
    {
        fitting(self.need(len)?, schedule.len())?;
        if block != width_of(&self.inner) {
            return Err(Refusal::Block);
        }
        let (inner, white) = schedule.split_at(schedule.len() - self.white());
        let (a, b) = white.split_at(block);
        Ok(Parts {
            rest: len - self.white(),
            inner,
            a,
            b,
        })
    }

    // The bytes of a and b together.
    fn white(&self) -> usize
        ensures is { result ≡ white (K.Kit.meaning self.now.inner) }
        ensures small { result ≤ 64 }
    {
        2 * width_of(&self.inner)
    }
}

// The interface asks for both directions; each XORs the two blocks in its own order.
impl<K: Kit> Kit for Whitening<K> {
    type Width = K::Width;

    ghost meaning = { λ k. whitened (K.Kit.meaning k.inner) };

    ghost width = { Prim.search rules };

    ghost sound = { λ k. sound_whitened (K.Kit.meaning k.inner) (K.Kit.sound k.inner) };

    fn need(&self, len: usize) -> Result<usize, Refusal> {
        let white = self.white();
        let rest = len.checked_sub(white).ok_or(KeyFault::here(len))?;
        let cells = risen(self.inner.need(rest))?;
        bounded(len, cells + white / 16)
    }

    fn expand(&self, key: &[u8], schedule: &mut [u8]) -> Result<(), Refusal> {
        fitting(self.need(key.len())?, schedule.len())?;
        let (rest, white) = key.split_at(key.len() - self.white());
        let (inner, end) = schedule.split_at_mut(schedule.len() - self.white());
        self.inner.expand(rest, inner)?;
        end.copy_from_slice(white);
        Ok(())
    }

    fn encipher(&self, len: usize, schedule: &[u8], block: &mut [u8]) -> Result<(), Refusal> {
        let parts = self.parts(len, schedule, block.len())?;
        xor_whole(block, parts.a);
        self.inner.encipher(parts.rest, parts.inner, block)?;
        xor_whole(block, parts.b);
        Ok(())
    }

    fn decipher(&self, len: usize, schedule: &[u8], block: &mut [u8]) -> Result<(), Refusal> {
        let parts = self.parts(len, schedule, block.len())?;
        xor_whole(block, parts.b);
        self.inner.decipher(parts.rest, parts.inner, block)?;
        xor_whole(block, parts.a);
        Ok(())
    }
}
