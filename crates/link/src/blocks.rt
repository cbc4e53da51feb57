// Blocks in arrays of 32 bytes, of which the first `width` count: CBC's two ways, and bytes at the front of an output.
// Promises what each block then holds, for every schedule.
// Rests on the kit's calls and on the joining of crate modes.
ghost use Rattle.std.specs.Prelude.{◌≡◌, ◌≤◌, length, take, drop};
ghost use Rattle.block.specs.Bytes.{Bytes};
ghost use Rattle.kit.specs.Calls.{enciphered, deciphered};
ghost use Rattle.modes.specs.Join.{join, part};
ghost use Rattle.modes.specs.Machine.{cipher_byte};
ghost use Rattle.link.specs.Record.{mixed_byte};
ghost use Rattle.link.specs.Calls.{overwritten};

use crate::Link;
use kit::Kit;
use modes::Direction;
use modes::join::{join_byte, join_into, part_byte, part_into};

// Does nothing: tells a caller's proof that what a slice of bytes holds are bytes, which generic code does not see in a record.
pub fn are_bytes(xs: &[u8])
    ensures { Bytes xs.now }
{
    let _none = xs.is_empty();
}

// The bytes of `src` at the front of `out`.
pub fn write_front(out: &mut [u8], src: &[u8])
    requires { length src.now ≤ length out.old }
    ensures { out.new ≡ overwritten out.old src.now }
{
    out[0..src.len()].copy_from_slice(src);
}

// That a width is at most 32 stays a premise: the fields are public, and an invariant would ask more of whoever builds a record.
// What the kit answers is let go: after a refusal the block stays as it was, and `enciphered` and `deciphered` say so.
// No one function of the three: they differ in what goes in, in the call, and in what is done before and after it.
impl Link {
    // E of a block of text joined with the block before.
    pub(crate) fn seal<K: Kit>(&self, kit: &K, schedule: &[u8], text: &[u8; 32]) -> [u8; 32]
        requires { self.now.width ≤ 32 }
        ensures block { take self.now.width result ≡ enciphered (K.Kit.meaning kit.now) self.now.key schedule.now (join (take self.now.width text.now) (take self.now.width self.now.chain)) }
        ensures beyond { drop self.now.width result ≡ drop self.now.width text.now }
    {
        let mut block = *text;
        let part = &mut block[0..self.width];
        join_into(part, &self.chain[0..self.width]);
        let _ = kit.encipher(self.key, schedule, part);
        block
    }

    // D of the block held, parted from the block before.
    pub(crate) fn unseal<K: Kit>(&self, kit: &K, schedule: &[u8]) -> [u8; 32]
        requires { self.now.width ≤ 32 }
        ensures { take self.now.width result ≡ part (deciphered (K.Kit.meaning kit.now) self.now.key schedule.now (take self.now.width self.now.held)) (take self.now.width self.now.chain) }
    {
        let mut block = self.held;
        let text = &mut block[0..self.width];
        let _ = kit.decipher(self.key, schedule, text);
        part_into(text, &self.chain[0..self.width]);
        block
    }

    // E of the chain block.
    pub(crate) fn pad<K: Kit>(&self, kit: &K, schedule: &[u8]) -> [u8; 32]
        requires { self.now.width ≤ 32 }
        ensures block { take self.now.width result ≡ enciphered (K.Kit.meaning kit.now) self.now.key schedule.now (take self.now.width self.now.chain) }
        ensures beyond { drop self.now.width result ≡ drop self.now.width self.now.chain }
    {
        let mut block = self.chain;
        let pad = &mut block[0..self.width];
        let _ = kit.encipher(self.key, schedule, pad);
        block
    }
}

// A byte joined with a byte of the pad, or parted from it.
pub fn mix_byte(direction: Direction, x: u8, pad: u8) -> u8
    ensures { result ≡ mixed_byte direction x pad }
{
    // a match: a closure passed in for a direction would be chosen by this same match
    match direction {
        Direction::Send => join_byte(x, pad),
        Direction::Receive => part_byte(x, pad),
    }
}

// Of the byte given and the byte taken, the ciphertext's.
pub fn coded_byte(direction: Direction, given: u8, taken: u8) -> u8
    ensures { result ≡ cipher_byte direction given taken }
{
    // a match between two values: nothing is called that could be passed in
    match direction {
        Direction::Send => given,
        Direction::Receive => taken,
    }
}
