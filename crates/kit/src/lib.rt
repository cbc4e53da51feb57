// The interface of block ciphers: a kit, its width, and what each of its calls answers.
// Promises over a kit's meaning alone which refusal each call tells, first due first, and what its buffer then holds.
// Rests on the reasons of crate refusal and the bytes of crate block.
#![tactic(auto)]

ghost use Rattle.std.specs.Prelude.{◌≡◌, ℕ, ◌≤◌, ◌⊎◌, Ok};
ghost use Rattle.refusal.specs.Checks.{first, refusal};
ghost use Rattle.kit.specs.Meaning.{Meaning, Sound, AgreeBack};
ghost use Rattle.kit.specs.Calls.{told, expand_checks, expand_refusal, cipher_refusal, expanded, enciphered, deciphered};
ghost use Rattle.std.proofs.Common.{rules};

use refusal::Refusal;

// The bytes of a block, 16 or 32, as a type.
pub trait Width {
    // for the length of an array of a caller's; code over any width asks `width()`
    const BYTES: usize;

    // of the same name, so that each `impl` is held to its constant too
    ghost BYTES: { ℕ };

    fn width() -> usize
        ensures { result ≡ BYTES };

    ghost one: { (BYTES ≡ 16) ⊎ (BYTES ≡ 32) };
}

// Two types, with an impl each: a type over a const parameter would have every width, and no bound rules the others out.

// Blocks of 16 bytes.
#[derive(Clone, Copy)]
pub struct Narrow;

// Blocks of 32 bytes.
#[derive(Clone, Copy)]
pub struct Wide;

impl Width for Narrow {
    const BYTES: usize = 16;

    ghost BYTES = { 16 };

    ghost one = { Prim.search rules };

    fn width() -> usize {
        Self::BYTES
    }
}

impl Width for Wide {
    const BYTES: usize = 32;

    ghost BYTES = { 32 };

    ghost one = { Prim.search rules };

    fn width() -> usize {
        Self::BYTES
    }
}

// A block cipher with all its key lengths. Keys, schedules and blocks are bytes of the caller's.
// A schedule and its key's length stay two arguments: of a struct of both each clause would say
// `schedule.now.key schedule.now.bytes.now`, and each caller would build one.
pub trait Kit {
    type Width: Width;

    ghost meaning: { Self → Meaning };

    // The cells of 16 bytes that a key of `len` bytes needs.
    fn need(&self, len: usize) -> Result<usize, Refusal>
        ensures { result ≡ told ((meaning self.now).need len) };

    // Writes the schedule of `key`.
    fn expand(&self, key: &[u8], schedule: &mut [u8]) -> Result<(), Refusal>
        ensures outcome { refusal result ≡ expand_refusal (meaning self.now) key.now schedule.old }
        ensures written { schedule.new ≡ expanded (meaning self.now) key.now schedule.old };

    // Enciphers `block` in place under a key length and a schedule.
    fn encipher(&self, len: usize, schedule: &[u8], block: &mut [u8]) -> Result<(), Refusal>
        ensures outcome { refusal result ≡ cipher_refusal (meaning self.now) len schedule.now block.old }
        ensures written { block.new ≡ enciphered (meaning self.now) len schedule.now block.old };

    // Deciphers `block` in place under a key length and a schedule.
    fn decipher(&self, len: usize, schedule: &[u8], block: &mut [u8]) -> Result<(), Refusal>
        ensures outcome { refusal result ≡ cipher_refusal (meaning self.now) len schedule.now block.old }
        ensures written { block.new ≡ deciphered (meaning self.now) len schedule.now block.old };

    ghost width: { (k : Self) → (meaning k).width ≡ Self.Width.Width.BYTES };

    ghost sound: { (k : Self) → Sound (meaning k) };
}

// The bytes of a block: what the type says of the width, said of the kit's meaning.
pub fn width_of<K: Kit>(kit: &K) -> usize
    ensures is { result ≡ (K.Kit.meaning kit.now).width }
    ensures small { result ≤ 32 }
{
    K::Width::width()
}

// Whether a schedule of `size` bytes has so many cells.
pub fn fitting(cells: usize, size: usize) -> Result<(), Refusal>
    ensures { refusal result ≡ first (expand_checks (Ok cells) size) }
{
    if cells.checked_mul(16) != Some(size) {
        return Err(Refusal::Block);
    }
    Ok(())
}

// Two kits whose widths are one type have one width; and where they agree on a key, they decipher alike under it.
pub fn same_width<A: Kit, B: Kit<Width = A::Width>>(a: &A, b: &B) -> usize
    ensures first { result ≡ (A.Kit.meaning a.now).width }
    ensures second { result ≡ (B.Kit.meaning b.now).width }
    ensures agree { AgreeBack (A.Kit.meaning a.now) (B.Kit.meaning b.now) }
{
    A::Width::width()
}
