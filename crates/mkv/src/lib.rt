// The block cipher MKV in its six versions: two kits, of 16 and of 32 bytes, over one text.
// Promises each kit the standard's cipher as its meaning, refusals included, and every step of a round by itself.
// Rests on the interface of crate kit, the products of crate field, and the XOR and the substitution of crate block.
#![tactic(auto)]

ghost use Rattle.std.specs.Prelude.{◌≡◌, ◌*◌, length};
ghost use Rattle.refusal.specs.Checks.{first, refusal};
ghost use Rattle.block.specs.Table.{sub};
ghost use Rattle.kit.specs.Calls.{told, unless, expand_refusal, cipher_refusal, expanded, enciphered, deciphered};
ghost use Rattle.mkv.specs.Tables.{Tables};
ghost use Rattle.mkv.specs.Trace.{stepped, forth, stepped_at, at_width, at_width_back, step_checks, StepsMakeRounds};
ghost use Rattle.mkv.specs.Meant.{meant};
ghost use Rattle.mkv.specs.Versions.{rounds as rounds_of, need as needed, mkv_128, mkv_256, KeyExpansion};
ghost use Rattle.field.specs.Known.{m4, m8};
ghost use Rattle.mkv.specs.Widths.{sound_128, sound_256};
ghost use Rattle.std.proofs.Common.{rules};

use block::{substitute, xor_whole};
use kit::{Kit, Narrow, Wide, fitting};
use refusal::{KeyFault, Refusal};
use round::{mix_words, run_rounds, undo_rounds, x_words};
use schedule::write_schedule;
use tables::{BACK, FORTH, Matrix, NARROW, Version, WIDE, Way};

mod round;
mod schedule;
mod tables;

// Two impls that hand on to one text: a single impl, for a type over T, would need a trait for the width, the matrices and their laws,
// with two impls of its own.

// The kit of blocks of 16 bytes; keys of 16, 24 or 32 bytes.
#[derive(Clone, Copy)]
pub struct Mkv128;

// The kit of blocks of 32 bytes; keys of 32, 48 or 64 bytes.
#[derive(Clone, Copy)]
pub struct Mkv256;

#[tactic(auto, unfolding(field::specs::Known::m4, field::specs::Known::m4_inverse))]
impl Kit for Mkv128 {
    type Width = Narrow;

    ghost meaning = { λ _. mkv_128 };

    ghost width = { Prim.search rules };

    ghost sound = { λ k. sound_128 };

    fn need(&self, len: usize) -> Result<usize, Refusal> {
        NARROW.need(len)
    }

    fn expand(&self, key: &[u8], schedule: &mut [u8]) -> Result<(), Refusal> {
        NARROW.expand(key, schedule)
    }

    fn encipher(&self, len: usize, schedule: &[u8], block: &mut [u8]) -> Result<(), Refusal> {
        NARROW.encipher(len, schedule, block)
    }

    fn decipher(&self, len: usize, schedule: &[u8], block: &mut [u8]) -> Result<(), Refusal> {
        NARROW.decipher(len, schedule, block)
    }
}

#[tactic(auto, unfolding(field::specs::Known::m8, field::specs::Known::m8_inverse))]
impl Kit for Mkv256 {
    type Width = Wide;

    ghost meaning = { λ _. mkv_256 };

    ghost width = { Prim.search rules };

    ghost sound = { λ k. sound_256 };

    fn need(&self, len: usize) -> Result<usize, Refusal> {
        WIDE.need(len)
    }

    fn expand(&self, key: &[u8], schedule: &mut [u8]) -> Result<(), Refusal> {
        WIDE.expand(key, schedule)
    }

    fn encipher(&self, len: usize, schedule: &[u8], block: &mut [u8]) -> Result<(), Refusal> {
        WIDE.encipher(len, schedule, block)
    }

    fn decipher(&self, len: usize, schedule: &[u8], block: &mut [u8]) -> Result<(), Refusal> {
        WIDE.decipher(len, schedule, block)
    }
}

// The calls of both kits.
impl<const T: usize> Version<T> {
    // The rounds for a key of `len` bytes, by its words.
    fn rounds(&self, len: usize) -> Option<usize>
        ensures { result ≡ rounds_of T len }
    {
        match (len / T, len % T) {
            (4, 0) => Some(6),
            (6, 0) => Some(7),
            (8, 0) => Some(8),
            _ => None,
        }
    }

    // The cells for a key of `len` bytes.
    fn need(&self, len: usize) -> Result<usize, Refusal>
        ensures { result ≡ told (needed T len) }
    {
        let rounds = self.rounds(len).ok_or(KeyFault::here(len))?;
        Ok((2 * rounds + 1) * (T / 4))
    }

    // Writes the schedule of `key`.
    fn expand(&self, key: &[u8], schedule: &mut [u8]) -> Result<(), Refusal>
        ensures outcome { refusal result ≡ expand_refusal (meant T self.now) key.now schedule.old }
        ensures written { schedule.new ≡ expanded (meant T self.now) key.now schedule.old }
    {
        fitting(self.need(key.len())?, schedule.len())?;
        write_schedule(&self.matrix, key, schedule);
        Ok(())
    }

    // Not one function with `decipher`: matrix and rounds would be its arguments, and its promise would switch between two meanings.
    fn encipher(&self, len: usize, schedule: &[u8], block: &mut [u8]) -> Result<(), Refusal>
        ensures outcome { refusal result ≡ cipher_refusal (meant T self.now) len schedule.now block.old }
        ensures written { block.new ≡ enciphered (meant T self.now) len schedule.now block.old }
    {
        fitting(self.need(len)?, schedule.len())?;
        if block.len() != 4 * T {
            return Err(Refusal::Block);
        }
        run_rounds(&self.matrix, schedule, block);
        Ok(())
    }

    fn decipher(&self, len: usize, schedule: &[u8], block: &mut [u8]) -> Result<(), Refusal>
        ensures outcome { refusal result ≡ cipher_refusal (meant T self.now) len schedule.now block.old }
        ensures written { block.new ≡ deciphered (meant T self.now) len schedule.now block.old }
    {
        fitting(self.need(len)?, schedule.len())?;
        if block.len() != 4 * T {
            return Err(Refusal::Block);
        }
        undo_rounds(&self.inverse, schedule, block);
        Ok(())
    }
}

// The steps of a round; SubCells comes twice.
#[derive(Clone, Copy, PartialEq, Eq, Debug)]
pub enum Step {
    // XOR with A, the first half of the round key
    XorA,
    SubCells,
    MixWords,
    // XOR with B, the second half
    XorB,
    XWords,
}

// The steps of a round, in order.
pub fn round_steps() -> [Step; 6]
    ensures { result ≡ forth }
{
    use Step::{MixWords, SubCells, XWords, XorA, XorB};
    [XorA, SubCells, MixWords, XorB, SubCells, XWords]
}

// One step of the round, or of the round undone, by the table and the matrix of that way.
// A match, not closures: callers name and list the steps as values, and this is the one place that runs them.
#[tactic(auto, unfolding(crate::specs::Steps::half_a, crate::specs::Steps::half_b))]
fn step_with<const T: usize>(
    table: &[u8; 256],
    m: &Matrix<T>,
    step: Step,
    key: &[u8],
    block: &mut [u8],
)
    requires two { length key.now ≡ 8 * T }
    requires width { length block.old ≡ 4 * T }
    ensures { block.new ≡ stepped table.now T m.now.rows step key.now block.old }
{
    let (a, b) = key.split_at(4 * T);
    match step {
        Step::XorA => xor_whole(block, a),
        Step::SubCells => substitute(table, block),
        Step::MixWords => mix_words(m, block),
        Step::XorB => xor_whole(block, b),
        Step::XWords => x_words::<T>(block),
    }
}

impl Way {
    // One step at the width that the block has.
    fn step(&self, step: Step, key: &[u8], block: &mut [u8]) -> Result<(), Refusal>
        ensures outcome { refusal result ≡ first (step_checks (length key.now) (length block.old)) }
        ensures written { block.new ≡ unless (first (step_checks (length key.now) (length block.old))) (stepped_at self.now.table self.now.narrow.rows self.now.wide.rows step key.now block.old) block.old }
    {
        if key.len() / 2 != block.len() || key.len() % 2 != 0 {
            return Err(Refusal::Block);
        }
        match block.len() {
            16 => step_with(&self.table, &self.narrow, step, key, block),
            32 => step_with(&self.table, &self.wide, step, key, block),
            _ => return Err(Refusal::Block),
        }
        Ok(())
    }
}

// One step of the round with a key of two blocks, at the width that the block has. Each direction promises the checks by itself.
#[tactic(auto, unfolding(crate::specs::Tables::s, field::specs::Known::m4, field::specs::Known::m8))]
pub fn apply_step(step: Step, key: &[u8], block: &mut [u8]) -> Result<(), Refusal>
    ensures outcome { refusal result ≡ first (step_checks (length key.now) (length block.old)) }
    ensures written { block.new ≡ unless (first (step_checks (length key.now) (length block.old))) (at_width step key.now block.old) block.old }
{
    FORTH.step(step, key, block)
}

// One step of the round undone.
#[tactic(auto, unfolding(crate::specs::Tables::s_inverse, field::specs::Known::m4_inverse, field::specs::Known::m8_inverse))]
pub fn undo_step(step: Step, key: &[u8], block: &mut [u8]) -> Result<(), Refusal>
    ensures outcome { refusal result ≡ first (step_checks (length key.now) (length block.old)) }
    ensures written { block.new ≡ unless (first (step_checks (length key.now) (length block.old))) (at_width_back step key.now block.old) block.old }
{
    BACK.step(step, key, block)
}

// The two tables lead back from one another, at every byte; the steps make up the round, and the round undone; and the schedule of
// every key follows the rule of the updates, at both widths.
pub fn mkv_stands()
    ensures tables { Tables }
    ensures rounds { StepsMakeRounds }
    ensures keys { KeyExpansion 4 m4 mkv_128 × KeyExpansion 8 m8 mkv_256 }
{}
