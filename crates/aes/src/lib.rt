// The block cipher AES as a kit: blocks of 16 bytes, keys of 16, 24 or 32.
// Promises the standard's cipher as its meaning, refusals included, and every step of a round by itself.
// Rests on the interface of crate kit, the products of crate field, and the XOR and the substitution of crate block.
#![tactic(auto)]

ghost use Rattle.std.specs.Prelude.{◌≡◌, ◌+◌, ◌*◌, length, IfOk, Some};
ghost use Rattle.refusal.specs.Checks.{first, refusal};
ghost use Rattle.kit.specs.Calls.{unless};
ghost use Rattle.aes.specs.Tables.{Tables};
ghost use Rattle.aes.specs.Trace.{forward, backward, step_checks, StepsMakeRounds};
ghost use Rattle.aes.specs.Versions.{rounds as rounds_of, aes, KeyExpansion};
ghost use Rattle.aes.specs.Sound;
ghost use Rattle.std.proofs.Common.{rules};

use kit::{Kit, Narrow, fitting};
use refusal::{KeyFault, Refusal};
use round::{
    add_round_key, inv_mix_columns, inv_shift_rows, inv_sub_bytes, mix_columns, run_rounds,
    shift_rows, sub_bytes, undo_rounds,
};
use schedule::write_schedule;

mod round;
mod schedule;
mod tables;

// The kit of AES. The interface asks for both directions, each with the checks that it promises.
#[derive(Clone, Copy)]
pub struct Aes;

impl Kit for Aes {
    type Width = Narrow;

    ghost meaning = { λ _. aes };

    ghost width = { Prim.search rules };

    ghost sound = { λ k. Sound.sound };

    fn need(&self, len: usize) -> Result<usize, Refusal> {
        let rounds = rounds_for(len).ok_or(KeyFault::here(len))?;
        Ok(rounds + 1)
    }

    fn expand(&self, key: &[u8], schedule: &mut [u8]) -> Result<(), Refusal> {
        fitting(self.need(key.len())?, schedule.len())?;
        write_schedule(key, schedule);
        Ok(())
    }

    fn encipher(&self, len: usize, schedule: &[u8], block: &mut [u8]) -> Result<(), Refusal> {
        fitting(self.need(len)?, schedule.len())?;
        let block = block.as_mut_array().ok_or(Refusal::Block)?;
        run_rounds(schedule, block);
        Ok(())
    }

    fn decipher(&self, len: usize, schedule: &[u8], block: &mut [u8]) -> Result<(), Refusal> {
        fitting(self.need(len)?, schedule.len())?;
        let block = block.as_mut_array().ok_or(Refusal::Block)?;
        undo_rounds(schedule, block);
        Ok(())
    }
}

// The rounds for a key of `len` bytes.
fn rounds_for(len: usize) -> Option<usize>
    ensures { result ≡ rounds_of len }
{
    match len {
        16 => Some(10),
        24 => Some(12),
        32 => Some(14),
        _ => None,
    }
}

// The steps of a round. A caller names one as data, so each direction below matches on it, and looks at key and block as it promises.
// Not one step over a struct of table, turn and matrix: each arm names a step by the standard's name.
#[derive(Clone, Copy, PartialEq, Eq, Debug)]
pub enum Step {
    SubBytes,
    ShiftRows,
    MixColumns,
    AddRoundKey,
}

// One step of a round with a round key, of which AddRoundKey alone makes use.
pub fn apply_step(step: Step, key: &[u8], block: &mut [u8]) -> Result<(), Refusal>
    ensures outcome { refusal result ≡ first (step_checks (length key.now) (length block.old)) }
    ensures written { block.new ≡ unless (first (step_checks (length key.now) (length block.old))) (forward step key.now block.old) block.old }
{
    let key = key.as_array().ok_or(Refusal::Block)?;
    let block = block.as_mut_array().ok_or(Refusal::Block)?;
    match step {
        Step::SubBytes => sub_bytes(block),
        Step::ShiftRows => shift_rows(block),
        Step::MixColumns => mix_columns(block),
        Step::AddRoundKey => add_round_key(block, key),
    }
    Ok(())
}

// One step undone.
pub fn undo_step(step: Step, key: &[u8], block: &mut [u8]) -> Result<(), Refusal>
    ensures outcome { refusal result ≡ first (step_checks (length key.now) (length block.old)) }
    ensures written { block.new ≡ unless (first (step_checks (length key.now) (length block.old))) (backward step key.now block.old) block.old }
{
    let key = key.as_array().ok_or(Refusal::Block)?;
    let block = block.as_mut_array().ok_or(Refusal::Block)?;
    match step {
        Step::SubBytes => inv_sub_bytes(block),
        Step::ShiftRows => inv_shift_rows(block),
        Step::MixColumns => inv_mix_columns(block),
        Step::AddRoundKey => add_round_key(block, key),
    }
    Ok(())
}

// The tables follow their rule at every byte, the steps make up the rounds, and a key's schedule follows the rule of its words.
pub fn aes_stands()
    ensures tables { Tables }
    ensures rounds { StepsMakeRounds }
    ensures keys { KeyExpansion }
{}
