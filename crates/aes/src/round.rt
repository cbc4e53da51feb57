// The steps of AES on the state, and the rounds of a schedule, in both directions.
// Promises each step and run of rounds as the standard defines it.
// Rests on products of bytes (field) and on XOR and substitution (block).
ghost use Rattle.std.specs.Prelude.{◌≡◌, ◌+◌, ◌-◌, ◌*◌, ◌/◌, ◌≤◌, length};
ghost use Rattle.aes.specs.Steps.{moved, from_past, sub_bytes, inv_sub_bytes, shift_rows, inv_shift_rows, mix_columns, inv_mix_columns, add_round_key};
ghost use Rattle.aes.specs.Cipher.{round as one_round, last_round, inv_round, inv_last_round, encipher, decipher};

use crate::tables;
use block::{substitute, xor_whole};
use std::array;

// x^8 + x^4 + x^3 + x + 1, without x^8.
pub const POLY: u8 = 0x1B;

// The steps, each one call under the standard's name, with the table, the turn or the matrix of its direction.

#[tactic(auto, unfolding(crate::specs::Tables::s_box, crate::specs::Steps::sub_bytes))]
pub fn sub_bytes(block: &mut [u8; 16])
    ensures { block.new ≡ sub_bytes block.old }
{
    substitute(&tables::S_BOX, block);
}

#[tactic(auto, unfolding(crate::specs::Tables::s_box_inverse, crate::specs::Steps::inv_sub_bytes))]
pub fn inv_sub_bytes(block: &mut [u8; 16])
    ensures { block.new ≡ inv_sub_bytes block.old }
{
    substitute(&tables::S_BOX_INVERSE, block);
}

// Row r moved `by` times r places to the left, counted round; `by` is a byte, so that no product wraps.
fn turn_rows(by: u8, block: &mut [u8; 16])
    ensures { block.new ≡ moved (from_past by) block.old }
{
    let old = *block;
    *block = array::from_fn(|i| old[i % 4 + 4 * ((i / 4 + usize::from(by) * (i % 4)) % 4)]);
}

#[tactic(auto, unfolding(crate::specs::Steps::moved, crate::specs::Steps::shift_rows))]
pub fn shift_rows(block: &mut [u8; 16])
    ensures { block.new ≡ shift_rows block.old }
{
    turn_rows(1, block);
}

// Three places to the left are one to the right.
#[tactic(auto, unfolding(crate::specs::Steps::moved, crate::specs::Steps::inv_shift_rows))]
pub fn inv_shift_rows(block: &mut [u8; 16])
    ensures { block.new ≡ inv_shift_rows block.old }
{
    turn_rows(3, block);
}

#[tactic(auto, unfolding(field::specs::Known::mix_columns, crate::specs::Steps::mix_columns))]
pub fn mix_columns(block: &mut [u8; 16])
    ensures { block.new ≡ mix_columns block.old }
{
    field::apply_each(POLY, &tables::MIX_COLUMNS, block);
}

#[tactic(auto, unfolding(field::specs::Known::mix_columns_inverse, crate::specs::Steps::inv_mix_columns))]
pub fn inv_mix_columns(block: &mut [u8; 16])
    ensures { block.new ≡ inv_mix_columns block.old }
{
    field::apply_each(POLY, &tables::MIX_COLUMNS_INVERSE, block);
}

#[tactic(auto, unfolding(crate::specs::Steps::add_round_key))]
pub fn add_round_key(block: &mut [u8; 16], key: &[u8; 16])
    ensures { block.new ≡ add_round_key block.old key.now }
{
    xor_whole(block, key);
}

// Each round has an inverse with other steps in another order: one body for both would branch at every line.

#[tactic(auto, unfolding(crate::specs::Cipher::round))]
fn round(key: &[u8; 16], block: &mut [u8; 16])
    ensures { block.new ≡ one_round key.now block.old }
{
    sub_bytes(block);
    shift_rows(block);
    mix_columns(block);
    add_round_key(block, key);
}

// The last round has no MixColumns.
#[tactic(auto, unfolding(crate::specs::Cipher::last_round))]
fn last_round(key: &[u8; 16], state: &mut [u8; 16])
    ensures { state.new ≡ last_round key.now state.old }
{
    sub_bytes(state);
    shift_rows(state);
    add_round_key(state, key);
}

#[tactic(auto, unfolding(crate::specs::Cipher::inv_round))]
fn inv_round(key: &[u8; 16], block: &mut [u8; 16])
    ensures { block.new ≡ inv_round key.now block.old }
{
    inv_shift_rows(block);
    inv_sub_bytes(block);
    add_round_key(block, key);
    inv_mix_columns(block);
}

#[tactic(auto, unfolding(crate::specs::Cipher::inv_last_round))]
fn inv_last_round(key: &[u8; 16], state: &mut [u8; 16])
    ensures { state.new ≡ inv_last_round key.now state.old }
{
    inv_shift_rows(state);
    inv_sub_bytes(state);
    add_round_key(state, key);
}

// Round key 0, and then a round with each further round key, the last without MixColumns.
// By index and not by a pattern `[first, middle @ .., last]`, which would add a case that never comes.
pub fn run_rounds(schedule: &[u8], block: &mut [u8; 16])
    requires { 2 ≤ length schedule.now / 16 }
    ensures { block.new ≡ encipher (length schedule.now / 16 - 1) schedule.now block.old }
{
    let (keys, _) = schedule.as_chunks::<16>();
    let last = keys.len() - 1;
    add_round_key(block, &keys[0]);
    for key in &keys[1..last] {
        round(key, block);
    }
    last_round(&keys[last], block);
}

// The same undone, from the last round key to the first.
// Not one function of both: it would take each end, each round and the order of the keys, and share a loop's frame alone.
pub fn undo_rounds(schedule: &[u8], block: &mut [u8; 16])
    requires { 2 ≤ length schedule.now / 16 }
    ensures { block.new ≡ decipher (length schedule.now / 16 - 1) schedule.now block.old }
{
    let (keys, _) = schedule.as_chunks::<16>();
    let last = keys.len() - 1;
    add_round_key(block, &keys[last]);
    for key in keys[1..last].iter().rev() {
        inv_round(key, block);
    }
    inv_last_round(&keys[0], block);
}
