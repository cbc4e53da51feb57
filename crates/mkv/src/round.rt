// The steps of MKV's round, the rounds of a schedule, and the same undone, at words of T bytes.
// Promises each step, round and run of rounds as the standard defines it.
// Rests on products of bytes (field) and on XOR and substitution (block).
// Blocks stay slices, with a clause for their length: of a slice written as arrays of T no proof knows what it ends as. Keys stay
// slices beside them, since bytes are XORed to bytes.
ghost use Rattle.std.specs.Prelude.{◌≡◌, ◌+◌, ◌*◌, ◌/◌, ◌<◌, length};
ghost use Rattle.mkv.specs.Steps.{sub_cells, sub_cells_back, mix_words, x_words, round as one_round, round_back};
ghost use Rattle.mkv.specs.Cipher.{encipher, decipher};

use crate::tables::{Matrix, S, S_INVERSE};
use block::{substitute, xor_whole};

// x^8 + x^5 + x^3 + x + 1, without x^8.
const POLY: u8 = 0x2B;

#[tactic(auto, unfolding(crate::specs::Steps::mix_words))]
pub fn mix_words<const T: usize>(m: &Matrix<T>, block: &mut [u8])
    requires { length block.old ≡ 4 * T }
    ensures { block.new ≡ mix_words T m.now.rows block.old }
{
    field::apply_each(POLY, &m.rows, block);
}

// Each word becomes the XOR of the other three: of all four and itself.
pub fn x_words<const T: usize>(block: &mut [u8])
    requires size { 0 < T }
    requires width { length block.old ≡ 4 * T }
    ensures { block.new ≡ x_words T block.old }
{
    let mut all = [0; T];
    for word in block.chunks_exact(T) {
        xor_whole(&mut all, word);
    }
    // by index: after `chunks_exact_mut` no proof knows what was written
    for i in 0..4usize {
        xor_whole(&mut block[i * T..i * T + T], &all);
    }
}

// The round F with a key of two blocks.
pub fn round<const T: usize>(m: &Matrix<T>, key: &[u8], block: &mut [u8])
    requires two { length key.now ≡ 8 * T }
    requires width { length block.old ≡ 4 * T }
    ensures { block.new ≡ one_round T m.now.rows key.now block.old }
{
    let (a, b) = key.split_at(4 * T);
    xor_whole(block, a);
    substitute(&S, block);
    mix_words(m, block);
    xor_whole(block, b);
    substitute(&S, block);
    x_words::<T>(block);
}

// The round undone; `m` is the inverse matrix.
// Not one function with `round`: the order of the steps is all that either says, and a parameter for the way would switch it.
fn undo_round<const T: usize>(m: &Matrix<T>, key: &[u8], block: &mut [u8])
    requires two { length key.now ≡ 8 * T }
    requires width { length block.old ≡ 4 * T }
    ensures { block.new ≡ round_back T m.now.rows key.now block.old }
{
    let (first, second) = key.split_at(4 * T);
    x_words::<T>(block);
    substitute(&S_INVERSE, block);
    xor_whole(block, second);
    mix_words(m, block);
    substitute(&S_INVERSE, block);
    xor_whole(block, first);
}

// A round for each round key of `keys`, and then the post key, the last block of `keys`.
pub fn run_rounds<const T: usize>(m: &Matrix<T>, keys: &[u8], block: &mut [u8])
    requires schedule { length keys.now ≡ length keys.now / (8 * T) * (8 * T) + 4 * T }
    requires width { length block.old ≡ 4 * T }
    ensures { block.new ≡ encipher T m.now.rows (length keys.now / (8 * T)) keys.now block.old }
{
    let (rounds, post) = keys.split_at(keys.len() - 4 * T);
    for key in rounds.chunks_exact(8 * T) {
        round(m, key, block);
    }
    xor_whole(block, post);
}

// The post key, and then the rounds undone, the last first.
// Not one function with `run_rounds`: post key and round keys come from the other end, so only the split would be shared.
pub fn undo_rounds<const T: usize>(m: &Matrix<T>, keys: &[u8], block: &mut [u8])
    requires schedule { length keys.now ≡ length keys.now / (8 * T) * (8 * T) + 4 * T }
    requires width { length block.old ≡ 4 * T }
    ensures { block.new ≡ decipher T m.now.rows (length keys.now / (8 * T)) keys.now block.old }
{
    let (rounds, post) = keys.split_at(keys.len() - 4 * T);
    xor_whole(block, post);
    for key in rounds.rchunks_exact(8 * T) {
        undo_round(m, key, block);
    }
}
