// MKV's key schedule at words of T bytes.
// Promises the schedule that the standard fixes for a key.
// Rests on the round.
ghost use Rattle.std.specs.Prelude.{◌≡◌, ◌+◌, ◌-◌, ◌*◌, ◌/◌, ◌<◌, ◌≤◌, length, map, take, drop};
ghost use Rattle.mkv.specs.Keys.{stirred, next_left, next_right, start_left, start_right, schedule as scheduled};

use crate::round::round;
use crate::tables::Matrix;
use block::xor_whole;

// The round with key (n, 0), and then the round with key (0, 0).
fn stir<const T: usize>(m: &Matrix<T>, n: u8, block: &mut [u8])
    requires { length block.old ≡ 4 * T }
    ensures { block.new ≡ stirred T m.now.rows n block.old }
{
    let zeros = [[0; T]; 8];
    let mut key = zeros;
    key[3][T - 1] = n;
    round(m, key.as_flattened(), block);
    round(m, zeros.as_flattened(), block);
}

// Update i of the key state, Left and then Right.
fn update<const T: usize>(m: &Matrix<T>, i: u8, state: &mut [u8])
    requires number { (0 < i) × (2 * i ≤ 255) }
    requires width { length state.old ≡ 8 * T }
    ensures left { take (4 * T) state.new ≡ next_left T m.now.rows i (drop (4 * T) state.old) }
    ensures right { drop (4 * T) state.new ≡ next_right T m.now.rows i (take (4 * T) state.old) (drop (4 * T) state.old) }
{
    let (left, right) = state.split_at_mut(4 * T);
    stir(m, 2 * i - 1, left);
    stir(m, 2 * i, right);
    xor_whole(left, right);
    left.swap_with_slice(right);
}

fn complement(block: &mut [u8])
    ensures { block.new ≡ map (λ x. 255 - x) block.old }
{
    for x in block.iter_mut() {
        *x = !*x;
    }
}

// Writes the key state to begin with.
fn start<const T: usize>(key: &[u8], state: &mut [u8])
    requires size { (4 * T ≤ length key.now) × (length key.now ≤ 8 * T) }
    requires width { length state.old ≡ 8 * T }
    ensures left { take (4 * T) state.new ≡ start_left T key.now }
    ensures right { drop (4 * T) state.new ≡ start_right T key.now }
{
    let (given, filled) = state.split_at_mut(key.len());
    given.copy_from_slice(key);
    filled.copy_from_slice(&key[key.len() - 4 * T..4 * T]);
    complement(filled);
}

// Writes the schedule of as many rounds as `out` has room for.
pub fn write_schedule<const T: usize>(m: &Matrix<T>, key: &[u8], out: &mut [u8])
    requires rounds { length out.old / (8 * T) ≤ 8 }
    requires keys { (4 * T ≤ length key.now) × (length key.now ≤ 8 * T) }
    requires room { length out.old ≡ length out.old / (8 * T) * (8 * T) + 4 * T }
    ensures { out.new ≡ scheduled T m.now.rows (length out.old / (8 * T)) key.now }
{
    let mut state = [[0; T]; 8];
    let state = state.as_flattened_mut();
    start::<T>(key, state);
    out[..4 * T].copy_from_slice(&state[..4 * T]);
    // by index: after `chunks_exact_mut` no proof knows what was written
    // (`as` is proved to lose nothing; `u8::try_from` would add a case that never comes)
    for i in 0..out.len() / (8 * T) {
        update(m, i as u8 + 1, state);
        let at = 4 * T + i * (8 * T);
        out[at..at + 8 * T].copy_from_slice(state);
    }
}
