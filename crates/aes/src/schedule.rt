// AES's key expansion.
// Promises the schedule that the standard fixes for a key.
// Rests on the S-box and on the field's powers of x.
ghost use Rattle.std.specs.Prelude.{◌≡◌, ◌-◌, ◌*◌, ◌/◌, ◌<◌, ◌≤◌, length, take};
ghost use Rattle.aes.specs.Keys.{x_power, changed, next, words};

use crate::round::POLY;
use crate::tables;
use block::{substitute, xor_whole};

// Keys of more words than this are substituted half way between two rotations too.
const SHORT_KEY: usize = 6;

// x to the power n.
fn power_of_x(n: usize) -> u8
    ensures { result ≡ x_power n }
{
    (0..n).fold(1, |power, _| field::times_x(POLY, power))
}

// The number of a key's words, by which the expansion counts: never 0.
#[derive(Clone, Copy)]
struct KeyWords {
    nk: usize,
    ghost some: { 0 < nk },
}

impl KeyWords {
    // The word before word i, as it goes into word i of the expansion.
    fn changed_word(self, i: usize, last: &[u8; 4]) -> [u8; 4]
        requires { self.nk ≤ i }
        ensures { result ≡ changed self.nk i last.now }
    {
        let mut word = *last;
        if i % self.nk == 0 {
            word.rotate_left(1);
            substitute(&tables::S_BOX, &mut word);
            xor_whole(&mut word, &[power_of_x(i / self.nk - 1), 0, 0, 0]);
        } else if self.nk > SHORT_KEY && i % self.nk == 4 {
            substitute(&tables::S_BOX, &mut word);
        }
        word
    }

    // The word after those of `keys`.
    fn next_word(self, keys: &[u8]) -> [u8; 4]
        requires { self.nk ≤ length keys.now / 4 }
        ensures { result ≡ next self.nk (length keys.now / 4) keys.now }
    {
        let (words, _) = keys.as_chunks::<4>();
        let i = words.len();
        let mut word = self.changed_word(i, &words[i - 1]);
        xor_whole(&mut word, &words[i - self.nk]);
        word
    }

    // Writes word after word behind the key's, up to the end.
    fn extend(self, out: &mut [u8])
        requires key { self.nk ≤ length out.old / 4 }
        requires words { length out.old ≡ 4 * (length out.old / 4) }
        ensures { out.new ≡ words self.nk (length out.old / 4 - self.nk) (take (self.nk * 4) out.old) }
    {
        // by index: each word is made of those before it in the same slice
        for i in self.nk..out.len() / 4 {
            let word = self.next_word(&out[..i * 4]);
            out[i * 4..i * 4 + 4].copy_from_slice(&word);
        }
    }
}

// Writes the schedule of a key into a buffer of its size.
pub fn write_schedule(key: &[u8], out: &mut [u8])
    requires some { 4 ≤ length key.now }
    requires words { (length key.now ≡ 4 * (length key.now / 4)) × (length out.old ≡ 4 * (length out.old / 4)) }
    requires room { length key.now ≤ length out.old }
    ensures { out.new ≡ words (length key.now / 4) (length out.old / 4 - length key.now / 4) key.now }
{
    out[..key.len()].copy_from_slice(key);
    let words = KeyWords { nk: key.len() / 4 };
    words.extend(out);
}
