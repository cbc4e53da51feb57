// What a comparison of ciphers with given answers rests on: the ciphers by name, bytes read from digits, and the comparisons.
// Promises which bytes a text spells, that a call is the call of the cipher that was named, and that what passes is equal.
// Rests on the interface (kit) and its ciphers (mkv, aes).
#![tactic(auto)]

mod answers;
mod cipher;
mod digits;
mod fault;

pub use answers::{Keyed, hold, part};
pub use cipher::Cipher;
pub use digits::parse_hex;
pub use fault::{Fault, Value, Way};
