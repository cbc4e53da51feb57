// The ciphers that a set can name: plain ones, cascades of two, and these whitened once or twice; each is a kit.
// Promises of each the meaning of the kits that it is made of: the keys it takes, their schedules, and how it enciphers and deciphers.
// Rests on the kits `aes` and `mkv` and on the layers over them.
#![tactic(auto)]

ghost use Rattle.std.specs.Prelude.{◌≡◌};
ghost use Rattle.kit.specs.Calls.{told};
ghost use Rattle.ciphers.specs.Piles.{pile_meaning};

mod layered;
mod plain;
mod words;

use kit::Kit;
pub use layered::{Base, Coat, Coated};
pub use plain::{Narrow, Wide};
use refusal::Refusal;
pub use words::UnknownCipher;

// A cipher by its name: no kit itself, since its two kinds differ in the size of their blocks.
#[derive(Clone, Copy, PartialEq, Eq, Debug)]
pub enum Pile {
    Narrow(Coated<Narrow>),
    Wide(Coated<Wide>),
}

impl Pile {
    // The cells of 16 bytes that a key of `len` bytes needs, or refusal 7.
    pub fn need(&self, len: usize) -> Result<usize, Refusal>
        ensures { result ≡ told ((pile_meaning self.now).need len) }
    {
        match self {
            Pile::Narrow(cipher) => cipher.need(len),
            Pile::Wide(cipher) => cipher.need(len),
        }
    }
}
