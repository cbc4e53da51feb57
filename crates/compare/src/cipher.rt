// The ciphers under comparison, by the names that the data files have for them.
// Promises which cipher a name means, and that each call is the call of the cipher's kit, with that kit's meaning.
// Rests on the interface (kit) and its ciphers (mkv, aes).
ghost use Rattle.std.specs.Prelude.{◌≡◌, Some};
ghost use Rattle.kit.specs.Calls.{told, expand_refusal, cipher_refusal, expanded, enciphered, deciphered};
ghost use Rattle.refusal.specs.Checks.{refusal};
ghost use Rattle.compare.specs.Ciphers.{meaning, title};

use crate::fault::Fault;
use kit::{Kit, width_of};
use refusal::Refusal;
use std::fmt;
use std::str::FromStr;

// A cipher that the data files name.
#[derive(Clone, Copy, PartialEq, Eq, Debug)]
pub enum Cipher {
    Mkv128,
    Mkv256,
    Aes,
}

// A call of a cipher's kit. Kits differ in the type of their width, so no `dyn Kit` stands for each of them.
macro_rules! of_kit {
    ($cipher:expr, $kit:ident => $call:expr) => {
        match $cipher {
            Cipher::Mkv128 => {
                let $kit = mkv::Mkv128;
                $call
            }
            Cipher::Mkv256 => {
                let $kit = mkv::Mkv256;
                $call
            }
            Cipher::Aes => {
                let $kit = aes::Aes;
                $call
            }
        }
    };
}

impl Cipher {
    // The bytes of a block.
    pub fn width(self) -> usize
        ensures { result ≡ (meaning self).width }
    {
        of_kit!(self, kit => width_of(&kit))
    }

    // The four calls of its kit.
    pub fn need(self, len: usize) -> Result<usize, Refusal>
        ensures { result ≡ told ((meaning self).need len) }
    {
        of_kit!(self, kit => kit.need(len))
    }

    pub fn expand(self, key: &[u8], schedule: &mut [u8]) -> Result<(), Refusal>
        ensures outcome { refusal result ≡ expand_refusal (meaning self) key.now schedule.old }
        ensures written { schedule.new ≡ expanded (meaning self) key.now schedule.old }
    {
        of_kit!(self, kit => kit.expand(key, schedule))
    }

    pub fn encipher(self, len: usize, schedule: &[u8], block: &mut [u8]) -> Result<(), Refusal>
        ensures outcome { refusal result ≡ cipher_refusal (meaning self) len schedule.now block.old }
        ensures written { block.new ≡ enciphered (meaning self) len schedule.now block.old }
    {
        of_kit!(self, kit => kit.encipher(len, schedule, block))
    }

    pub fn decipher(self, len: usize, schedule: &[u8], block: &mut [u8]) -> Result<(), Refusal>
        ensures outcome { refusal result ≡ cipher_refusal (meaning self) len schedule.now block.old }
        ensures written { block.new ≡ deciphered (meaning self) len schedule.now block.old }
    {
        of_kit!(self, kit => kit.decipher(len, schedule, block))
    }
}

// Each name stands twice, here and in `Display`: a search by name would need a list of all ciphers, a third one.
impl FromStr for Cipher {
    ghost use Rattle.std.specs.Prelude.{◌≡◌, ◌≢◌, MatchResult};
    ghost use Rattle.compare.specs.declared.cipher.Cipher.{Cipher};
    ghost use Rattle.compare.specs.Ciphers.{title};

    type Err = Fault;

    ghost from_str_gives = { λ text r. MatchResult r (λ c. text ≡ title c) (λ _. (c : Cipher) → text ≢ title c) };

    fn from_str(name: &str) -> Result<Cipher, Fault> {
        match name {
            "mkv128" => Ok(Cipher::Mkv128),
            "mkv256" => Ok(Cipher::Mkv256),
            "aes" => Ok(Cipher::Aes),
            _ => Err(Fault::Form("a cipher that the program has")),
        }
    }
}

impl fmt::Display for Cipher {
    ghost output = { λ cipher. Some (title cipher) };

    fn fmt<W: fmt::Write>(&self, f: &mut fmt::Formatter<W>) -> fmt::Result {
        f.write_str(match self {
            Cipher::Mkv128 => "mkv128",
            Cipher::Mkv256 => "mkv256",
            Cipher::Aes => "aes",
        })
    }
}
