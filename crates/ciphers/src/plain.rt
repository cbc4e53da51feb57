// The plain ciphers that a set can name, by the size of their blocks.
ghost use Rattle.ciphers.specs.Piles.{narrow, wide};
ghost use Rattle.ciphers.specs.PilesLemmas.{width_narrow, width_wide, sound_narrow, sound_wide};

use kit::{Kit, Narrow as Width16, Wide as Width32};
use refusal::Refusal;

// A cipher with blocks of 16 bytes.
#[derive(Clone, Copy, PartialEq, Eq, Debug)]
pub enum Narrow {
    Aes,
    Mkv128,
}

// A cipher with blocks of 32 bytes.
#[derive(Clone, Copy, PartialEq, Eq, Debug)]
pub enum Wide {
    Mkv256,
}

// A call of the kit that a name stands for.
macro_rules! of_narrow {
    ($cipher:expr, $kit:ident => $call:expr) => {
        match $cipher {
            Narrow::Aes => {
                let $kit = aes::Aes;
                $call
            }
            Narrow::Mkv128 => {
                let $kit = mkv::Mkv128;
                $call
            }
        }
    };
}

impl Kit for Narrow {
    type Width = Width16;

    ghost meaning = { narrow };

    ghost width = { width_narrow };

    ghost sound = { sound_narrow };

    fn need(&self, len: usize) -> Result<usize, Refusal> {
        of_narrow!(self, kit => kit.need(len))
    }

    fn expand(&self, key: &[u8], schedule: &mut [u8]) -> Result<(), Refusal> {
        of_narrow!(self, kit => kit.expand(key, schedule))
    }

    fn encipher(&self, len: usize, schedule: &[u8], block: &mut [u8]) -> Result<(), Refusal> {
        of_narrow!(self, kit => kit.encipher(len, schedule, block))
    }

    fn decipher(&self, len: usize, schedule: &[u8], block: &mut [u8]) -> Result<(), Refusal> {
        of_narrow!(self, kit => kit.decipher(len, schedule, block))
    }
}

impl Kit for Wide {
    type Width = Width32;

    ghost meaning = { wide };

    ghost width = { width_wide };

    ghost sound = { sound_wide };

    fn need(&self, len: usize) -> Result<usize, Refusal> {
        match self {
            Wide::Mkv256 => mkv::Mkv256.need(len),
        }
    }

    fn expand(&self, key: &[u8], schedule: &mut [u8]) -> Result<(), Refusal> {
        match self {
            Wide::Mkv256 => mkv::Mkv256.expand(key, schedule),
        }
    }

    fn encipher(&self, len: usize, schedule: &[u8], block: &mut [u8]) -> Result<(), Refusal> {
        match self {
            Wide::Mkv256 => mkv::Mkv256.encipher(len, schedule, block),
        }
    }

    fn decipher(&self, len: usize, schedule: &[u8], block: &mut [u8]) -> Result<(), Refusal> {
        match self {
            Wide::Mkv256 => mkv::Mkv256.decipher(len, schedule, block),
        }
    }
}
