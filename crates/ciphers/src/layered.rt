// Layers over plain ciphers of one size: a cascade of two, and a coat of whitening.
ghost use Rattle.ciphers.specs.Piles.{base_meaning, coated_meaning};
ghost use Rattle.ciphers.specs.PilesLemmas.{width_base, width_coated, sound_base, sound_coated};

use kit::Kit;
use layers::{Cascade, Whitening};
use refusal::Refusal;

// What stands under a coat. The first `split` bytes of a key go to the first cipher of a cascade.
#[derive(Clone, Copy, PartialEq, Eq, Debug)]
pub enum Base<K> {
    One(K),
    Two(K, usize, K),
}

// How often a base is whitened.
#[derive(Clone, Copy, PartialEq, Eq, Debug)]
pub enum Coat {
    Bare,
    Whitened,
    TwiceWhitened,
}

// A base in its coat.
#[derive(Clone, Copy, PartialEq, Eq, Debug)]
pub struct Coated<K> {
    pub coat: Coat,
    pub base: Base<K>,
}

// A call of the kit that a base is.
macro_rules! of_base {
    ($base:expr, $kit:ident => $call:expr) => {
        match *$base {
            Base::One($kit) => $call,
            Base::Two(first, split, second) => {
                let $kit = Cascade::of(first, split, second);
                $call
            }
        }
    };
}

impl<K: Kit + Copy> Kit for Base<K> {
    type Width = K::Width;

    ghost meaning = { base_meaning K.Kit.meaning };

    ghost width = { width_base K.Kit.meaning K.Kit.width };

    ghost sound = { sound_base K.Kit.meaning K.Kit.width K.Kit.sound };

    fn need(&self, len: usize) -> Result<usize, Refusal> {
        of_base!(self, kit => kit.need(len))
    }

    fn expand(&self, key: &[u8], schedule: &mut [u8]) -> Result<(), Refusal> {
        of_base!(self, kit => kit.expand(key, schedule))
    }

    fn encipher(&self, len: usize, schedule: &[u8], block: &mut [u8]) -> Result<(), Refusal> {
        of_base!(self, kit => kit.encipher(len, schedule, block))
    }

    fn decipher(&self, len: usize, schedule: &[u8], block: &mut [u8]) -> Result<(), Refusal> {
        of_base!(self, kit => kit.decipher(len, schedule, block))
    }
}

// A call of the kit that a base is in its coat.
macro_rules! of_coated {
    ($coated:expr, $kit:ident => $call:expr) => {
        match $coated.coat {
            Coat::Bare => {
                let $kit = $coated.base;
                $call
            }
            Coat::Whitened => {
                let $kit = Whitening::over($coated.base);
                $call
            }
            Coat::TwiceWhitened => {
                let $kit = Whitening::over(Whitening::over($coated.base));
                $call
            }
        }
    };
}

impl<K: Kit + Copy> Kit for Coated<K> {
    type Width = K::Width;

    ghost meaning = { coated_meaning K.Kit.meaning };

    ghost width = { width_coated K.Kit.meaning K.Kit.width };

    ghost sound = { sound_coated K.Kit.meaning K.Kit.width K.Kit.sound };

    fn need(&self, len: usize) -> Result<usize, Refusal> {
        of_coated!(self, kit => kit.need(len))
    }

    fn expand(&self, key: &[u8], schedule: &mut [u8]) -> Result<(), Refusal> {
        of_coated!(self, kit => kit.expand(key, schedule))
    }

    fn encipher(&self, len: usize, schedule: &[u8], block: &mut [u8]) -> Result<(), Refusal> {
        of_coated!(self, kit => kit.encipher(len, schedule, block))
    }

    fn decipher(&self, len: usize, schedule: &[u8], block: &mut [u8]) -> Result<(), Refusal> {
        of_coated!(self, kit => kit.decipher(len, schedule, block))
    }
}
