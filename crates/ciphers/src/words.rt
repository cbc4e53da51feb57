// How a pile is written: `aes`, `whitened mkv128`, or a cascade as `aes 16 mkv128`, with the first cipher's key bytes between.
ghost use Rattle.std.specs.Prelude.{◌≡◌, ◌≢◌, ◌++◌, map, Ok, Err, MatchResult, MatchOption};
ghost use Rattle.ciphers.specs.declared.plain.Narrow.{Narrow};
ghost use Rattle.ciphers.specs.declared.plain.Wide.{Wide};
ghost use Rattle.ciphers.specs.declared.Pile.{Pile};
ghost use Rattle.ciphers.specs.declared.words.UnknownCipher.{UnknownCipher};
ghost use Rattle.ciphers.specs.Words.{word, wide_word, NameBase, NoBase, coat_words, Whole, Name};

use super::{Base, Coat, Coated, Narrow, Pile, Wide};
use std::fmt;
use std::str::FromStr;

// A word that is the name of no such cipher.
#[derive(Clone, Copy, PartialEq, Eq, Debug)]
pub struct UnknownCipher;

impl FromStr for Narrow {
    type Err = UnknownCipher;

    ghost from_str_gives = { λ text r. MatchResult r (λ cipher. text ≡ word cipher) (λ _. (cipher : Narrow) → text ≢ word cipher) };

    fn from_str(text: &str) -> Result<Narrow, UnknownCipher> {
        match text {
            "aes" => Ok(Narrow::Aes),
            "mkv128" => Ok(Narrow::Mkv128),
            _ => Err(UnknownCipher),
        }
    }
}

impl FromStr for Wide {
    type Err = UnknownCipher;

    ghost from_str_gives = { λ text r. MatchResult r (λ cipher. text ≡ wide_word cipher) (λ _. (cipher : Wide) → text ≢ wide_word cipher) };

    fn from_str(text: &str) -> Result<Wide, UnknownCipher> {
        match text {
            "mkv256" => Ok(Wide::Mkv256),
            _ => Err(UnknownCipher),
        }
    }
}

impl<K: FromStr<Err = UnknownCipher> + Copy> Base<K> {
    // The base that words name; a cascade's two ciphers have blocks of one size.
    fn named(words: &[&str]) -> Option<Base<K>>
        ensures { MatchOption result (NoBase (λ text. (e : UnknownCipher) × K.FromStr.from_str_gives text (Err e)) (map (λ w. w.now) words.now)) (λ base. NameBase (λ text cipher. K.FromStr.from_str_gives text (Ok cipher)) (map (λ w. w.now) words.now) base) }
    {
        match words {
            [one] => Some(Base::One(one.parse().ok()?)),
            [first, split, second] => Some(Base::Two(
                first.parse().ok()?,
                split.parse().ok()?,
                second.parse().ok()?,
            )),
            _ => None,
        }
    }
}

// The coat that words begin with, and the words after it.
fn coat<'a, 'b>(words: &'a [&'b str]) -> (Coat, &'a [&'b str])
    ensures words { map (λ w. w.now) words.now ≡ coat_words result.0 ++ map (λ w. w.now) result.1.now }
    ensures whole { Whole result.0 (map (λ w. w.now) result.1.now) }
{
    match words {
        ["whitened", "whitened", rest @ ..] => (Coat::TwiceWhitened, rest),
        ["whitened", rest @ ..] => (Coat::Whitened, rest),
        rest => (Coat::Bare, rest),
    }
}

impl Pile {
    // The pile that words name: words and not a text, since the grammar of the line has cut them.
    pub fn named(words: &[&str]) -> Option<Pile>
        ensures { MatchOption result ((pile : Pile) → Name (map (λ w. w.now) words.now) pile → ⊥) (λ pile. Name (map (λ w. w.now) words.now) pile) }
    {
        let (coat, words) = coat(words);
        match Base::named(words) {
            Some(base) => Some(Pile::Narrow(Coated { coat, base })),
            None => Some(Pile::Wide(Coated {
                coat,
                base: Base::named(words)?,
            })),
        }
    }
}

impl fmt::Display for Narrow {
    fn fmt<W: fmt::Write>(&self, f: &mut fmt::Formatter<W>) -> fmt::Result {
        match self {
            Narrow::Aes => write!(f, "AES"),
            Narrow::Mkv128 => write!(f, "MKV-128"),
        }
    }
}

impl fmt::Display for Wide {
    fn fmt<W: fmt::Write>(&self, f: &mut fmt::Formatter<W>) -> fmt::Result {
        match self {
            Wide::Mkv256 => write!(f, "MKV-256"),
        }
    }
}

impl<K: fmt::Display> fmt::Display for Base<K> {
    fn fmt<W: fmt::Write>(&self, f: &mut fmt::Formatter<W>) -> fmt::Result {
        match self {
            Base::One(cipher) => write!(f, "{cipher}"),
            Base::Two(first, split, second) => {
                write!(f, "{first} with {split} bytes and then {second}")
            }
        }
    }
}

impl<K: fmt::Display> fmt::Display for Coated<K> {
    fn fmt<W: fmt::Write>(&self, f: &mut fmt::Formatter<W>) -> fmt::Result {
        let base = &self.base;
        match self.coat {
            Coat::Bare => write!(f, "{base}"),
            Coat::Whitened => write!(f, "whitened {base}"),
            Coat::TwiceWhitened => write!(f, "twice whitened {base}"),
        }
    }
}

impl fmt::Display for Pile {
    fn fmt<W: fmt::Write>(&self, f: &mut fmt::Formatter<W>) -> fmt::Result {
        match self {
            Pile::Narrow(cipher) => write!(f, "{cipher}"),
            Pile::Wide(cipher) => write!(f, "{cipher}"),
        }
    }
}
