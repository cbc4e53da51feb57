// Figures as people write them, read from text. Functions and no `FromStr`: numbers and strengths have no type of their own, and
// `None` says all that there is to say.
ghost use Rattle.std.specs.Prelude.{◌≡◌, ◌+◌, ◌*◌, ◌^◌, ◌<◌, ◌≤◌, length, IfSome};
ghost use Rattle.std.specs.Option.{SomeIff};
ghost use Rattle.std.specs.Str.Parse.{digits_value};
ghost use Rattle.signal.specs.Figures.{Figure, DistanceText, decimetres, TimeText, seconds};

// A figure has at most this many digits, so that it fits 64 bits in every base up to 16.
const MOST_DIGITS: usize = 15;

// The number that a text of digits writes. Not `u64::from_str_radix`: it reads a plus before them too.
fn digits(text: &[u8], base: u32) -> Option<u64>
    requires { (2 ≤ base) × (base ≤ 16) }
    ensures value { SomeIff result (Figure base text.now) (digits_value base text.now) }
    ensures by_length { IfSome result (λ n. n < 16 ^ length text.now) }
    ensures bits { IfSome result (λ n. n < 2 ^ 60) }
{
    if text.is_empty() || text.len() > MOST_DIGITS {
        return None;
    }
    let mut n: u64 = 0;
    for b in text {
        let digit = char::from(*b).to_digit(base)?;
        n = n * u64::from(base) + u64::from(digit);
    }
    Some(n)
}

// A whole number of 1 to 15 decimal digits.
pub fn number(text: &str) -> Option<usize>
    ensures { SomeIff result (Figure 10 text.now) (digits_value 10 text.now) }
{
    usize::try_from(digits(text.as_bytes(), 10)?).ok()
}

// A strength: a whole number up to 255.
pub fn strength(text: &str) -> Option<u8>
    ensures { SomeIff result (Figure 10 text.now × (digits_value 10 text.now < 256)) (digits_value 10 text.now) }
{
    u8::try_from(digits(text.as_bytes(), 10)?).ok()
}

// A beacon's identity: 8 hexadecimal digits.
pub fn beacon(text: &str) -> Option<u32>
    ensures { SomeIff result (Figure 16 text.now × (length text.now ≡ 8)) (digits_value 16 text.now) }
{
    if text.len() != 8 {
        return None;
    }
    u32::try_from(digits(text.as_bytes(), 16)?).ok()
}

// A distance in metres with one decimal, as 18.4: in decimetres.
pub fn metres(text: &str) -> Option<u16>
    ensures { SomeIff result (DistanceText text.now) (decimetres text.now) }
{
    let [whole @ .., b'.', tenth] = text.as_bytes() else {
        return None;
    };
    let whole = digits(whole, 10)?;
    let tenth = digits(&[*tenth], 10)?;
    u16::try_from(whole * 10 + tenth).ok()
}

// A time of the search, h:mm:ss: in seconds.
pub fn clock(text: &str) -> Option<u32>
    ensures { SomeIff result (TimeText text.now) (seconds text.now) }
{
    let [hours @ .., b':', m_ten, m_one, b':', s_ten, s_one] = text.as_bytes() else {
        return None;
    };
    total(
        digits(hours, 10)?,
        digits(&[*m_ten, *m_one], 10)?,
        digits(&[*s_ten, *s_one], 10)?,
    )
}

// The seconds of a time whose minutes and seconds are below 60.
fn total(h: u64, m: u64, s: u64) -> Option<u32>
    ensures { SomeIff result ((m < 60) × (s < 60) × (h * 3600 + m * 60 + s < 2 ^ 32)) (h * 3600 + m * 60 + s) }
{
    if m >= 60 || s >= 60 {
        return None;
    }
    u32::try_from(h.checked_mul(3600)?.checked_add(m * 60 + s)?).ok()
}
