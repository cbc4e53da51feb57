// The figures of a signal record, written for people: the words that probers need.
ghost use Rattle.std.specs.Prelude.{Some};
ghost use Rattle.signal.specs.Words.{hex, metred, clocked, recorded};

use super::record::SignalRecord;
use std::fmt;

// A beacon's identity, written as 8 hexadecimal digits.
#[derive(Clone, Copy)]
pub struct Beacon(pub u32);

// A distance in decimetres, written in metres with one decimal.
#[derive(Clone, Copy)]
pub struct Metres(pub u16);

// A second of the search, written as h:mm:ss.
#[derive(Clone, Copy)]
pub struct Clock(pub u32);

impl fmt::Display for Beacon {
    ghost output = { λ b. Some (hex b.0) };

    fn fmt<W: fmt::Write>(&self, f: &mut fmt::Formatter<W>) -> fmt::Result {
        let n = self.0;
        write!(f, "{n:08X}")
    }
}

impl fmt::Display for Metres {
    ghost output = { λ m. Some (metred m.0) };

    fn fmt<W: fmt::Write>(&self, f: &mut fmt::Formatter<W>) -> fmt::Result {
        let whole = self.0 / 10;
        let tenth = self.0 % 10;
        write!(f, "{whole}.{tenth}")
    }
}

impl fmt::Display for Clock {
    ghost output = { λ c. Some (clocked c.0) };

    fn fmt<W: fmt::Write>(&self, f: &mut fmt::Formatter<W>) -> fmt::Result {
        let h = self.0 / 3600;
        let m = self.0 / 60 % 60;
        let s = self.0 % 60;
        write!(f, "{h}:{m:02}:{s:02}")
    }
}

impl fmt::Display for SignalRecord {
    ghost output = { λ r. Some (recorded r) };

    fn fmt<W: fmt::Write>(&self, f: &mut fmt::Formatter<W>) -> fmt::Result {
        let beacon = Beacon(self.beacon);
        let distance = Metres(self.distance);
        let strength = self.strength;
        let time = Clock(self.second);
        write!(
            f,
            "{beacon} at {distance} m, strength {strength}, heard {time}"
        )
    }
}
