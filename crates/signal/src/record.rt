// What a set keeps of one beacon heard once: 11 bytes of figures.
ghost use Rattle.std.specs.Prelude.{◌≡◌, if◌then◌else◌, nat_lt};
ghost use Rattle.signal.specs.Coded.{coded, decoded};

use std::cmp;

// A cell has the default before its first record.
#[derive(Clone, Copy, PartialEq, Eq, Default, Debug)]
pub struct SignalRecord {
    // the beacon's identity
    pub beacon: u32,
    // in decimetres
    pub distance: u16,
    pub strength: u8,
    // of the search, from 0
    pub second: u32,
}

impl SignalRecord {
    // The one of the two that was heard nearer; of two alike, this one.
    pub fn nearer(self, other: SignalRecord) -> SignalRecord
        ensures { result ≡ (if nat_lt other.distance self.distance then other else self) }
    {
        cmp::min_by_key(self, other, |heard| heard.distance)
    }

    // The record as a link carries it: its figures in order, each with its most significant byte first.
    pub fn to_bytes(self) -> [u8; 11]
        ensures is { result ≡ coded self }
        ensures back { decoded result ≡ self }
    {
        let [b0, b1, b2, b3] = self.beacon.to_be_bytes();
        let [d0, d1] = self.distance.to_be_bytes();
        let [s0, s1, s2, s3] = self.second.to_be_bytes();
        [b0, b1, b2, b3, d0, d1, self.strength, s0, s1, s2, s3]
    }

    // The record whose bytes these are; any 11 bytes are those of one.
    pub fn from_bytes(bytes: [u8; 11]) -> SignalRecord
        ensures is { result ≡ decoded bytes }
        ensures back { coded result ≡ bytes }
    {
        let [b0, b1, b2, b3, d0, d1, strength, s0, s1, s2, s3] = bytes;
        SignalRecord {
            beacon: u32::from_be_bytes([b0, b1, b2, b3]),
            distance: u16::from_be_bytes([d0, d1]),
            strength,
            second: u32::from_be_bytes([s0, s1, s2, s3]),
        }
    }
}
