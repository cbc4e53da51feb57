// The steps of the ciphers' rounds, by the names that the data files have for them.
// Promises nothing of its own: each step is a call of its cipher's crate, which promises it.
// Rests on the steps of mkv and of aes, and on the parts of a schedule (compare).
use block::xor_into;
use compare::{Cipher, Fault, Keyed, Way, part};
use std::str::FromStr;

// A step that a line names.
#[derive(Clone, Copy)]
pub struct Step<'a> {
    pub way: Way,
    pub name: &'a str,
    pub round: u8,
}

// A step of cipher steps `S`, or the XOR with a key that is no round's own. Not an Option: `FromStr` is not ours to write for one.
#[derive(Clone, Copy)]
enum Named<S> {
    Step(S),
    Xor,
}

impl FromStr for Named<mkv::Step> {
    type Err = Fault;

    fn from_str(name: &str) -> Result<Named<mkv::Step>, Fault> {
        match name {
            "XorA" => Ok(Named::Step(mkv::Step::XorA)),
            "SubCells" => Ok(Named::Step(mkv::Step::SubCells)),
            "MixWords" => Ok(Named::Step(mkv::Step::MixWords)),
            "XorB" => Ok(Named::Step(mkv::Step::XorB)),
            "XWords" => Ok(Named::Step(mkv::Step::XWords)),
            "PostKey" => Ok(Named::Xor),
            _ => Err(Fault::Form("a step of MKV")),
        }
    }
}

impl FromStr for Named<aes::Step> {
    type Err = Fault;

    fn from_str(name: &str) -> Result<Named<aes::Step>, Fault> {
        match name {
            "SubBytes" => Ok(Named::Step(aes::Step::SubBytes)),
            "ShiftRows" => Ok(Named::Step(aes::Step::ShiftRows)),
            "MixColumns" => Ok(Named::Step(aes::Step::MixColumns)),
            "AddRoundKey" => Ok(Named::Step(aes::Step::AddRoundKey)),
            "AddMixedKey" => Ok(Named::Xor),
            _ => Err(Fault::Form("a step of AES")),
        }
    }
}

// Part `index` of a schedule that is cut into parts of `N` bytes.
pub fn array_part<const N: usize>(schedule: &[u8], index: usize) -> Result<&[u8; N], Fault> {
    part(schedule, N, index)?
        .as_array()
        .ok_or(Fault::Form("a round of this schedule"))
}

// The round key of a round of AES; rounds are counted from 0.
pub fn round_key(schedule: &[u8], round: u8) -> Result<&[u8; 16], Fault> {
    array_part(schedule, usize::from(round))
}

// A round key as the standard's equivalent inverse cipher adds it: with MixColumns undone.
pub fn mixed_key(key: &[u8; 16]) -> Result<[u8; 16], Fault> {
    let mut mixed = *key;
    aes::undo_step(aes::Step::MixColumns, key, &mut mixed)?;
    Ok(mixed)
}

impl Step<'_> {
    // Takes the step on `state`, in place.
    pub fn take(self, keyed: &Keyed, state: &mut [u8]) -> Result<(), Fault> {
        let schedule = keyed.schedule.as_slice();
        match keyed.cipher {
            Cipher::Mkv128 | Cipher::Mkv256 => self.take_mkv(schedule, state),
            Cipher::Aes => self.take_aes(schedule, state),
        }
    }

    // A function for each cipher: they differ in a round's key, in the order of their checks and in the crate that they call.
    // Rounds are counted from 1, and the post key stands after the last.
    fn take_mkv(self, schedule: &[u8], state: &mut [u8]) -> Result<(), Fault> {
        let before = self
            .round
            .checked_sub(1)
            .ok_or(Fault::Form("a round from 1 on"))?;
        let before = usize::from(before);
        let width = state.len();
        match self.name.parse::<Named<mkv::Step>>()? {
            Named::Xor => xor_into(state, part(schedule, width, 2 * before)?),
            Named::Step(step) => {
                let size = width
                    .checked_mul(2)
                    .ok_or(Fault::Form("a block of this cipher"))?;
                let key = part(schedule, size, before)?;
                match self.way {
                    Way::Forth => mkv::apply_step(step, key, state)?,
                    Way::Back => mkv::undo_step(step, key, state)?,
                }
            }
        }
        Ok(())
    }

    fn take_aes(self, schedule: &[u8], state: &mut [u8]) -> Result<(), Fault> {
        let key = round_key(schedule, self.round)?;
        match self.name.parse::<Named<aes::Step>>()? {
            Named::Xor => xor_into(state, &mixed_key(key)?),
            Named::Step(step) => match self.way {
                Way::Forth => aes::apply_step(step, key, state)?,
                Way::Back => aes::undo_step(step, key, state)?,
            },
        }
        Ok(())
    }
}
