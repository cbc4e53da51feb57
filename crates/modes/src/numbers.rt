// The numbers of modes and directions, as firmware gives them.
// Promises which number names which, and the refusal of every other.
// Rests on crate refusal.
use crate::{Direction, Mode};
use refusal::Refusal;

impl TryFrom<u8> for Mode {
    ghost use Rattle.std.specs.Prelude.{◌≡◌};
    ghost use Rattle.modes.specs.Numbers.{mode_numbered};

    type Error = Refusal;

    ghost try_from_gives = { λ n r. r ≡ mode_numbered n };

    fn try_from(n: u8) -> Result<Mode, Refusal> {
        match n {
            1 => Ok(Mode::Cbc),
            2 => Ok(Mode::Cfb),
            3 => Ok(Mode::Ofb),
            _ => Err(Refusal::Mode),
        }
    }
}

impl TryFrom<u8> for Direction {
    ghost use Rattle.std.specs.Prelude.{◌≡◌};
    ghost use Rattle.modes.specs.Numbers.{direction_numbered};

    type Error = Refusal;

    ghost try_from_gives = { λ n r. r ≡ direction_numbered n };

    fn try_from(n: u8) -> Result<Direction, Refusal> {
        match n {
            0 => Ok(Direction::Send),
            1 => Ok(Direction::Receive),
            _ => Err(Refusal::Mode),
        }
    }
}
