// The rows of AES's key expansion: how each word of the schedule comes from words before it.
// Promises nothing of its own: the words are those of the schedule, and SubWord is the SubBytes of crate aes.
// Rests on the schedule (aes) and on products of bytes (field).
use crate::steps::array_part;
use compare::{Fault, Keyed};
use std::str::FromStr;

// The columns of a row, by their names in the standard's tables.
#[derive(Clone, Copy, PartialEq, Eq, Debug)]
pub enum Column {
    // the word before
    Temp,
    // after RotWord
    Rotated,
    // after SubWord
    Substituted,
    Rcon,
    // XORed with Rcon
    WithRcon,
    // the word as many places back as the key has words
    Back,
    // the word itself
    Word,
}

impl FromStr for Column {
    type Err = Fault;

    fn from_str(name: &str) -> Result<Column, Fault> {
        match name {
            "temp" => Ok(Column::Temp),
            "rot" => Ok(Column::Rotated),
            "sub" => Ok(Column::Substituted),
            "rcon" => Ok(Column::Rcon),
            "xor_rcon" => Ok(Column::WithRcon),
            "back" => Ok(Column::Back),
            "w" => Ok(Column::Word),
            _ => Err(Fault::Form("a column of the key expansion")),
        }
    }
}

// By a pattern, and no `rotate_left`: of an array that was read through a reference no proof here knows the length.
fn rotated([a, b, c, d]: [u8; 4]) -> [u8; 4] {
    [b, c, d, a]
}

fn substituted(word: [u8; 4]) -> Result<[u8; 4], Fault> {
    let mut block = [0; 16];
    block[..4].copy_from_slice(&word);
    aes::apply_step(aes::Step::SubBytes, &[0; 16], &mut block)?;
    let [a, b, c, d, ..] = block;
    Ok([a, b, c, d])
}

// Rcon of row `times` of those that have one: x to the power `times` - 1. Formed anew, to be compared with what the cipher makes.
fn rcon(times: usize) -> [u8; 4] {
    let power = (1..times).fold(1, |power, _| field::mul(0x1B, 2, power));
    [power, 0, 0, 0]
}

// A column of the row of word `row`.
pub fn column_of(keyed: &Keyed, row: u8, column: Column) -> Result<[u8; 4], Fault> {
    let words = keyed.length / 4;
    let row = usize::from(row);
    if words == 0 || row < words {
        return Err(Fault::Form("a row after those of the key"));
    }
    let schedule = keyed.schedule.as_slice();
    let temp: [u8; 4] = *array_part(schedule, row - 1)?;
    let turned = if row % words == 0 {
        rotated(temp)
    } else {
        temp
    };
    match column {
        Column::Temp => Ok(temp),
        Column::Rotated => Ok(turned),
        Column::Substituted => substituted(turned),
        Column::Rcon => Ok(rcon(row / words)),
        Column::WithRcon => {
            let mut word = substituted(turned)?;
            block::xor_into(&mut word, &rcon(row / words));
            Ok(word)
        }
        Column::Back => Ok(*array_part(schedule, row - words)?),
        Column::Word => Ok(*array_part(schedule, row)?),
    }
}
