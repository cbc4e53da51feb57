// Why a call is refused: one reason for each number from 1 to 16, told in words.
// Promises each reason its number, and what is written of it.
// Rests on nothing.
#![tactic(auto)]

ghost use Rattle.std.specs.Prelude.{◌≡◌, Some};
ghost use Rattle.refusal.specs.Faults.{here as fault_here};
ghost use Rattle.refusal.specs.Numbers.{number as numbered};
ghost use Rattle.refusal.specs.declared.Refusal.TheVariants.{Key};
ghost use Rattle.refusal.specs.Words.{words};

use std::fmt;

// Where in a pile of ciphers a key's length was refused, counted from the top, and the length shown there.
#[derive(Clone, Copy, PartialEq, Eq, Debug)]
pub struct KeyFault {
    pub depth: u8,
    pub length: usize,
}

impl KeyFault {
    // The topmost cipher itself takes no key of `length` bytes.
    pub fn here(length: usize) -> KeyFault
        ensures { result ≡ fault_here length }
    {
        KeyFault { depth: 0, length }
    }
}

// The reasons, in the order of their numbers.
#[derive(Clone, Copy, PartialEq, Eq, Debug)]
pub enum Refusal {
    // 1: the scratch does not have 1,536 bytes
    Scratch,
    // 2: the cell memory does not have as many items as there are cells
    Memory,
    // 3: a number of cells outside 1 to 256, or set before
    Size,
    // 4: a chain above 15
    Chain,
    // 5: a position not below the chain's length
    Position,
    // 6: fewer free cells than are needed
    Cells,
    // 7: a key of a length that the cipher does not take
    Key(KeyFault),
    // 8: a schedule or a block of the wrong size
    Block,
    // 9: a mode other than 1, 2 and 3, or a direction other than 0 and 1
    Mode,
    // 10: a start block that is not one block long
    Start,
    // 11: all eight links are open
    Links,
    // 12: the link is not open
    Closed,
    // 13: a piece of more than 4,096 bytes
    Piece,
    // 14: the output is shorter than the bytes due
    Output,
    // 15: the received text does not end with a whole block
    Ragged,
    // 16: the last block of the received text has no padding
    Padding,
}

impl From<KeyFault> for Refusal {
    ghost from_gives = { λ fault refusal. refusal ≡ Key fault };

    fn from(fault: KeyFault) -> Refusal {
        Refusal::Key(fault)
    }
}

impl Refusal {
    // The number of the reason. A match and no cast: a key's fault stands in its reason.
    pub fn number(&self) -> u8
        ensures { result ≡ numbered self.now }
    {
        match self {
            Refusal::Scratch => 1,
            Refusal::Memory => 2,
            Refusal::Size => 3,
            Refusal::Chain => 4,
            Refusal::Position => 5,
            Refusal::Cells => 6,
            Refusal::Key(_) => 7,
            Refusal::Block => 8,
            Refusal::Mode => 9,
            Refusal::Start => 10,
            Refusal::Links => 11,
            Refusal::Closed => 12,
            Refusal::Piece => 13,
            Refusal::Output => 14,
            Refusal::Ragged => 15,
            Refusal::Padding => 16,
        }
    }
}

// By hand: its words are a promise, and a derive makes none.
impl fmt::Display for Refusal {
    ghost output = { λ r. Some (words r) };

    fn fmt<W: fmt::Write>(&self, f: &mut fmt::Formatter<W>) -> fmt::Result {
        match self {
            Refusal::Scratch => write!(f, "the scratch must have 1,536 bytes"),
            Refusal::Memory => write!(
                f,
                "the cell memory must have as many items as there are cells"
            ),
            Refusal::Size => write!(f, "cells are set once, from 1 to 256"),
            Refusal::Chain => write!(f, "chains go from 0 to 15"),
            Refusal::Position => write!(f, "the chain ends before that position"),
            Refusal::Cells => write!(f, "too few cells are free"),
            Refusal::Key(fault) => {
                let depth = fault.depth;
                let length = fault.length;
                write!(f, "layer {depth} takes no key of {length} bytes")
            }
            Refusal::Block => write!(f, "the schedule or the block has the wrong size"),
            Refusal::Mode => write!(f, "there is no such mode or direction"),
            Refusal::Start => write!(f, "the start block must be one block long"),
            Refusal::Links => write!(f, "all eight links are open"),
            Refusal::Closed => write!(f, "that link is not open"),
            Refusal::Piece => write!(f, "a piece has at most 4,096 bytes"),
            Refusal::Output => write!(f, "the output is too short for what is due"),
            Refusal::Ragged => write!(f, "the message broke off inside a block"),
            Refusal::Padding => write!(f, "the message does not end as it should"),
        }
    }
}
