// The modes CBC, CFB and OFB over any block cipher, and the byte machine of a link.
// Promises that receiving inverts sending, for every text, in all modes, however the bytes are cut into pieces.
// Rests on the bytes and the XOR of crate block, and on the refusals of crate refusal.
#![tactic(auto)]

ghost use Rattle.modes.specs.Laws.{PiecesJoin, SendsCiphertext, OneCiphertext, SameCiphertext, ReceivingInverts, ReceivesPlaintext, ReceivesCiphertext, ReceivesBytes, Counts, EndsCount, HoldsCount, RaggedByCount};

pub mod join;
mod numbers;
pub mod padding;

// How each block is chained to the one before.
#[derive(Clone, Copy, Debug, PartialEq, Eq)]
pub enum Mode {
    Cbc,
    Cfb,
    Ofb,
}

// Whether a link takes text and gives ciphertext, or the other way.
#[derive(Clone, Copy, Debug, PartialEq, Eq)]
pub enum Direction {
    Send,
    Receive,
}

// From open to end a sending link gives its mode's ciphertext; a receiving link that takes it, in any pieces,
// ends without a refusal and has given the text. Of any bytes it gives the text that the mode leads them back to, or there is
// none and its end is refused.
pub fn receiving_inverts_sending()
    ensures pieces { PiecesJoin }
    ensures sends { SendsCiphertext }
    ensures one { OneCiphertext }
    ensures alike { SameCiphertext }
    ensures inverts { ReceivingInverts }
    ensures hears { ReceivesPlaintext }
    ensures receives { ReceivesCiphertext }
    ensures judges { ReceivesBytes }
{}

// How many bytes each piece and an end give, and how many are held, in every mode and direction; a piece leaves a state that a
// link can have. An end is ragged by the number of bytes taken.
pub fn counts_stand()
    ensures pieces { Counts }
    ensures ends { EndsCount }
    ensures holds { HoldsCount }
    ensures ragged { RaggedByCount }
{}
