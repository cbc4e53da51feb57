// The messages of radio links as the data files have them, and the pieces in which they are put into a link.
// Promises nothing of its own: a line that is of no form is a fault.
// Rests on the digits (compare).
use compare::{Fault, Way, parse_hex};
use std::alloc::Global;

#[derive(Drop)]
pub struct Message {
    // the number that a bank has for it
    pub mode: u8,
    pub key: Vec<u8>,
    pub start: Vec<u8>,
    pub text: Vec<u8>,
    pub due: Vec<u8>,
    // the lengths of the text's pieces
    sent: Vec<usize>,
    // the lengths of the ciphertext's pieces
    heard: Vec<usize>,
}

impl Message {
    // Of the fields after the line's word.
    pub fn of(heap: Global, fields: &[&str]) -> Result<Message, Fault> {
        let [mode, key, start, text, due, sent, heard] = fields else {
            return Err(Fault::Form("`message MODE KEY START TEXT CIPHER SENT HEARD`"));
        };
        Ok(Message {
            mode: mode_number(mode)?,
            key: parse_hex(heap, key)?,
            start: parse_hex(heap, start)?,
            text: parse_hex(heap, or_none(text))?,
            due: parse_hex(heap, or_none(due))?,
            sent: lengths(heap, sent)?,
            heard: lengths(heap, heard)?,
        })
    }

    // The pieces of the text, or on the way back those of the ciphertext.
    pub fn pieces(&self, heap: Global, way: Way) -> Result<Vec<&[u8]>, Fault> {
        let (mut rest, lengths) = match way {
            Way::Forth => (self.text.as_slice(), self.sent.as_slice()),
            Way::Back => (self.due.as_slice(), self.heard.as_slice()),
        };
        let mut pieces = Vec::new(heap);
        for length in lengths {
            let (piece, after) = rest
                .split_at_checked(*length)
                .ok_or(Fault::Form("pieces within the message"))?;
            pieces.push(piece)?;
            rest = after;
        }
        if rest.is_empty() {
            Ok(pieces)
        } else {
            Err(Fault::Form("pieces up to the message's end"))
        }
    }
}

fn mode_number(name: &str) -> Result<u8, Fault> {
    match name {
        "cbc" => Ok(1),
        "cfb" => Ok(2),
        "ofb" => Ok(3),
        _ => Err(Fault::Form("a mode: cbc, cfb or ofb")),
    }
}

// A field whose `-` stands for nothing, since no field is empty.
fn or_none(field: &str) -> &str {
    if field == "-" { "" } else { field }
}

fn lengths(heap: Global, field: &str) -> Result<Vec<usize>, Fault> {
    let mut lengths = Vec::new(heap);
    if field == "-" {
        return Ok(lengths);
    }
    for word in field.split(',') {
        let length = word
            .parse()
            .map_err(|_| Fault::Form("lengths of pieces, as 5,27,0,16"))?;
        lengths.push(length)?;
    }
    Ok(lengths)
}
