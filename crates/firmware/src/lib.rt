// A radio of a set's firmware: a bank of links over AES, with the memory that it is lent.
// Promises how much of its buffer a message fills.
// Rests on aes, bank_calls, shelf and refusal.
#![tactic(auto)]

ghost use Rattle.std.specs.Prelude.{◌≤◌, length, IfOk};

use aes::Aes;
use bank_calls::{Bank, Returned};
use refusal::Refusal;
use shelf::KeyCell;

// The bank, and beside it the memory and the scratch that each call is lent. A link under a key of 16 bytes needs 11 cells.
#[derive(Drop)]
pub struct Radio {
    bank: Bank<Aes>,
    cells: [KeyCell; 22],
    scratch: [u8; 1536],
}

impl Radio {
    pub fn new() -> Result<Radio, Refusal> {
        let mut bank = Bank::over(Aes);
        bank.size(22)?;
        Ok(Radio {
            bank,
            cells: [[0; 16]; 22],
            scratch: [0; 1536],
        })
    }

    // Takes a whole message over a CBC link of its own, to send (0) or to receive (1); tells how many bytes of `out` it gave.
    pub fn carry(
        &mut self,
        direction: u8,
        key: &[u8],
        start: &[u8],
        message: &[u8],
        out: &mut [u8],
    ) -> Result<usize, Refusal>
        ensures { IfOk result (λ n. n ≤ length out.old) }
    {
        let ticket = self.bank.open(&mut self.scratch, &mut self.cells, 1, direction, key, start)?;
        // From here on no `?`: it would let go of the ticket, which the compiler refuses.
        let given = match self.put_all(ticket.link(), message, out) {
            Ok(given) => given,
            Err(refusal) => {
                self.bank.strike(ticket);
                return Err(refusal);
            }
        };
        match self
            .bank
            .end(&mut self.scratch, &self.cells, ticket, &mut out[given..])
        {
            Ok(last) => Ok(given + last),
            Err(Returned { refusal, ticket }) => {
                self.bank.strike(ticket);
                Err(refusal)
            }
        }
    }

    // Puts a message on a link in pieces. It has the link's number and not the ticket, so that `?` may leave it.
    fn put_all(&mut self, link: usize, message: &[u8], out: &mut [u8]) -> Result<usize, Refusal>
        ensures { IfOk result (λ n. n ≤ length out.old) }
    {
        let mut given = 0;
        for piece in message.chunks(40) {
            given += self.bank.put(
                &mut self.scratch,
                &self.cells,
                link,
                piece,
                &mut out[given..],
            )?;
        }
        Ok(given)
    }
}
