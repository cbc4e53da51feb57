// A set's radio: a bank of links over the cipher of its search, with the key cells behind it and a scratch.
ghost use Rattle.std.specs.Prelude.{◌≡◌, ◌≤◌, [], vec_len, OnErr, IfErr};
ghost use Rattle.ciphers.specs.Piles.{pile_meaning};
ghost use Rattle.bank.specs.Books.{links};
ghost use Rattle.bank.specs.Calls.{Opens, Puts, Ends, Strikes};
ghost use Rattle.bank.specs.Past.{New};
ghost use Rattle.bank_calls.specs.Calls.{Written, Wiped, asked, lengths, number, gave, reason};
ghost use Rattle.patrol.specs.Radios.{key_memory, radio_books, radio_meaning, Sized};

use super::calls::{MOST_CELLS, SizeError};
use bank_calls::{Bank, Returned, Ticket};
use ciphers::{Coated, Narrow, Pile, Wide};
use kit::width_of;
use refusal::Refusal;
use shelf::KeyCell;
use std::alloc::Global;

// The scratch that a bank asks for.
const SCRATCH: usize = 1536;

// A bank for ciphers of either width: a kit's width is in its type, so that each is a bank of its own.
#[derive(Drop)]
enum Links {
    Narrow(Bank<Coated<Narrow>>),
    Wide(Bank<Coated<Wide>>),
}

macro_rules! of_bank {
    ($links:expr, $bank:ident => $call:expr) => {
        match $links {
            Links::Narrow($bank) => $call,
            Links::Wide($bank) => $call,
        }
    };
}

// A bank, the cells that it is lent, and its scratch.
#[derive(Drop)]
pub struct Radio {
    links: Links,
    cells: Vec<KeyCell>,
    scratch: [u8; SCRATCH],
}

// What both sides of a link agree on.
#[derive(Clone, Copy)]
pub(super) struct Agreed<'a> {
    pub(super) mode: u8,
    pub(super) key: &'a [u8],
    pub(super) start: &'a [u8],
}

// The bytes of a cipher's block.
pub(super) fn width(cipher: Pile) -> usize
    ensures is { result ≡ (pile_meaning cipher).width }
    ensures small { result ≤ 32 }
{
    match cipher {
        Pile::Narrow(kit) => width_of(&kit),
        Pile::Wide(kit) => width_of(&kit),
    }
}

impl Radio {
    // A radio without key cells.
    pub(super) fn over(heap: Global, cipher: Pile) -> Radio
        ensures cipher { radio_meaning result ≡ pile_meaning cipher }
        ensures links { New 0 (radio_books result) }
        ensures cells { key_memory result ≡ [] }
    {
        Radio {
            links: match cipher {
                Pile::Narrow(kit) => Links::Narrow(Bank::over(kit)),
                Pile::Wide(kit) => Links::Wide(Bank::over(kit)),
            },
            cells: Vec::new(heap),
            scratch: [0; SCRATCH],
        }
    }

    // Sets the number of key cells, once, and brings their memory.
    pub(super) fn size(&mut self, heap: Global, n: usize) -> Result<(), SizeError>
        ensures { Sized self.old n result self.new }
    {
        // as for a shelf: memory first, and none where the bank will refuse
        let room = if n <= MOST_CELLS { n } else { 0 };
        let cells = vec![in heap; [0; 16]; room]?;
        of_bank!(&mut self.links, bank => bank.size(n))?;
        self.cells = cells;
        Ok(())
    }

    // How many key cells are free, and how many links are open.
    pub(super) fn count(&self) -> (usize, usize)
        ensures free { result.0 ≡ (radio_books self.now).room }
        ensures links { result.1 ≡ links (radio_books self.now) }
    {
        of_bank!(&self.links, bank => bank.count())
    }

    // Opens a link in a direction, 0 to send and 1 to receive.
    pub(super) fn open(&mut self, direction: u8, agreed: &Agreed<'_>) -> Result<Ticket, Refusal>
        ensures outcome { Opens (radio_meaning self.old) (radio_books self.old) (asked self.old.scratch (key_memory self.old) agreed.now.mode direction agreed.now.key.now agreed.now.start.now) (number result) (radio_books self.new) }
        ensures scratch { Wiped self.old.scratch self.new.scratch }
        ensures cells { vec_len self.new.cells ≡ vec_len self.old.cells }
        ensures refused { OnErr result (key_memory self.new ≡ key_memory self.old) }
        ensures cipher { radio_meaning self.new ≡ radio_meaning self.old }
    {
        let Agreed { mode, key, start } = *agreed;
        let cells = self.cells.as_mut_slice();
        of_bank!(&mut self.links, bank => bank.open(&mut self.scratch, cells, mode, direction, key, start))
    }

    // Puts a piece on a link; tells how many bytes at the front of `out` it gives.
    pub(super) fn put(
        &mut self,
        link: usize,
        piece: &[u8],
        out: &mut [u8],
    ) -> Result<usize, Refusal>
        ensures outcome { Puts (radio_meaning self.old) (radio_books self.old) (lengths self.old.scratch (key_memory self.old) out.old) link piece.now (gave result out.new) (radio_books self.new) }
        ensures scratch { Wiped self.old.scratch self.new.scratch }
        ensures cells { self.new.cells ≡ self.old.cells }
        ensures output { Written out.old result out.new }
        ensures cipher { radio_meaning self.new ≡ radio_meaning self.old }
    {
        let cells = self.cells.as_slice();
        of_bank!(&mut self.links, bank => bank.put(&mut self.scratch, cells, link, piece, out))
    }

    // Ends a link; tells how many bytes at the front of `out` it still gives.
    pub(super) fn end(&mut self, ticket: Ticket, out: &mut [u8]) -> Result<usize, Returned>
        ensures outcome { Ends (radio_meaning self.old) (radio_books self.old) (lengths self.old.scratch (key_memory self.old) out.old) ticket.link (gave (reason result) out.new) (radio_books self.new) }
        ensures scratch { Wiped self.old.scratch self.new.scratch }
        ensures cells { self.new.cells ≡ self.old.cells }
        ensures output { Written out.old (reason result) out.new }
        ensures ticket { IfErr result (λ e. e.ticket ≡ ticket) }
        ensures cipher { radio_meaning self.new ≡ radio_meaning self.old }
    {
        let cells = self.cells.as_slice();
        of_bank!(&mut self.links, bank => bank.end(&mut self.scratch, cells, ticket, out))
    }

    // Closes a link at once.
    pub(super) fn strike(&mut self, ticket: Ticket)
        ensures outcome { Strikes (radio_books self.old) ticket.link (radio_books self.new) }
        ensures cells { self.new.cells ≡ self.old.cells }
        ensures cipher { radio_meaning self.new ≡ radio_meaning self.old }
    {
        of_bank!(&mut self.links, bank => bank.strike(ticket))
    }
}
