// What a set can be asked: each call answers as its shelf does.
ghost use Rattle.std.specs.Prelude.{◌≡◌, ◌<◌, ◌≤◌, length};
ghost use Rattle.ciphers.specs.Piles.{pile_meaning};
ghost use Rattle.bank.specs.Past.{New};
ghost use Rattle.shelf.specs.Standing.{free as free_cells};
ghost use Rattle.shelf.specs.Calls.{Empty, Append, Read, Gather, Drop as Dropping};
ghost use Rattle.patrol.specs.declared.calls.SizeError.TheVariants.{Refused, Memory};
ghost use Rattle.patrol.specs.Radios.{radio_books, radio_meaning};
ghost use Rattle.patrol.specs.Sets.{stands, memory, Sized, Whole};

use super::radio::Radio;
use super::set::Transceiver;
use arrayvec::ArrayVec;
use ciphers::Pile;
use refusal::Refusal;
use shelf::Shelf;
use signal::SignalRecord;
use std::alloc::{AllocError, Global};

// As many cells as a shelf can have, and so the longest list. A shelf counts in `u16`, and an `ArrayVec` asks for a `usize`, which the
// language does not compute of another constant.
pub(super) const MOST_CELLS: usize = 256;

// Why a set is given no cells: its shelf refuses, or no memory is left.
#[derive(Clone, Copy)]
pub(super) enum SizeError {
    Refused(Refusal),
    Memory(AllocError),
}

// By hand: `size` promises which error it is, and a derived `From` promises nothing.
impl From<Refusal> for SizeError {
    ghost from_gives = { λ refusal e. e ≡ Refused refusal };

    fn from(refusal: Refusal) -> SizeError {
        SizeError::Refused(refusal)
    }
}

impl From<AllocError> for SizeError {
    ghost from_gives = { λ none e. e ≡ Memory none };

    fn from(e: AllocError) -> SizeError {
        SizeError::Memory(e)
    }
}

impl Transceiver {
    // A set without cells, its radio over a cipher.
    pub(super) fn new(heap: Global, cipher: Pile) -> Transceiver
        ensures shelf { Empty 0 (stands result) }
        ensures cipher { radio_meaning result.radio ≡ pile_meaning cipher }
        ensures links { New 0 (radio_books result.radio) }
    {
        Transceiver {
            shelf: Shelf::new(),
            cells: Vec::new(heap),
            radio: Radio::over(heap, cipher),
        }
    }

    // How many cells are free.
    pub(super) fn free(&self) -> usize
        ensures { result ≡ free_cells (stands self.now) }
    {
        self.shelf.free()
    }

    // Sets the number of cells, once, and brings their memory.
    pub(super) fn size(&mut self, heap: Global, n: usize) -> Result<(), SizeError>
        ensures { Sized self.old n result self.new }
    {
        // Memory comes first, so that a shelf is not sized where none is left; none is asked for where the shelf will refuse.
        let room = if n <= MOST_CELLS { n } else { 0 };
        let cells = vec![in heap; SignalRecord::default(); room]?;
        self.shelf.size(n)?;
        self.cells = cells;
        Ok(())
    }

    // Adds records at the end of a list: all of them or none.
    pub(super) fn hear(&mut self, list: usize, records: &[SignalRecord]) -> Result<(), Refusal>
        ensures outcome { Append (stands self.old) (memory self.old) list records.now result (stands self.new) (memory self.new) }
        ensures radio { self.new.radio ≡ self.old.radio }
    {
        self.shelf.append(self.cells.as_mut_slice(), list, records)
    }

    // The record at a position of a list, counted from 0.
    pub(super) fn read(&self, list: usize, position: usize) -> Result<SignalRecord, Refusal>
        ensures { Read (stands self.now) (memory self.now) list position result }
    {
        self.shelf.read(self.cells.as_slice(), list, position)
    }

    // Copies a whole list to the front of `out`, and tells how many records it has.
    pub(super) fn gather(&self, list: usize, out: &mut [SignalRecord]) -> Result<usize, Refusal>
        ensures { Gather (stands self.now) (memory self.now) list out.old result out.new }
    {
        self.shelf.gather(self.cells.as_slice(), list, out)
    }

    // A whole list.
    pub(super) fn whole(&self, list: usize) -> Result<ArrayVec<SignalRecord, MOST_CELLS>, Refusal>
        ensures { Whole (λ records. records.items) (stands self.now) (memory self.now) list result }
    {
        let mut records = ArrayVec::from([SignalRecord::default(); MOST_CELLS]);
        let count = self.gather(list, records.as_mut_slice())?;
        records.truncate(count);
        Ok(records)
    }

    // How many records a list has; none where there is no such list.
    pub(super) fn count(&self, list: usize) -> usize
        ensures listed { list < 16 → result ≡ length ((stands self.now).chain list) }
        ensures none { 16 ≤ list → result ≡ 0 }
    {
        self.shelf.count(list).unwrap_or(0)
    }

    // Loses a list: its cells are free again.
    pub(super) fn lose(&mut self, list: usize) -> Result<(), Refusal>
        ensures outcome { Dropping (stands self.old) list result (stands self.new) }
        ensures memory { memory self.new ≡ memory self.old }
        ensures radio { self.new.radio ≡ self.old.radio }
    {
        self.shelf.drop_chain(list)
    }
}
