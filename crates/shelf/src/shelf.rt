// A shelf of items of one kind, in cell memory that each call is lent.
ghost use Rattle.std.specs.Prelude.{◌≡◌, ℕ, true, List, [], length, is_err, Ok};
ghost use Rattle.shelf.specs.Standing.{standing, free as free_cells};
ghost use Rattle.refusal.specs.Checks.{first, refusal};
ghost use Rattle.shelf.specs.Calls.{access_checks, Empty, Sizing, Count, Append, Read, Gather, Drop as Dropping};
ghost use Rattle.shelf.specs.Past.{Law, Ran, AddsAppend, AddsRead, AddsDrop};

use super::book::ChainBook;
use super::links::CHAINS;
use refusal::Refusal;
use std::marker::PhantomData;

// Clauses see the shelf itself and not, by an `impl Model`, its standing alone: `kept` promises every link as it was.
#[derive(Drop)]
pub struct Shelf<T> {
    pub(super) book: ChainBook,
    kind: PhantomData<T>,
}

impl<T: Copy> Shelf<T> {
    // No cells, and sixteen empty chains.
    pub fn new() -> Shelf<T>
        ensures { Empty 0 (standing result.book) }
    {
        Shelf {
            book: ChainBook::new(),
            kind: PhantomData,
        }
    }

    // Sets the number of cells, once. From then on shelf and memory have a past, and every past obeys the law.
    pub fn size(&mut self, n: usize) -> Result<(), Refusal>
        ensures outcome { Sizing (standing self.old.book) n result (standing self.new.book) }
        ensures kept { is_err result ≡ true → self.new ≡ self.old }
        ensures begins { result ≡ Ok tt → (cells : List T) → length cells ≡ n → Ran n [] (standing self.new.book) cells }
        ensures law { Law T }
    {
        self.book.size(n)
    }

    // How many cells there are.
    pub fn cells(&self) -> usize
        ensures { result ≡ (standing self.now.book).size }
    {
        usize::from(self.book.size)
    }

    // How many cells are free.
    pub fn free(&self) -> usize
        ensures { result ≡ free_cells (standing self.now.book) }
    {
        self.book.free()
    }

    // How many items a chain has.
    pub fn count(&self, chain: usize) -> Result<usize, Refusal>
        ensures { Count (standing self.now.book) chain result }
    {
        if chain >= CHAINS {
            return Err(Refusal::Chain);
        }
        Ok(self.book.count(chain))
    }

    // What every call on a chain in cell memory checks first: the chain, and then how many items the memory has.
    pub(super) fn admit(&self, chain: usize, shown: usize) -> Result<(), Refusal>
        ensures { refusal result ≡ first (access_checks self.now.book.size shown chain) }
    {
        self.count(chain)?;
        if shown != usize::from(self.book.size) {
            return Err(Refusal::Memory);
        }
        Ok(())
    }

    // Adds items at the end of a chain, in the order given: all of them or none.
    pub fn append(&mut self, cells: &mut [T], chain: usize, items: &[T]) -> Result<(), Refusal>
        ensures outcome { Append (standing self.old.book) cells.old chain items.now result (standing self.new.book) cells.new }
        ensures kept { is_err result ≡ true → self.new ≡ self.old }
        ensures past { AddsAppend (standing self.old.book) cells.old chain items.now result (standing self.new.book) cells.new }
    {
        self.admit(chain, cells.len())?;
        if self.book.free() < items.len() {
            return Err(Refusal::Cells);
        }
        for item in items {
            let cell = self.book.link(chain);
            cells[cell] = *item;
        }
        Ok(())
    }

    // The item at a position of a chain, counted from 0.
    pub fn read(&self, cells: &[T], chain: usize, position: usize) -> Result<T, Refusal>
        ensures outcome { Read (standing self.now.book) cells.now chain position result }
        ensures past { AddsRead (standing self.now.book) cells.now chain position result }
    {
        self.admit(chain, cells.len())?;
        // before the walk, which would go through the whole chain first
        if position >= self.book.count(chain) {
            return Err(Refusal::Position);
        }
        let cell = self
            .book
            .chain(chain)
            .nth(position)
            .ok_or(Refusal::Position)?;
        Ok(cells[cell])
    }

    // Copies a whole chain to the front of `out`, in order, and tells how many items it has.
    pub fn gather(&self, cells: &[T], chain: usize, out: &mut [T]) -> Result<usize, Refusal>
        ensures { Gather (standing self.now.book) cells.now chain out.old result out.new }
    {
        self.admit(chain, cells.len())?;
        let count = self.book.count(chain);
        if out.len() < count {
            return Err(Refusal::Output);
        }
        // Not `out.iter_mut().zip(..)`: after it nothing is known of what `out` holds.
        for (i, cell) in self.book.chain(chain).enumerate() {
            out[i] = cells[cell];
        }
        Ok(count)
    }

    // Empties a chain: its cells are free again, and keep their items.
    pub fn drop_chain(&mut self, chain: usize) -> Result<(), Refusal>
        ensures outcome { Dropping (standing self.old.book) chain result (standing self.new.book) }
        ensures kept { is_err result ≡ true → self.new ≡ self.old }
        ensures past { AddsDrop T (standing self.old.book) chain result (standing self.new.book) }
    {
        if self.count(chain)? > 0 {
            self.book.unlink(chain);
        }
        Ok(())
    }
}
