// The links of a chain book: a cell goes from the free row to a chain's end, and a whole chain goes back in one move.
ghost use Rattle.std.specs.Prelude.{◌≡◌, ℕ, ◌+◌, ◌<◌, ◌≤◌, true, [], ◌∷◌, ◌++◌, length, is_err, ◌≢◌, slice_index};
ghost use Rattle.shelf.specs.Standing.{standing, places, free as free_cells};
ghost use Rattle.shelf.specs.Items.{Without};
ghost use Rattle.shelf.specs.Calls.{Sizing, Empty, Emptied};

use super::book::{ChainBook, Row};
use super::cells::Cells;
use refusal::Refusal;
use std::array;

// The chains of a shelf.
pub const CHAINS: usize = 16;

const MOST_CELLS: u16 = 256;

const FREE: usize = 16;

// A constant and no derived `Default`: proofs see its zeros, where a call would have to tell them first.
const EMPTY: Row = Row {
    first: 0,
    last: 0,
    len: 0,
};

// Each cell linked to the one after it. (`as` is proved to lose nothing; `u8::try_from` would add a case that never comes.)
fn line() -> [u8; 256]
    ensures { (k : ℕ) → k < 255 → slice_index result k ≡ k + 1 }
{
    array::from_fn(|cell| (cell.wrapping_add(1) % 256) as u8)
}

// Chains stay plain numbers, each with `chain < 16` beside it: a type for them would be opened again at every index.
impl ChainBook {
    // No cells, and sixteen empty chains.
    pub(super) fn new() -> ChainBook
        ensures { Empty 0 (standing result) }
    {
        ChainBook {
            size: 0,
            next: [0; 256],
            rows: [EMPTY; 17],
        }
    }

    // Sets the number of cells, once.
    pub(super) fn size(&mut self, n: usize) -> Result<(), Refusal>
        ensures outcome { Sizing (standing self.old) n result (standing self.new) }
        ensures kept { is_err result ≡ true → self.new ≡ self.old }
    {
        match u16::try_from(n) {
            Ok(size @ 1..=MOST_CELLS) if self.size == 0 => {
                self.next = line();
                self.rows[FREE] = Row { len: size, ..EMPTY };
                self.size = size;
                Ok(())
            }
            _ => Err(Refusal::Size),
        }
    }

    // How many cells are free.
    pub(super) fn free(&self) -> usize
        ensures { result ≡ free_cells (standing self.now) }
    {
        usize::from(self.rows[FREE].len)
    }

    // How many cells a chain has.
    pub(super) fn count(&self, chain: usize) -> usize
        requires { chain < 16 }
        ensures { result ≡ length (places self.now chain) }
    {
        usize::from(self.rows[chain].len)
    }

    // The cells of a chain, in order.
    pub(super) fn chain(&self, chain: usize) -> Cells<'_>
        requires { chain < 16 }
        ensures { result ≡ places self.now chain }
    {
        // by field, as `link` writes them: to read the row whole would wait for those writes
        Cells {
            next: &self.next,
            cell: self.rows[chain].first,
            left: self.rows[chain].len,
        }
    }

    // Moves the first free cell to the end of a chain, and names it.
    pub(super) fn link(&mut self, chain: usize) -> usize
        requires { (chain < 16) × (0 < free_cells (standing self.old)) }
        ensures sized { self.new.size ≡ self.old.size }
        ensures within { result < self.old.size }
        ensures free { free_cells (standing self.new) + 1 ≡ free_cells (standing self.old) }
        ensures added { places self.new chain ≡ places self.old chain ++ (result ∷ []) }
        ensures others { (d : ℕ) → d < 16 → (d ≢ chain) → places self.new d ≡ places self.old d }
        ensures fresh { (d : ℕ) → d < 16 → Without result (places self.old d) }
    {
        let free = self.rows[FREE];
        let row = self.rows[chain];
        let cell = usize::from(free.first);
        self.rows[FREE] = Row {
            first: self.next[cell],
            len: free.len - 1,
            ..free
        };
        let first = if row.len == 0 {
            free.first
        } else {
            self.next[usize::from(row.last)] = free.first;
            row.first
        };
        self.rows[chain] = Row {
            first,
            last: free.first,
            len: row.len + 1,
        };
        cell
    }

    // Hands the cells of a chain that has some back to the free ones.
    pub(super) fn unlink(&mut self, chain: usize)
        requires { (chain < 16) × (0 < length (places self.old chain)) }
        ensures { Emptied (standing self.old) chain (standing self.new) }
    {
        let free = self.rows[FREE];
        let row = self.rows[chain];
        self.next[usize::from(row.last)] = free.first;
        self.rows[FREE] = Row {
            first: row.first,
            len: free.len + row.len,
            ..free
        };
        self.rows[chain] = Row { len: 0, ..row };
    }
}
