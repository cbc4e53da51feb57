// Key cells as bytes: a shelf of keys takes them, and gives them, sixteen to a cell.
ghost use Rattle.std.specs.Prelude.{◌≡◌, true, is_err};
ghost use Rattle.shelf.specs.Standing.{standing};
ghost use Rattle.shelf.specs.Calls.{Append};
ghost use Rattle.shelf.specs.Past.{AddsAppend};
ghost use Rattle.shelf.specs.Keys.{key_cells, GivesBack, GatherBytes};

use super::KeyCell;
use super::shelf::Shelf;
use refusal::Refusal;

const CELL: usize = 16;

impl Shelf<KeyCell> {
    // Adds the cells that bytes make at the end of a chain, all of them or none; a rest shorter than a cell is left out.
    pub fn append_bytes(
        &mut self,
        cells: &mut [KeyCell],
        chain: usize,
        bytes: &[u8],
    ) -> Result<(), Refusal>
        ensures outcome { Append (standing self.old.book) cells.old chain (key_cells bytes.now) result (standing self.new.book) cells.new }
        ensures kept { is_err result ≡ true → self.new ≡ self.old }
        ensures bytes { GivesBack bytes.now }
        ensures past { AddsAppend (standing self.old.book) cells.old chain (key_cells bytes.now) result (standing self.new.book) cells.new }
    {
        let (pieces, _rest) = bytes.as_chunks::<CELL>();
        self.append(cells, chain, pieces)
    }

    // Copies the bytes of a whole chain to the front of `out`, in order, and tells how many they are. It does not hand
    // `gather` the cells that `out` makes: nothing is known of what bytes hold once they were written as arrays.
    pub fn gather_bytes(
        &self,
        cells: &[KeyCell],
        chain: usize,
        out: &mut [u8],
    ) -> Result<usize, Refusal>
        ensures { GatherBytes (standing self.now.book) cells.now chain out.old result out.new }
    {
        self.admit(chain, cells.len())?;
        let count = self.book.count(chain);
        let due = CELL * count;
        if out.len() < due {
            return Err(Refusal::Output);
        }
        for (i, cell) in self.book.chain(chain).enumerate() {
            out[CELL * i..CELL * i + CELL].copy_from_slice(&cells[cell]);
        }
        Ok(due)
    }
}
