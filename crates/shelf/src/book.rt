// The book of a shelf: which cells each chain has, in order, and which are free. It holds no items, so any owner of
// the cell memory can stand behind it.
ghost use Rattle.std.specs.Prelude.{◌≡◌, ◌≤◌, sum};
ghost use Rattle.shelf.specs.Links.{firsts, lasts, lens, Within, Apart, Ends};

// A row of linked cells: where it begins, where it ends, and how long it is. No `Option` for an empty one: its length tells that.
#[derive(Clone, Copy)]
pub(super) struct Row {
    pub(super) first: u8,
    pub(super) last: u8,
    pub(super) len: u16,
}

// Rows 0 to 15 are the chains, and row 16 links the free cells, in one table since all are linked alike; where that one ends is never
// asked for. `next` names the cell after each: with no heap, the links between cells stay in a table of cell numbers.
#[derive(Drop)]
pub struct ChainBook {
    pub(super) size: u16,
    pub(super) next: [u8; 256],
    pub(super) rows: [Row; 17],
    ghost few: { size ≤ 256 },
    ghost whole: { sum (lens rows) ≡ size },
    ghost within: { Within next (firsts rows) (lens rows) size },
    ghost apart: { Apart next (firsts rows) (lens rows) },
    ghost ends: { Ends next (firsts rows) (lasts rows) (lens rows) },
}
