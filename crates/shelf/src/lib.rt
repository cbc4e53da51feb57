// Shelves: sixteen chains of items over cells in memory that the caller lends; any free cell serves any chain.
// Promises of every call its answer, the first refusal due, and what shelf and memory then hold; and of every past
// that an append is refused for want of cells exactly when too few are free, and a read gives what was left there.
// Rests on `refusal` alone: no heap, no search, no copy of the chains.
#![tactic(auto)]

mod book;
mod cells;
mod keys;
mod links;
mod shelf;

pub use links::CHAINS;
pub use shelf::Shelf;

// One piece of a round key: what a shelf of keys holds in a cell.
pub type KeyCell = [u8; 16];
