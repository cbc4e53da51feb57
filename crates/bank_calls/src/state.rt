// What a bank holds: its kit, its shelf of key cells with a chain for each link, and the link records in a plain table.
ghost use Rattle.std.specs.Prelude.{◌≡◌, ℕ, ◌<◌, ◌≤◌, true, false, [], length};
ghost use Rattle.link.specs.Record.{Fits, Clear};
ghost use Rattle.shelf.specs.Standing.{standing};
ghost use Rattle.bank_calls.specs.Table.{at};

use link::Link;
use shelf::{KeyCell, Shelf};

// How many links a bank has: a table of fixed memory, since firmware has no heap.
pub(super) const LINKS: usize = 8;

// Eight links over one kit.
#[derive(Drop)]
pub struct Bank<K> {
    pub(super) kit: K,
    pub(super) shelf: Shelf<KeyCell>,
    pub(super) links: [Link; LINKS],
    ghost eight: { length links ≡ 8 },
    ghost fits: { (i : ℕ) → (at links i).open ≡ true → Fits (at links i) },
    ghost clear: { (i : ℕ) → (at links i).open ≡ true → Clear (at links i) },
    ghost sized: { (i : ℕ) → (at links i).open ≡ true → 1 ≤ shelf.book.size },
    ghost few: { (i : ℕ) → (at links i).open ≡ true → length ((standing shelf.book).chain i) ≤ 96 },
    ghost shut: { (i : ℕ) → (i < 8) × ((at links i).open ≡ false) → (standing shelf.book).chain i ≡ [] },
}
