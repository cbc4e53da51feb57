// A set: a transceiver with its shelf of signal records, the cell memory behind it, and its radio.
ghost use Rattle.std.specs.Prelude.{◌≡◌, vec_len};

use super::radio::Radio;
use shelf::Shelf;
use signal::SignalRecord;

// One set of a search; its cell memory has as many records as its shelf has cells.
#[derive(Drop)]
pub struct Transceiver {
    pub(super) shelf: Shelf<SignalRecord>,
    pub(super) cells: Vec<SignalRecord>,
    pub(super) radio: Radio,
    ghost whole: { vec_len cells ≡ shelf.book.size },
}
