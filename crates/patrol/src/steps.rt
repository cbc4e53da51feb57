// What a set does for itself, told as an event.
ghost use Rattle.std.specs.Prelude.{◌≡◌, IfOk};
ghost use Rattle.shelf.specs.Standing.{free as free_cells};
ghost use Rattle.bank.specs.Books.{links};
ghost use Rattle.patrol.specs.Sets.{stands, memory};
ghost use Rattle.patrol.specs.Radios.{radio_books};
ghost use Rattle.patrol.specs.Steps.{refused_of, unlinked_of, Joins, Hears, Loses, Tells, SizesTold, KeysTold, Keys};

use super::calls::SizeError;
use super::event::{Event, Refused, Side, Undone};
use super::set::Transceiver;
use ciphers::Pile;
use refusal::Refusal;
use signal::SignalRecord;
use std::alloc::Global;

impl Transceiver {
    // A refused call leaves the set as it was, so what is free now was free then.
    pub(super) fn refused(&self, by: Side, refusal: Refusal, needed: Option<usize>) -> Refused
        ensures { result ≡ refused_of self.now by refusal needed }
    {
        Refused {
            by,
            refusal,
            free: self.free(),
            needed,
        }
    }

    // The same of a call on its radio.
    pub(super) fn unlinked(&self, by: Side, refusal: Refusal, needed: Option<usize>) -> Refused
        ensures { result ≡ unlinked_of self.now by refusal needed }
    {
        let (free, _) = self.radio.count();
        Refused {
            by,
            refusal,
            free,
            needed,
        }
    }

    // The set has its cells, and its radio the key cells where a number is told.
    pub(super) fn joined(
        &mut self,
        heap: Global,
        cells: usize,
        key_cells: Option<usize>,
    ) -> Result<Event, Undone>
        ensures { IfOk result (λ e. Joins self.old cells key_cells e self.new) }
    {
        self.sized(heap, cells)?;
        if let Some(n) = key_cells {
            self.keys_sized(heap, n)?;
        }
        Ok(Event::Joined { cells, key_cells })
    }

    // The set is given cells.
    pub(super) fn sized(&mut self, heap: Global, cells: usize) -> Result<Event, Undone>
        ensures { SizesTold self.old cells result self.new }
    {
        self.size(heap, cells).map_err(|e| match e {
            SizeError::Refused(refusal) => Undone::from(self.refused(
                Side::Own,
                refusal,
                Some(cells),
            )),
            SizeError::Memory(e) => Undone::from(e),
        })?;
        Ok(Event::Sized { cells })
    }

    // The set's radio is given key cells.
    pub(super) fn keys_sized(&mut self, heap: Global, cells: usize) -> Result<Event, Undone>
        ensures outcome { KeysTold self.old cells result self.new }
        ensures shelf { self.new.shelf ≡ self.old.shelf }
        ensures memory { self.new.cells ≡ self.old.cells }
    {
        self.radio.size(heap, cells).map_err(|e| match e {
            SizeError::Refused(refusal) => Undone::from(self.unlinked(
                Side::Own,
                refusal,
                Some(cells),
            )),
            SizeError::Memory(e) => Undone::from(e),
        })?;
        Ok(Event::KeysSized { cells })
    }

    // The set hears beacons: all of them go onto the list, or none.
    pub(super) fn heard(&mut self, list: usize, records: &[SignalRecord]) -> Result<Event, Refused>
        ensures outcome { Hears self.old list records.now result self.new }
        ensures radio { self.new.radio ≡ self.old.radio }
    {
        self.hear(list, records).map_err(|refusal| self.refused(
            Side::Own,
            refusal,
            Some(records.len()),
        ))?;
        Ok(Event::Heard {
            list,
            records: records.len(),
            free: self.free(),
        })
    }

    // The set loses a list.
    pub(super) fn lost(&mut self, list: usize) -> Result<Event, Refused>
        ensures outcome { Loses self.old list result self.new }
        ensures memory { memory self.new ≡ memory self.old }
        ensures radio { self.new.radio ≡ self.old.radio }
    {
        let before = self.free();
        self.lose(list)
            .map_err(|refusal| self.refused(Side::Own, refusal, None))?;
        let free = self.free();
        Ok(Event::Lost {
            list,
            records: free.saturating_sub(before),
            free,
        })
    }

    // The set reads one record.
    pub(super) fn told(&self, list: usize, position: usize) -> Result<Event, Refused>
        ensures { Tells self.now list position result }
    {
        let record = self
            .read(list, position)
            .map_err(|refusal| self.refused(Side::Own, refusal, None))?;
        Ok(Event::Told {
            list,
            position,
            record,
        })
    }

    // The set tells how much is free.
    pub(super) fn counted(&self) -> Event
        ensures { result ≡ Event.Counted (free_cells (stands self.now)) (radio_books self.now.radio).room (links (radio_books self.now.radio)) }
    {
        let (key_cells, links) = self.radio.count();
        Event::Counted {
            free: self.free(),
            key_cells,
            links,
        }
    }

    // The set tells what a link would need under a cipher and a key of so many bytes.
    pub(super) fn keyed(&self, cipher: Pile, bytes: usize) -> Result<Event, Refused>
        ensures { Keys self.now cipher bytes result }
    {
        let cells = cipher
            .need(bytes)
            .map_err(|refusal| self.refused(Side::Own, refusal, None))?;
        Ok(Event::Keyed {
            cipher,
            bytes,
            cells,
        })
    }
}
