// What probers need of a set: each beacon once at its nearest, nearest first; then the lists.
ghost use Rattle.std.specs.Prelude.{◌≡◌, IfOk};
ghost use Rattle.patrol.specs.Sets.{stands, memory, whole_or_none};

use super::calls::MOST_CELLS;
use super::set::Transceiver;
use shelf::CHAINS;
use signal::SignalRecord;
use std::alloc::{AllocError, Global};
use std::collections::BTreeMap;
use std::fmt;

// What is told of a set: its nearest beacons and its lists.
#[derive(Drop)]
pub struct Board {
    pub nearest: Vec<SignalRecord>,
    pub lists: Vec<Listed>,
}

// A list that has records.
#[derive(Drop)]
pub struct Listed {
    pub list: usize,
    pub records: Vec<SignalRecord>,
}

impl Board {
    // Reads all lists of a set.
    pub(super) fn of(heap: Global, set: &Transceiver) -> Result<Board, AllocError> {
        let lists = lists(heap, set)?;
        let nearest = nearest(heap, lists.as_slice())?;
        Ok(Board { nearest, lists })
    }
}

// The lists of a set that have records.
pub(super) fn lists(heap: Global, set: &Transceiver) -> Result<Vec<Listed>, AllocError> {
    (0..CHAINS)
        .filter(|list| set.count(*list) > 0)
        .map(|list| whole(heap, set, list).map(|records| Listed { list, records }))
        .try_collect(heap)
}

// A whole list of a set, in a vector of its own length. Every list that is asked for is there; what would be refused is told as
// empty.
fn whole(heap: Global, set: &Transceiver, list: usize) -> Result<Vec<SignalRecord>, AllocError>
    ensures { IfOk result (λ records. records.items ≡ whole_or_none (stands set.now) (memory set.now) list) }
{
    // not by `Transceiver::whole`, whose answer would be moved and copied once more
    let mut room = [SignalRecord::default(); MOST_CELLS];
    match set.gather(list, &mut room) {
        Ok(count) => Vec::from_slice(heap, &room[..count]),
        Err(_) => Ok(Vec::new(heap)),
    }
}

// Each beacon once, by its nearest record. (The chain over all records stands in `season` too: no function can hand an iterator out
// without naming its type.)
fn by_beacon(heap: Global, lists: &[Listed]) -> Result<BTreeMap<u32, SignalRecord>, AllocError> {
    let mut best: BTreeMap<u32, SignalRecord> = BTreeMap::new(heap);
    for record in lists.iter().flat_map(|listed| listed.records.iter()) {
        best.entry(record.beacon)?
            .and_modify(|known| *known = known.nearer(*record))
            .or_insert(*record);
    }
    Ok(best)
}

// The same, nearest first; of two as near, the lower beacon first.
fn nearest(heap: Global, lists: &[Listed]) -> Result<Vec<SignalRecord>, AllocError> {
    let mut all: Vec<SignalRecord> = by_beacon(heap, lists)?.into_values().collect(heap)?;
    all.sort_unstable_by_key(|record| (record.distance, record.beacon));
    Ok(all)
}

impl fmt::Display for Board {
    fn fmt<W: fmt::Write>(&self, f: &mut fmt::Formatter<W>) -> fmt::Result {
        if self.lists.is_empty() {
            return writeln!(f, "  no records");
        }
        writeln!(f, "  nearest first")?;
        for record in self.nearest.iter() {
            writeln!(f, "    {record}")?;
        }
        for listed in self.lists.iter() {
            let list = listed.list;
            writeln!(f, "  list {list}")?;
            for record in listed.records.iter() {
                writeln!(f, "    {record}")?;
            }
        }
        Ok(())
    }
}
