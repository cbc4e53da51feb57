// A report as it goes over a link: how many records, in two bytes, the most significant first, and then each record's bytes.
ghost use Rattle.std.specs.Prelude.{◌≡◌, ℕ, ◌^◌, ◌<◌, List, ◌++◌, length, map, IfOk, IfSome, MatchOption};
ghost use Rattle.signal.specs.Coded.{coded};
ghost use Rattle.signal.specs.declared.record.SignalRecord.{SignalRecord};
ghost use Rattle.patrol.specs.Reports.{report_bytes, told_bytes, Begins};

use super::calls::MOST_CELLS;
use arrayvec::ArrayVec;
use signal::SignalRecord;
use std::alloc::{AllocError, Global};

// The bytes of a record.
const RECORD: usize = 11;

// The bytes of a report of a whole list.
pub(super) fn written(
    heap: Global,
    list: &ArrayVec<SignalRecord, MOST_CELLS>,
) -> Result<Vec<u8>, AllocError>
    ensures { IfOk result (λ v. v.items ≡ report_bytes list.now.items) }
{
    let records = list.as_slice();
    let count = records.len() as u16;
    let mut text = Vec::from_slice(heap, &count.to_be_bytes())?;
    for record in records {
        text.extend_from_slice(&record.to_bytes())?;
    }
    Ok(text)
}

// The records of the first report of a text, once it has come whole, and what came after it.
pub(super) fn first(text: &[u8]) -> Option<(&[[u8; RECORD]], &[u8])>
    ensures cases { MatchOption result (length text.now < told_bytes text.now) (λ r. Begins text.now r.0.now r.1.now) }
    ensures back { (list : List SignalRecord) (rest : List ℕ) → length list < 2 ^ 16 → text.now ≡ report_bytes list ++ rest → MatchOption result ⊥ (λ r. (r.0.now ≡ map coded list) × (r.1.now ≡ rest)) }
    ensures less { IfSome result (λ r. length r.1.now < length text.now) }
{
    let (count, rest) = text.split_first_chunk::<2>()?;
    let bytes = RECORD * usize::from(u16::from_be_bytes(*count));
    let (body, rest) = rest.split_at_checked(bytes)?;
    let (records, _) = body.as_chunks::<RECORD>();
    Some((records, rest))
}
