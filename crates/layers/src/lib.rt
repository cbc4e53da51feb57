// Layers over block ciphers: whitening over a kit, and the cascade of two; each is a kit again.
// Promises for every kit below which keys a layer takes, how deep a refusal stands, and what it enciphers.
// Rests on the interface of crate kit, the XOR of crate block, and the faults of crate refusal.
#![tactic(auto)]

ghost use Rattle.std.specs.Prelude.{◌≡◌, ℕ, Result};
ghost use Rattle.refusal.specs.declared.KeyFault.{KeyFault};
ghost use Rattle.kit.specs.Calls.{told};
ghost use Rattle.layers.specs.Depth.{risen as one_deeper, bounded as in_bounds};

mod cascade;
mod whitening;

pub use cascade::Cascade;
use refusal::{KeyFault, Refusal};
pub use whitening::Whitening;

// The most that a kit may need or take: cells of a schedule, bytes of a key.
const MAX_CELLS: usize = 96;

const MAX_KEY: usize = 256;

// An answer from below, as a layer passes it on: a refusal stands one deeper, and a depth of 255 grows no further.
fn risen(answer: Result<usize, Refusal>) -> Result<usize, Refusal>
    ensures { (below : Result ℕ KeyFault) → answer ≡ told below → result ≡ told (one_deeper below) }
{
    answer.map_err(|reason| match reason {
        Refusal::Key(fault) => Refusal::Key(KeyFault {
            depth: fault.depth.saturating_add(1),
            ..fault
        }),
        other => other,
    })
}

// The cells of a key of `len` bytes, if a layer may have so many cells and bytes.
fn bounded(len: usize, cells: usize) -> Result<usize, Refusal>
    ensures { result ≡ told (in_bounds len cells) }
{
    if cells > MAX_CELLS || len > MAX_KEY {
        return Err(KeyFault::here(len).into());
    }
    Ok(cells)
}
