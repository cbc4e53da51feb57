// The comparisons: a value with the one that is due, a block enciphered, an answer deciphered.
// Promises that exactly what is equal passes, what a passed answer says of the cipher's definition, and why one does not pass.
// Rests on the ciphers (cipher).
ghost use Rattle.std.specs.Prelude.{◌≡◌, ◌*◌, ◌+◌, ◌≤◌, ◌↔◌, None, take, drop, length, codes, IfOk, IfErr, OnOk, IsOk};
ghost use Rattle.kit.specs.Calls.{cipher_refusal};
ghost use Rattle.compare.specs.Ciphers.{meaning, ciphered};
ghost use Rattle.compare.specs.Faults.{Tells, Explains, Unkeyed, Expects};
ghost use Rattle.compare.specs.declared.fault.Value.TheVariants.{Answer};

use crate::cipher::Cipher;
use crate::fault::{Fault, Value, Way};
use std::alloc::Global;

// Passes where the program's value is the one that the data have.
pub fn hold(heap: Global, value: Value, found: &[u8], due: &[u8]) -> Result<(), Fault>
    ensures passes { IsOk result ↔ (found.now ≡ due.now) }
    ensures fault { IfErr result (λ fault. Tells value found.now due.now fault) }
{
    if found == due {
        return Ok(());
    }
    let found = hex::encode_upper(heap, found).map_err(Fault::Memory)?;
    Err(Fault::Differs { value, found })
}

// A cipher under a key, of which it keeps the length and the schedule.
#[derive(Debug, Drop)]
pub struct Keyed {
    pub cipher: Cipher,
    pub length: usize,
    pub schedule: Vec<u8>,
}

impl Keyed {
    // A cipher under `key`.
    pub fn of(heap: Global, cipher: Cipher, key: &[u8]) -> Result<Keyed, Fault>
        ensures accepted { OnOk result (IsOk ((meaning cipher).need (length key.now))) }
        ensures fault { IfErr result (λ fault. Unkeyed ((meaning cipher).need (length key.now)) fault) }
        ensures cipher { IfOk result (λ keyed. keyed.cipher ≡ cipher) }
        ensures length { IfOk result (λ keyed. keyed.length ≡ length key.now) }
        ensures schedule { IfOk result (λ keyed. keyed.schedule.items ≡ (meaning cipher).schedule key.now) }
    {
        let cells = cipher.need(key.len()).map_err(Fault::Refused)?;
        let mut schedule = vec![in heap; 0; 16 * cells].map_err(Fault::Memory)?;
        cipher
            .expand(key, schedule.as_mut_slice())
            .map_err(Fault::Refused)?;
        Ok(Keyed {
            cipher,
            length: key.len(),
            schedule,
        })
    }

    // Compares what the cipher makes of `given`, one way or the other, with what is due.
    pub fn answer(&self, heap: Global, way: Way, given: &[u8], due: &[u8]) -> Result<(), Fault>
        ensures accepted { OnOk result (cipher_refusal (meaning self.now.cipher) self.now.length self.now.schedule.items given.now ≡ None) }
        ensures passes { OnOk result (ciphered way (meaning self.now.cipher) self.now.length self.now.schedule.items given.now ≡ due.now) }
        ensures fault { IfErr result (λ fault. Explains (Answer way) (cipher_refusal (meaning self.now.cipher) self.now.length self.now.schedule.items given.now) (ciphered way (meaning self.now.cipher) self.now.length self.now.schedule.items given.now) due.now fault) }
    {
        let mut block = Vec::from_slice(heap, given).map_err(Fault::Memory)?;
        let schedule = self.schedule.as_slice();
        match way {
            Way::Forth => self
                .cipher
                .encipher(self.length, schedule, block.as_mut_slice())
                .map_err(Fault::Refused)?,
            Way::Back => self
                .cipher
                .decipher(self.length, schedule, block.as_mut_slice())
                .map_err(Fault::Refused)?,
        }
        hold(heap, Value::Answer(way), block.as_slice(), due)
    }
}

// Part `index` of a schedule that is cut into parts of `size` bytes.
pub fn part(schedule: &[u8], size: usize, index: usize) -> Result<&[u8], Fault>
    ensures within { IsOk result ↔ (size * index + size ≤ length schedule.now) }
    ensures part { IfOk result (λ key. key.now ≡ take size (drop (size * index) schedule.now)) }
    ensures fault { IfErr result (λ fault. Expects (codes "a round of this schedule") fault) }
{
    size.checked_mul(index)
        .and_then(|start| schedule.get(start..))
        .and_then(|rest| rest.get(..size))
        .ok_or(Fault::Form("a round of this schedule"))
}
