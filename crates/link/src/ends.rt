// How a CBC link ends, in each direction.
// Promises each refusal and the last bytes.
// Rests on the blocks beside it and on the padding of crate modes.
ghost use Rattle.std.specs.Prelude.{◌≡◌};
ghost use Rattle.modes.specs.declared.Mode.TheVariants.{Cbc};
ghost use Rattle.modes.specs.declared.Direction.TheVariants.{Send, Receive};
ghost use Rattle.link.specs.Record.{Fits};
ghost use Rattle.link.specs.Calls.{Ends};

use crate::Link;
use crate::blocks::{are_bytes, write_front};
use kit::Kit;
use modes::padding::{pad_from, text_end};
use refusal::Refusal;

impl Link {
    // Sending CBC: what is held is padded to a whole block, always.
    pub(crate) fn send_end<K: Kit>(
        &self,
        kit: &K,
        schedule: &[u8],
        out: &mut [u8],
    ) -> Result<usize, Refusal>
        requires fits { Fits self.now }
        requires cbc { self.now.mode ≡ Cbc }
        requires sends { self.now.direction ≡ Send }
        ensures { Ends (K.Kit.meaning kit.now) schedule.now self.now out.old result out.new }
    {
        are_bytes(&self.chain);
        are_bytes(&self.held);
        if out.len() < self.width {
            return Err(Refusal::Output);
        }
        let mut text = self.held;
        pad_from(&mut text[0..self.width], self.count);
        let block = self.seal(kit, schedule, &text);
        write_front(out, &block[0..self.width]);
        Ok(self.width)
    }

    // Receiving CBC: the text of the block held, without its padding.
    pub(crate) fn receive_end<K: Kit>(
        &self,
        kit: &K,
        schedule: &[u8],
        out: &mut [u8],
    ) -> Result<usize, Refusal>
        requires fits { Fits self.now }
        requires cbc { self.now.mode ≡ Cbc }
        requires receives { self.now.direction ≡ Receive }
        ensures { Ends (K.Kit.meaning kit.now) schedule.now self.now out.old result out.new }
    {
        if self.count < self.width {
            return Err(Refusal::Ragged);
        }
        let text = self.unseal(kit, schedule);
        let n = text_end(&text[0..self.width]).ok_or(Refusal::Padding)?;
        if out.len() < n {
            return Err(Refusal::Output);
        }
        write_front(out, &text[0..n]);
        Ok(n)
    }
}
