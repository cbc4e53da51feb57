// What the calls of a bank do under the scratch's guard.
ghost use Rattle.std.specs.Prelude.{◌≡◌, ℕ, ◌<◌, true, false, List, replicate, MatchOption, MatchResult};
ghost use Rattle.refusal.specs.Checks.{Answers};
ghost use Rattle.shelf.specs.Standing.{standing};
ghost use Rattle.shelf.specs.Items.{list};
ghost use Rattle.shelf.specs.Keys.{joined};
ghost use Rattle.bank.specs.Books.{links};
ghost use Rattle.bank.specs.Calls.{Opens, Puts, Ends};
ghost use Rattle.bank_calls.specs.Table.{at};
ghost use Rattle.bank_calls.specs.Seen.{books};
ghost use Rattle.bank_calls.specs.Calls.{asked_with, lengths_with, gave, load_checks, room_checks, Written, Kept, Takes, Steps, Shuts};

use crate::guard::{Guard, SCRATCH};
use crate::state::Bank;
use kit::{Kit, Width};
use link::Link;
use modes::{Direction, Mode};
use refusal::Refusal;
use shelf::KeyCell;

// What an open asks for, in firmware's numbers.
#[derive(Clone, Copy)]
pub(super) struct Asked<'a> {
    pub(super) mode: u8,
    pub(super) direction: u8,
    pub(super) key: &'a [u8],
    pub(super) start: &'a [u8],
}

// A guard takes two lines in each call: a part of `guard.bytes` itself gets no proof, and a closure would repeat the call's clauses.
impl<K: Kit> Bank<K> {
    // How many links are open.
    pub(super) fn open_links(&self) -> usize
        ensures { (memory : List (List ℕ)) → result ≡ links (books self.now memory) }
    {
        self.links.iter().filter(|l| l.open).count()
    }

    // Whether there is such a link and it is open.
    pub(super) fn is_open(&self, link: usize) -> bool
        ensures { result ≡ (at self.now.links link).open }
    {
        self.links.get(link).is_some_and(|l| l.open)
    }

    // The first link that is not open.
    fn vacant(&self) -> Option<usize>
        ensures { MatchOption result ((i : ℕ) → i < 8 → (at self.now.links i).open ≡ true) (λ i. (i < 8) × ((at self.now.links i).open ≡ false)) }
    {
        self.links.iter().position(|l| !l.open)
    }

    // A link for a schedule of `need` cells: the memory is the bank's, a link is not open, and as many cells are free.
    fn room(&self, shown: usize, need: usize) -> Result<usize, Refusal>
        ensures { Answers (room_checks self.now shown need) result (λ i. (i < 8) × ((at self.now.links i).open ≡ false)) (Unit {0}) }
    {
        if shown != self.shelf.cells() {
            return Err(Refusal::Memory);
        }
        let link = self.vacant().ok_or(Refusal::Links)?;
        if self.shelf.free() < need {
            return Err(Refusal::Cells);
        }
        Ok(link)
    }

    // An open link's schedule, gathered to the front of the scratch.
    fn load<'a>(
        &self,
        scratch: &'a mut [u8; SCRATCH],
        memory: &[KeyCell],
        link: usize,
    ) -> Result<&'a [u8], Refusal>
        ensures { Answers (load_checks self.now memory.now link) result (λ schedule. schedule.now ≡ joined (list (standing self.now.shelf.book) memory.now link)) (Unit {0}) }
    {
        if !self.is_open(link) {
            return Err(Refusal::Closed);
        }
        let n = self.shelf.gather_bytes(memory, link, scratch)?;
        Ok(&scratch[0..n])
    }

    // Closes a link: its record holds zeros, and its cells are free.
    pub(super) fn close(&mut self, link: usize)
        requires { link < 8 }
        ensures { Shuts self.old link self.new }
    {
        self.links[link] = Link::closed();
        let _ = self.shelf.drop_chain(link);
    }

    // Opens a link, with the scratch under guard.
    pub(super) fn open_with(
        &mut self,
        scratch: &mut [u8; SCRATCH],
        memory: &mut [KeyCell],
        asked: &Asked<'_>,
    ) -> Result<usize, Refusal>
        ensures scratch { scratch.new ≡ replicate 1536 0 }
        ensures outcome { Opens (K.Kit.meaning self.old.kit) (books self.old memory.old) (asked_with 1536 memory.old asked.now.mode asked.now.direction asked.now.key.now asked.now.start.now) result (books self.new memory.new) }
        ensures link { MatchResult result (λ i. Takes (K.Kit.meaning self.old.kit) self.old memory.old (asked_with 1536 memory.old asked.now.mode asked.now.direction asked.now.key.now asked.now.start.now) i self.new memory.new) (λ _. Kept self.old self.new × (memory.new ≡ memory.old)) }
    {
        let guard = Guard { bytes: scratch };
        let scratch = &mut *guard.bytes;
        let Asked {
            mode,
            direction,
            key,
            start,
        } = *asked;
        let mode = Mode::try_from(mode)?;
        let direction = Direction::try_from(direction)?;
        let need = self.kit.need(key.len())?;
        let width = K::Width::width();
        if start.len() != width {
            return Err(Refusal::Start);
        }
        let link = self.room(memory.len(), need)?;
        let schedule = &mut scratch[0..16 * need];
        // neither is refused: the key's length, the memory and the free cells were looked at
        let _ = self.kit.expand(key, schedule);
        let _ = self.shelf.append_bytes(memory, link, schedule);
        self.links[link] = Link::opened(mode, direction, key.len(), start);
        Ok(link)
    }

    // Puts a piece, with the scratch under guard.
    pub(super) fn put_with(
        &mut self,
        scratch: &mut [u8; SCRATCH],
        memory: &[KeyCell],
        link: usize,
        piece: &[u8],
        out: &mut [u8],
    ) -> Result<usize, Refusal>
        ensures scratch { scratch.new ≡ replicate 1536 0 }
        ensures outcome { Puts (K.Kit.meaning self.old.kit) (books self.old memory.now) (lengths_with 1536 memory.now out.old) link piece.now (gave result out.new) (books self.new memory.now) }
        ensures output { Written out.old result out.new }
        ensures link { MatchResult result (λ _. Steps self.old link self.new) (λ _. Kept self.old self.new) }
    {
        let guard = Guard { bytes: scratch };
        let scratch = &mut *guard.bytes;
        let schedule = self.load(scratch, memory, link)?;
        self.links[link].put(&self.kit, schedule, piece, out)
    }

    // Ends a link, with the scratch under guard.
    pub(super) fn end_with(
        &mut self,
        scratch: &mut [u8; SCRATCH],
        memory: &[KeyCell],
        link: usize,
        out: &mut [u8],
    ) -> Result<usize, Refusal>
        ensures scratch { scratch.new ≡ replicate 1536 0 }
        ensures outcome { Ends (K.Kit.meaning self.old.kit) (books self.old memory.now) (lengths_with 1536 memory.now out.old) link (gave result out.new) (books self.new memory.now) }
        ensures output { Written out.old result out.new }
        ensures link { MatchResult result (λ _. Shuts self.old link self.new) (λ _. Kept self.old self.new) }
    {
        let guard = Guard { bytes: scratch };
        let scratch = &mut *guard.bytes;
        let schedule = self.load(scratch, memory, link)?;
        // a copy, since a call on the table's own record makes it count as written
        let record = self.links[link];
        let given = record.end(&self.kit, schedule, out)?;
        self.close(link);
        Ok(given)
    }
}
