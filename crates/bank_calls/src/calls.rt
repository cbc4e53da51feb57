// The calls of a bank, as firmware makes them: the scratch is checked, then one inner call puts it under guard and does the rest.
ghost use Rattle.std.specs.Prelude.{◌≡◌, ℕ, true, List, [], length, replicate, is_err, Ok, MatchResult};
ghost use Rattle.link.specs.Record.{closed};
ghost use Rattle.bank.specs.Calls.{Opens, Puts, Ends, Strikes};
ghost use Rattle.bank.specs.Past.{New, Ran, opens, puts, ends, strikes};
ghost use Rattle.bank.specs.Law.{Law};
ghost use Rattle.bank_calls.specs.Seen.{books};
ghost use Rattle.bank_calls.specs.Calls.{number, gave, reason, asked, lengths, Wiped, Written, Kept, Sizes, Counted, Takes, Steps, Shuts, StrikesOne};
ghost use Rattle.bank_calls.specs.Pasts.{Adds, AddsUnshown};

use crate::inner::Asked;
use crate::state::{Bank, LINKS};
use crate::ticket::{Returned, Ticket};
use kit::Kit;
use link::Link;
use refusal::Refusal;
use shelf::{KeyCell, Shelf};

// Scratch, memory and `out` stay parameters, and each call says what they hold after it: firmware lends each for one call, and
// only an open writes the memory.
impl<K: Kit> Bank<K> {
    // A bank without cells, all links closed.
    pub fn over(kit: K) -> Bank<K>
        ensures books { (memory : List (List ℕ)) → New 0 (books result memory) }
        ensures kit { result.kit ≡ kit }
        ensures links { result.links ≡ replicate 8 closed }
    {
        Bank {
            kit,
            shelf: Shelf::new(),
            links: [Link::closed(); LINKS],
        }
    }

    // Sets the number of key cells, once. From then on bank and memory have a past, and every past obeys the law.
    pub fn size(&mut self, n: usize) -> Result<(), Refusal>
        ensures outcome { Sizes self.old n result self.new }
        ensures kit { self.new.kit ≡ self.old.kit }
        ensures links { self.new.links ≡ self.old.links }
        ensures begins { result ≡ Ok tt → (own : List (List ℕ)) → length own ≡ n → Ran (K.Kit.meaning self.new.kit) n [] (books self.new own) }
        ensures law { Law }
    {
        self.shelf.size(n)
    }

    // The free cells and the open links.
    pub fn count(&self) -> (usize, usize)
        ensures { Counted self.now result }
    {
        (self.shelf.free(), self.open_links())
    }

    // Opens a link under a number not in use, and hands out its ticket.
    pub fn open(
        &mut self,
        scratch: &mut [u8],
        memory: &mut [KeyCell],
        mode: u8,
        direction: u8,
        key: &[u8],
        start: &[u8],
    ) -> Result<Ticket, Refusal>
        ensures outcome { Opens (K.Kit.meaning self.old.kit) (books self.old memory.old) (asked scratch.old memory.old mode direction key.now start.now) (number result) (books self.new memory.new) }
        ensures scratch { Wiped scratch.old scratch.new }
        ensures link { MatchResult result (λ t. Takes (K.Kit.meaning self.old.kit) self.old memory.old (asked scratch.old memory.old mode direction key.now start.now) t.link self.new memory.new) (λ _. Kept self.old self.new × (memory.new ≡ memory.old)) }
        ensures past { Adds (K.Kit.meaning self.old.kit) self.old memory.old (opens (asked scratch.old memory.old mode direction key.now start.now) (number result)) self.new memory.new }
    {
        let bytes = scratch.as_mut_array().ok_or(Refusal::Scratch)?;
        let asked = Asked {
            mode,
            direction,
            key,
            start,
        };
        let link = self.open_with(bytes, memory, &asked)?;
        Ok(Ticket { link })
    }

    // A link takes a piece; what it gives is the front of `out`.
    pub fn put(
        &mut self,
        scratch: &mut [u8],
        memory: &[KeyCell],
        link: usize,
        piece: &[u8],
        out: &mut [u8],
    ) -> Result<usize, Refusal>
        ensures outcome { Puts (K.Kit.meaning self.old.kit) (books self.old memory.now) (lengths scratch.old memory.now out.old) link piece.now (gave result out.new) (books self.new memory.now) }
        ensures scratch { Wiped scratch.old scratch.new }
        ensures output { Written out.old result out.new }
        ensures link { MatchResult result (λ _. Steps self.old link self.new) (λ _. Kept self.old self.new) }
        ensures past { Adds (K.Kit.meaning self.old.kit) self.old memory.now (puts link piece.now (gave result out.new)) self.new memory.now }
    {
        let bytes = scratch.as_mut_array().ok_or(Refusal::Scratch)?;
        self.put_with(bytes, memory, link, piece, out)
    }

    // Ends a link: what it still gives is the front of `out`, its cells are free, and it is closed. A refusal hands the
    // ticket back.
    pub fn end(
        &mut self,
        scratch: &mut [u8],
        memory: &[KeyCell],
        ticket: Ticket,
        out: &mut [u8],
    ) -> Result<usize, Returned>
        ensures outcome { Ends (K.Kit.meaning self.old.kit) (books self.old memory.now) (lengths scratch.old memory.now out.old) ticket.link (gave (reason result) out.new) (books self.new memory.now) }
        ensures scratch { Wiped scratch.old scratch.new }
        ensures output { Written out.old (reason result) out.new }
        ensures link { MatchResult result (λ _. Shuts self.old ticket.link self.new) (λ e. Kept self.old self.new × (e.ticket ≡ ticket)) }
        ensures past { Adds (K.Kit.meaning self.old.kit) self.old memory.now (ends ticket.link (gave (reason result) out.new)) self.new memory.now }
    {
        // no `?`: a refusal has to hand the ticket back
        let Some(bytes) = scratch.as_mut_array() else {
            return Err(Returned {
                refusal: Refusal::Scratch,
                ticket,
            });
        };
        // no `?`: each way does something else with the ticket
        match self.end_with(bytes, memory, ticket.link, out) {
            Ok(given) => {
                let Ticket { link: _ } = ticket;
                Ok(given)
            }
            Err(refusal) => Err(Returned { refusal, ticket }),
        }
    }

    // Closes a link at once and frees its cells. On a link that is not open it only takes the ticket.
    pub fn strike(&mut self, ticket: Ticket)
        ensures outcome { (memory : List (List ℕ)) → Strikes (books self.old memory) ticket.link (books self.new memory) }
        ensures link { StrikesOne self.old ticket.link self.new }
        ensures past { AddsUnshown (K.Kit.meaning self.old.kit) self.old (strikes ticket.link) self.new }
    {
        let Ticket { link } = ticket;
        if self.is_open(link) {
            self.close(link);
        }
    }
}
