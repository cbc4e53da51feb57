// The ticket of an open link. It can't be let go unspent or spent twice: `end` and `strike` take it.
ghost use Rattle.std.specs.Prelude.{◌≡◌, ◌<◌};

use refusal::Refusal;

// The number of an open link, one of a bank's eight, to be spent once.
pub struct Ticket {
    pub(super) link: usize,
    ghost low: { link < 8 },
}

// A refused end: why, and the ticket back.
pub struct Returned {
    pub refusal: Refusal,
    pub ticket: Ticket,
}

impl Ticket {
    // The number of its link.
    pub fn link(&self) -> usize
        ensures { result ≡ self.now.link }
    {
        self.link
    }
}
