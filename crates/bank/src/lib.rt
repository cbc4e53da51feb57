// The law of the bank of radio links: what its calls promise, and what follows for every past of them.
// Promises that these promises suffice: for every sound kit and every past, the law of banks holds.
// Rests on the meaning of a kit (crate kit) and on the laws of the modes (crate modes). Crate bank_calls has the calls.
#![tactic(auto)]

ghost use Rattle.bank.specs.Law.{Law};

// The law over every past of a bank, from what is promised of its calls.
pub fn law_of_banks()
    ensures { Law }
{}
