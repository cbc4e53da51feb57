// The bank: eight radio links over any one kit, their schedules on one shelf of key cells, with linear tickets.
// Promises of every call its answer, the first refusal due, and what bank, cell memory, scratch and output then hold; and of
// every past the law: want of cells is told exactly when they are short, senders give ciphertext, receivers give it back as text.
// Rests on `link`, `shelf`, `kit`, and on `bank`, where the law is proved from what the calls promise.
#![tactic(auto)]

mod calls;
mod guard;
mod inner;
mod state;
mod ticket;

pub use state::Bank;
pub use ticket::{Returned, Ticket};
