// Tests of the bank of radio links through its calls: each refusal and its turn, worked counts, whole messages, tickets; and of shelves.
// Promises nothing of its own.
// Rests on crates bank_calls, aes, mkv and layers and what they rest on.
#![tactic(auto)]

#[cfg(test)]
mod tests;
