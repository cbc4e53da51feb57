// A vector under comparison: what its lines have given so far, and what was compared.
// Promises nothing of its own: what passes is promised by the comparisons.
// Rests on the comparisons (compare), the steps of the ciphers (steps) and the banks of links (banks).
use crate::banks::Banks;
use crate::expansion::{Column, column_of};
use crate::lines::{Entry, KeyForm};
use crate::messages::Message;
use crate::steps::{Step, mixed_key, round_key};
use crate::tally::Tally;
use compare::{Cipher, Fault, Keyed, Value, Way};
use std::alloc::Global;
use std::fmt;

#[derive(Drop)]
pub struct Trial {
    heap: Global,
    name: String,
    // before the key is given, that of no bytes, so that a call is refused as for such a key
    keyed: Keyed,
    // of no bytes before they are given: the call then refuses them, or the comparison differs
    text: Vec<u8>,
    state: Vec<u8>,
    // made at the first message, since most vectors have none
    banks: Option<Box<Banks>>,
    tally: Tally,
}

impl Trial {
    pub fn begin(heap: Global, cipher: Cipher, name: &str) -> Result<Trial, Fault> {
        let keyed = Keyed {
            cipher,
            length: 0,
            schedule: Vec::new(heap),
        };
        Ok(Trial {
            heap,
            name: String::from_str(heap, name)?,
            keyed,
            text: Vec::new(heap),
            state: Vec::new(heap),
            banks: None,
            tally: Tally::new(),
        })
    }

    // Gives back the memory of the banks, once another vector begins.
    pub fn end(&mut self) {
        self.banks = None;
    }

    pub fn values(&self) -> u64 {
        self.tally.values()
    }

    fn take_key(&mut self, key: &[u8]) -> Result<(), Fault> {
        self.keyed = Keyed::of(self.heap, self.keyed.cipher, key)?;
        Ok(())
    }

    fn hold_answer(&mut self, due: &[u8]) -> Result<(), Fault> {
        let text = self.text.as_slice();
        self.keyed.answer(self.heap, Way::Forth, text, due)?;
        self.tally.count(Value::Answer(Way::Forth));
        self.keyed.answer(self.heap, Way::Back, due, text)?;
        self.tally.count(Value::Answer(Way::Back));
        Ok(())
    }

    fn hold_step(&mut self, step: Step<'_>, due: &[u8]) -> Result<(), Fault> {
        step.take(&self.keyed, self.state.as_mut_slice())?;
        let value = Value::State(step.way);
        self.tally
            .hold(self.heap, value, self.state.as_slice(), due)
    }

    fn hold_round_key(&mut self, form: KeyForm, round: u8, due: &[u8]) -> Result<(), Fault> {
        let key = round_key(self.keyed.schedule.as_slice(), round)?;
        let key = match form {
            KeyForm::Plain => *key,
            KeyForm::Mixed => mixed_key(key)?,
        };
        self.tally.hold(self.heap, Value::RoundKey, &key, due)
    }

    fn hold_word(&mut self, row: u8, column: Column, due: &[u8]) -> Result<(), Fault> {
        let word = column_of(&self.keyed, row, column)?;
        self.tally.hold(self.heap, Value::Word, &word, due)
    }

    // Not inlined: every line would pay for the frame in which banks are made.
    #[inline(never)]
    fn hold_message(&mut self, message: &Message) -> Result<(), Fault> {
        let mut banks = match self.banks.take() {
            Some(banks) => banks,
            None => Box::new(self.heap, Banks::of(self.heap, self.keyed.cipher)?)?,
        };
        let held = banks.hold(self.heap, message, &mut self.tally);
        self.banks = Some(banks);
        held
    }

    // Takes in what a line gives, or compares what it asks for.
    pub fn take(&mut self, entry: Entry<'_>) -> Result<(), Fault> {
        match entry {
            Entry::Key(key) => self.take_key(key.as_slice()),
            Entry::Schedule(due) => self.tally.hold(
                self.heap,
                Value::Schedule,
                self.keyed.schedule.as_slice(),
                due.as_slice(),
            ),
            Entry::Text(text) => {
                self.text = text;
                Ok(())
            }
            Entry::Enciphered(due) => self.hold_answer(due.as_slice()),
            Entry::State(state) => {
                self.state = state;
                Ok(())
            }
            Entry::Step { step, due } => self.hold_step(step, due.as_slice()),
            Entry::RoundKey { form, round, due } => self.hold_round_key(
                form,
                round,
                due.as_slice(),
            ),
            Entry::Word { row, column, due } => self.hold_word(row, column, due.as_slice()),
            Entry::Pair { key, text, due } => {
                self.take_key(key.as_slice())?;
                self.text = text;
                self.hold_answer(due.as_slice())
            }
            Entry::Message(message) => self.hold_message(&message),
        }
    }
}

impl fmt::Display for Trial {
    fn fmt<W: fmt::Write>(&self, f: &mut fmt::Formatter<W>) -> fmt::Result {
        write!(f, "{}, {}: {}", self.keyed.cipher, self.name, self.tally)
    }
}
