// A text from one bank to another: the law of every past of a bank, as a caller takes it.
// Promises that what comes is what went.
// Rests on the law and the calls of bank_calls, over aes.
#![tactic(auto)]

ghost use Rattle.std.specs.Prelude.{◌≡◌, ◌++◌, take, IfOk};

use aes::Aes;
use bank_calls::{Bank, Returned};
use refusal::Refusal;
use shelf::KeyCell;

// Takes a text of one piece over a CBC link from one bank to another; tells how many bytes of each buffer came.
pub fn there(
    key: &[u8; 16],
    start: &[u8],
    text: &[u8],
    air: &mut [u8],
    first: &mut [u8],
    second: &mut [u8],
    third: &mut [u8],
) -> Result<(usize, usize, usize), Refusal>
    ensures { IfOk result (λ n. (take n.0 first.new ++ take n.1 second.new) ++ take n.2 third.new ≡ text.now) }
{
    let mut from = Bank::over(Aes);
    from.size(11)?;
    let mut cells: [KeyCell; 11] = [[0; 16]; 11];
    let mut scratch = [0; 1536];
    let sends = from.open(&mut scratch, &mut cells, 1, 0, key, start)?;
    let given = match from.put(&mut scratch, &cells, sends.link(), text, air) {
        Ok(given) => given,
        Err(refusal) => {
            from.strike(sends);
            return Err(refusal);
        }
    };
    let mut last = [0; 16];
    let rest = match from.end(&mut scratch, &cells, sends, &mut last) {
        Ok(rest) => rest,
        Err(Returned { refusal, ticket }) => {
            from.strike(ticket);
            return Err(refusal);
        }
    };
    let mut to = Bank::over(Aes);
    to.size(11)?;
    let mut memory: [KeyCell; 11] = [[0; 16]; 11];
    let hears = to.open(&mut scratch, &mut memory, 1, 1, key, start)?;
    let one = match to.put(&mut scratch, &memory, hears.link(), &air[..given], first) {
        Ok(one) => one,
        Err(refusal) => {
            to.strike(hears);
            return Err(refusal);
        }
    };
    let two = match to.put(&mut scratch, &memory, hears.link(), &last[..rest], second) {
        Ok(two) => two,
        Err(refusal) => {
            to.strike(hears);
            return Err(refusal);
        }
    };
    match to.end(&mut scratch, &memory, hears, third) {
        Ok(three) => Ok((one, two, three)),
        Err(Returned { refusal, ticket }) => {
            to.strike(ticket);
            Err(refusal)
        }
    }
}
