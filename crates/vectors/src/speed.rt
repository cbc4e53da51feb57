// How long a block takes: a mode of the program that no comparison rests on.
// Promises nothing of its own.
// Rests on the ciphers (compare), the clock of the machine, and the measures of the bank (link_speed).
use crate::link_speed;
use anyhow::Context;
use compare::{Cipher, Fault, Keyed};
use std::time::Instant;

// Blocks that each version enciphers, one after another in place.
const BLOCKS: u32 = 20000;

const VERSIONS: [(Cipher, usize); 9] = [
    (Cipher::Mkv128, 16),
    (Cipher::Mkv128, 24),
    (Cipher::Mkv128, 32),
    (Cipher::Mkv256, 32),
    (Cipher::Mkv256, 48),
    (Cipher::Mkv256, 64),
    (Cipher::Aes, 16),
    (Cipher::Aes, 24),
    (Cipher::Aes, 32),
];

fn encipher_many(keyed: &Keyed, block: &mut [u8]) -> Result<(), Fault> {
    let schedule = keyed.schedule.as_slice();
    for _ in 0..BLOCKS {
        keyed.cipher.encipher(keyed.length, schedule, block)?;
    }
    Ok(())
}

// Nanoseconds a block.
fn time_of(rt: &HostRuntime, cipher: Cipher, length: usize) -> anyhow::Result<u128> {
    let heap = rt.alloc();
    let key = vec![in heap; 0x5A; length]?;
    let keyed = Keyed::of(heap, cipher, key.as_slice()).context("no such key")?;
    let mut block = vec![in heap; 0; cipher.width()]?;
    let start = Instant::now(rt)?;
    encipher_many(&keyed, block.as_mut_slice()).context("no block of this cipher")?;
    let passed = start.elapsed(rt)?;
    Ok(passed.as_nanos() / u128::from(BLOCKS))
}

pub fn measure(rt: &HostRuntime) -> anyhow::Result<()> {
    for (cipher, length) in VERSIONS {
        let nanoseconds = time_of(rt, cipher, length)?;
        println!(rt; "{cipher}, key of {length} bytes: {nanoseconds} ns a block")?;
        link_speed::tell(rt, cipher, length)?;
    }
    Ok(())
}
