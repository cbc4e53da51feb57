// How long the bank's calls take, beside the calls of its cipher alone that they stand on: no comparison rests on it.
// Promises nothing of its own.
// Rests on the banks of links (banks), the ciphers (compare) and the clock of the machine.
use crate::banks::Set;
use anyhow::Context;
use compare::{Cipher, Fault, Keyed, Way};
use kit::Kit;
use std::fmt;
use std::time::Instant;

const CBC: u8 = 1;

// The longest piece of a put.
const PIECE: usize = 4096;

// How often each is done.
const PUTS: u32 = 100;

const OPENS: u32 = 2000;

// Nanoseconds, told as microseconds with a digit after the point.
#[derive(Clone, Copy)]
struct Micros(u128);

impl fmt::Display for Micros {
    fn fmt<W: fmt::Write>(&self, f: &mut fmt::Formatter<W>) -> fmt::Result {
        let Micros(nanoseconds) = self;
        let (whole, tenth) = (nanoseconds / 1000, nanoseconds % 1000 / 100);
        write!(f, "{whole}.{tenth}")
    }
}

fn put_all<K: Kit + Copy>(set: &mut Set<K>, link: usize, piece: &[u8]) -> Result<(), Fault> {
    for _ in 0..PUTS {
        set.put(link, piece)?;
    }
    Ok(())
}

fn put_many<K: Kit + Copy>(
    set: &mut Set<K>,
    key: &[u8],
    start: &[u8],
    piece: &[u8],
) -> Result<(), Fault> {
    let ticket = set.open(Way::Forth, CBC, key, start)?;
    // no `?`: it would lose the ticket
    let done = put_all(set, ticket.link(), piece);
    set.strike(ticket);
    done
}

fn open_many<K: Kit + Copy>(set: &mut Set<K>, key: &[u8], start: &[u8]) -> Result<(), Fault> {
    for _ in 0..OPENS {
        let ticket = set.open(Way::Forth, CBC, key, start)?;
        set.strike(ticket);
    }
    Ok(())
}

// The blocks of as many puts.
fn encipher_many(keyed: &Keyed, piece: &mut [u8]) -> Result<(), Fault> {
    let schedule = keyed.schedule.as_slice();
    let width = keyed.cipher.width();
    for _ in 0..PUTS {
        for block in piece.chunks_exact_mut(width) {
            keyed.cipher.encipher(keyed.length, schedule, block)?;
        }
    }
    Ok(())
}

fn expand_many(cipher: Cipher, key: &[u8], schedule: &mut [u8]) -> Result<(), Fault> {
    for _ in 0..OPENS {
        cipher.need(key.len())?;
        cipher.expand(key, schedule)?;
    }
    Ok(())
}

// Measured call by call: the borrow checker does not cover a function that is passed a closure over a set of any kit.
fn tell_of<K: Kit + Copy>(
    rt: &HostRuntime,
    kit: K,
    cipher: Cipher,
    length: usize,
) -> anyhow::Result<()> {
    let heap = rt.alloc();
    let key = vec![in heap; 0x5A; length]?;
    let start = vec![in heap; 0; cipher.width()]?;
    let mut piece = vec![in heap; 0; PIECE]?;
    let mut keyed = Keyed::of(heap, cipher, key.as_slice()).context("no such key")?;
    let mut set = Set::of(heap, kit).context("no bank")?;
    let (key, start) = (key.as_slice(), start.as_slice());
    let begun = Instant::now(rt)?;
    put_many(&mut set, key, start, piece.as_slice()).context("no put")?;
    let put = Micros(begun.elapsed(rt)?.as_nanos() / u128::from(PUTS));
    let begun = Instant::now(rt)?;
    encipher_many(&keyed, piece.as_mut_slice()).context("no block")?;
    let blocks = Micros(begun.elapsed(rt)?.as_nanos() / u128::from(PUTS));
    let begun = Instant::now(rt)?;
    open_many(&mut set, key, start).context("no open")?;
    let open = Micros(begun.elapsed(rt)?.as_nanos() / u128::from(OPENS));
    let begun = Instant::now(rt)?;
    expand_many(cipher, key, keyed.schedule.as_mut_slice()).context("no expansion")?;
    let expand = Micros(begun.elapsed(rt)?.as_nanos() / u128::from(OPENS));
    println!(rt;
        "{cipher}, key of {length} bytes: {put} us a put of {PIECE} bytes, {blocks} us its blocks alone; {open} us an open, {expand} us its expansion alone"
    )?;
    Ok(())
}

pub fn tell(rt: &HostRuntime, cipher: Cipher, length: usize) -> anyhow::Result<()> {
    match cipher {
        Cipher::Mkv128 => tell_of(rt, mkv::Mkv128, cipher, length),
        Cipher::Mkv256 => tell_of(rt, mkv::Mkv256, cipher, length),
        Cipher::Aes => tell_of(rt, aes::Aes, cipher, length),
    }
}
