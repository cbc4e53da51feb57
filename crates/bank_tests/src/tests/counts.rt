// Worked counts: cells that are free again wherever they lie, and the bytes of pieces and ends.
use super::desk::{Ask, BLANK, BYTES, Desk, Opened, text};
use aes::Aes;
use bank_calls::Returned;
use kit::Kit;
use mkv::{Mkv128, Mkv256};
use refusal::Refusal;
use std::process::Abort;

fn sending(key: usize) -> Ask<'static> {
    Ask {
        mode: 1,
        direction: 0,
        key: &BYTES[..key.min(64)],
        start: &BYTES[..16],
    }
}

// Of 41 cells opens take 13, 15 and 13. With the first and the third struck, 15 are found on both sides of the second, and
// 11 are left.
#[test]
fn any_free_cells_will_do(rt: HostRuntime) {
    let mut desk = Desk::over(Mkv128, 41);
    let first = desk.open(&sending(16));
    let second = desk.open(&sending(24));
    let third = desk.open(&sending(16));
    let full = desk.bank.count();
    let struck = [desk.struck(first), desk.struck(third)];
    let freed = desk.bank.count();
    let fourth = desk.open(&sending(24));
    let rest = desk.bank.count();
    let short = desk.asked(&sending(16));
    let after = desk.bank.count();
    let closed = [desk.struck(fourth), desk.struck(second)];
    assert_eq!(rt; full, (0, 3));
    assert!(rt; struck == [0, 0]);
    assert_eq!(rt; freed, (26, 1));
    assert_eq!(rt; rest, (11, 2));
    assert_eq!(rt; short, 6);
    assert_eq!(rt; after, (11, 2));
    assert!(rt; closed == [0, 0]);
    assert_eq!(rt; desk.bank.count(), (41, 0));
    assert!(rt; desk.sound);
}

fn ask(mode: u8, direction: u8, width: usize) -> Ask<'static> {
    Ask {
        mode,
        direction,
        key: &BYTES[..32],
        start: &BYTES[..width.min(32)],
    }
}

// What a piece on a new link gives; a refusal is told as 10,000 and its number.
fn gives<K: Kit>(desk: &mut Desk<K>, ask: &Ask<'_>, piece: &[u8], out: &mut [u8]) -> usize {
    match desk.open(ask) {
        Ok(ticket) => {
            let answer = desk.put(ticket.link(), piece, out);
            desk.bank.strike(ticket);
            answer.unwrap_or_else(|refusal| 10_000 + usize::from(refusal.number()))
        }
        Err(refusal) => 10_000 + usize::from(refusal.number()),
    }
}

// The longest piece has 4,096 bytes, on every link.
fn longest<K: Kit + Copy>(rt: &impl Abort, kit: K, width: usize, held: usize) {
    let mut desk = Desk::over(kit, 34);
    let bytes = [7; 4097];
    for mode in 1..=3 {
        for direction in 0..=1 {
            let ask = ask(mode, direction, width);
            let due = if (mode, direction) == (1, 1) {
                held
            } else {
                4096
            };
            let given = gives(&mut desk, &ask, &bytes[..4096], &mut [BLANK; 4097]);
            assert_eq!(rt; given, due, "in mode {mode}");
            let given = gives(&mut desk, &ask, &bytes, &mut [BLANK; 4097]);
            assert_eq!(rt; given, 10_013, "in mode {mode}");
            let given = gives(&mut desk, &ask, &[], &mut []);
            assert_eq!(rt; given, 0, "in mode {mode}");
        }
    }
    assert!(rt; desk.sound);
}

#[test]
fn pieces_of_4096_bytes(rt: HostRuntime) {
    longest(&rt, Aes, 16, 4080);
    longest(&rt, Mkv256, 32, 4064);
}

// Two pieces on a sending CBC link, and its end: what each gives.
fn sends<K: Kit>(
    desk: &mut Desk<K>,
    ask: &Ask<'_>,
    pieces: (&[u8], &[u8]),
    out: &mut [u8; 96],
) -> Option<[usize; 3]> {
    let ticket = desk.open(ask).ok()?;
    let link = ticket.link();
    let (first, second) = pieces;
    let one = desk.put(link, first, out);
    let two = desk.put(link, second, out);
    let front = two.unwrap_or(0).min(96);
    let last = desk.ends(ticket, &mut out[front..]);
    Some([one.ok()?, two.ok()?, last.ok()?])
}

// One piece on a receiving CBC link: what it gives, and the number that its end is refused, with the ticket back.
fn hears<K: Kit>(desk: &mut Desk<K>, ask: &Ask<'_>, piece: &[u8]) -> Option<(usize, u8)> {
    let ticket = desk.open(ask).ok()?;
    let link = ticket.link();
    let answer = desk.put(link, piece, &mut [BLANK; 96]);
    match desk.end(ticket, &mut [BLANK; 32]) {
        Ok(_) => Some((answer.ok()?, 0)),
        Err(Returned { refusal, ticket }) => {
            let same = ticket.link() == link;
            desk.bank.strike(ticket);
            if same {
                Some((answer.ok()?, refusal.number()))
            } else {
                None
            }
        }
    }
}

// With blocks of 16 bytes 5 and 27 make 0 and 32, and the end 16. Of the 48 that are heard a block is kept back, and an
// end inside a block is refused 15, after a block of text 16.
#[test]
fn counts_of_16(rt: HostRuntime) {
    let mut desk = Desk::over(Aes, 15);
    let mut coded = [BLANK; 96];
    let text = text();
    let sent = sends(
        &mut desk,
        &ask(1, 0, 16),
        (&text[..5], &text[5..32]),
        &mut coded,
    );
    assert!(rt; sent == Some([0, 32, 16]));
    for (piece, given, refusal) in [
        (0, 0, 15),
        (1, 0, 15),
        (16, 0, 16),
        (17, 16, 15),
        (20, 16, 15),
        (32, 16, 16),
        (33, 32, 15),
        (48, 32, 0),
    ] {
        assert!(rt; piece <= 96);
        let heard = hears(&mut desk, &ask(1, 1, 16), &coded[..piece]);
        assert_eq!(rt; heard, Some((given, refusal)), "at {piece}");
    }
    assert_eq!(rt; desk.bank.count(), (15, 0));
    assert!(rt; desk.sound);
}

#[test]
fn counts_of_32(rt: HostRuntime) {
    let mut desk = Desk::over(Mkv256, 26);
    let mut coded = [BLANK; 96];
    let text = text();
    let sent = sends(
        &mut desk,
        &ask(1, 0, 32),
        (&text[..5], &text[5..64]),
        &mut coded,
    );
    assert!(rt; sent == Some([0, 64, 32]));
    for (piece, given, refusal) in [
        (0, 0, 15),
        (31, 0, 15),
        (32, 0, 16),
        (33, 32, 15),
        (64, 32, 16),
        (96, 64, 0),
    ] {
        assert!(rt; piece <= 96);
        let heard = hears(&mut desk, &ask(1, 1, 32), &coded[..piece]);
        assert_eq!(rt; heard, Some((given, refusal)), "at {piece}");
    }
    assert_eq!(rt; desk.bank.count(), (26, 0));
    assert!(rt; desk.sound);
}

// A step on a receiving link: a piece, and then an end that should be refused; the ticket back.
fn tries<K: Kit>(
    desk: &mut Desk<K>,
    opened: Opened,
    piece: &[u8],
    out: &mut [u8],
) -> (Option<usize>, u8, Opened) {
    match opened {
        Ok(ticket) => {
            let given = desk.put(ticket.link(), piece, out).ok();
            match desk.end(ticket, &mut []) {
                Ok(_) => (given, 0, Err(Refusal::Closed)),
                Err(Returned { refusal, ticket }) => (given, refusal.number(), Ok(ticket)),
            }
        }
        Err(refusal) => (None, 0, Err(refusal)),
    }
}

// A refused end leaves the link as it was: after 15, 16 and 14 it goes on to the end of the text.
#[test]
fn more_may_follow_a_refused_end(rt: HostRuntime) {
    let mut desk = Desk::over(Aes, 30);
    let mut coded = [BLANK; 96];
    let mut out = [BLANK; 32];
    let text = text();
    let sent = sends(
        &mut desk,
        &ask(1, 0, 16),
        (&text[..5], &text[5..40]),
        &mut coded,
    );
    let (first, second) = out.split_at_mut(16);
    let open = desk.open(&ask(1, 1, 16));
    let (none, ragged, open) = tries(&mut desk, open, &coded[..10], &mut []);
    let (also, padding, open) = tries(&mut desk, open, &coded[10..16], &mut []);
    let (one, late, open) = tries(&mut desk, open, &coded[16..20], first);
    let (two, short, open) = tries(&mut desk, open, &coded[20..48], second);
    let mut last = [BLANK; 8];
    let ended = match open {
        Ok(ticket) => desk.ends(ticket, &mut last).ok(),
        Err(_) => None,
    };
    assert!(rt; sent == Some([0, 32, 16]));
    assert!(rt; [none, also, one, two] == [Some(0), Some(0), Some(16), Some(16)]);
    assert!(rt; [ragged, padding, late, short] == [15, 16, 15, 14]);
    assert_eq!(rt; ended, Some(8));
    assert!(rt; &out[..] == &text[..32]);
    assert!(rt; &last[..] == &text[32..40]);
    assert!(rt; desk.sound);
}
