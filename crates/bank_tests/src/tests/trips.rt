// Whole messages: a receiver on another bank takes what a sender gives, in other pieces, and gives the text.
use super::desk::{Ask, BLANK, Desk, Opened, keys, number, text, told};
use aes::Aes;
use kit::Kit;
use layers::{Cascade, Whitening};
use mkv::{Mkv128, Mkv256};
use refusal::Refusal;
use std::process::Abort;

// A text of 20 bytes under AES in each mode, as another program gives it.
const KEY: [u8; 16] = [
    0x2B, 0x7E, 0x15, 0x16, 0x28, 0xAE, 0xD2, 0xA6, 0xAB, 0xF7, 0x15, 0x88, 0x09, 0xCF, 0x4F, 0x3C,
];

const START: [u8; 16] = [
    0x00, 0x01, 0x02, 0x03, 0x04, 0x05, 0x06, 0x07, 0x08, 0x09, 0x0A, 0x0B, 0x0C, 0x0D, 0x0E, 0x0F,
];

const TEXT: [u8; 20] = [
    0x6B, 0xC1, 0xBE, 0xE2, 0x2E, 0x40, 0x9F, 0x96, 0xE9, 0x3D, 0x7E, 0x11, 0x73, 0x93, 0x17, 0x2A,
    0xAE, 0x2D, 0x8A, 0x57,
];

const CBC: [u8; 32] = [
    0x76, 0x49, 0xAB, 0xAC, 0x81, 0x19, 0xB2, 0x46, 0xCE, 0xE9, 0x8E, 0x9B, 0x12, 0xE9, 0x19, 0x7D,
    0xD9, 0x34, 0xD5, 0x21, 0xA5, 0x98, 0x3B, 0x7A, 0x1D, 0xC2, 0x3E, 0x94, 0xE3, 0x60, 0xE0, 0x04,
];

const CFB: [u8; 20] = [
    0x3B, 0x3F, 0xD9, 0x2E, 0xB7, 0x2D, 0xAD, 0x20, 0x33, 0x34, 0x49, 0xF8, 0xE8, 0x3C, 0xFB, 0x4A,
    0xC8, 0xA6, 0x45, 0x37,
];

const OFB: [u8; 20] = [
    0x3B, 0x3F, 0xD9, 0x2E, 0xB7, 0x2D, 0xAD, 0x20, 0x33, 0x34, 0x49, 0xF8, 0xE8, 0x3C, 0xFB, 0x4A,
    0x77, 0x89, 0x50, 0x8D,
];

// Puts bytes on a link, at most `step` at once: how many it gave, which are the front of `out`.
fn puts<K: Kit>(
    desk: &mut Desk<K>,
    link: usize,
    bytes: &[u8],
    step: usize,
    out: &mut [u8],
) -> Result<usize, Refusal> {
    let mut given = 0usize;
    for piece in bytes.chunks(step.max(1)) {
        let at = given.min(out.len());
        given = given.saturating_add(desk.put(link, piece, &mut out[at..])?);
    }
    Ok(given)
}

// Carries bytes over a link of a new bank, from open to end: how many it gave, if nothing was refused and each call left
// what it should.
fn carries<K: Kit + Copy>(
    kit: K,
    ask: &Ask<'_>,
    bytes: &[u8],
    step: usize,
    out: &mut [u8],
) -> Option<usize> {
    let mut desk = Desk::over(kit, 96);
    let ticket = desk.open(ask).ok()?;
    let front = puts(&mut desk, ticket.link(), bytes, step, out);
    let at = front.unwrap_or(0).min(out.len());
    let last = desk.ends(ticket, &mut out[at..]);
    if !desk.sound || desk.bank.count() != (96, 0) {
        return None;
    }
    front.ok()?.checked_add(last.ok()?)
}

// As many bytes as the mode says are given, and they come back as the text.
fn trip<K: Kit + Copy>(
    rt: &impl Abort,
    kit: K,
    ask: &Ask<'_>,
    bytes: &[u8],
    step: usize,
    other: usize,
) {
    let mut coded = [BLANK; 160];
    let mut back = [BLANK; 160];
    let sent = carries(kit, ask, bytes, step, &mut coded).expect(rt, "the sender was refused");
    let width = ask.start.len();
    assert!(rt; 0 < width && sent <= 160);
    let due = if ask.mode == 1 {
        (bytes.len() / width)
            .saturating_add(1)
            .saturating_mul(width)
    } else {
        bytes.len()
    };
    assert_eq!(rt; sent, due);
    let receiving = Ask {
        direction: 1,
        ..*ask
    };
    let given = carries(kit, &receiving, &coded[..sent], other, &mut back).expect(
        rt,
        "the receiver was refused",
    );
    assert!(rt; given <= 160);
    assert!(rt; &back[..given] == bytes);
    assert!(rt; back[given..].iter().all(|b| *b == BLANK));
}

// Every mode, lengths about a block's, pieces of several lengths on either side.
fn trips<K: Kit + Copy>(rt: &impl Abort, kit: K, key: usize) {
    let keys = keys();
    let text = text();
    let width = kit::width_of(&kit);
    for mode in 1..=3 {
        let ask = Ask {
            mode,
            direction: 0,
            key: &keys[..key.min(256)],
            start: &keys[..width],
        };
        for length in [0, 1, width.saturating_sub(1), width, width + 1, 100] {
            let bytes = &text[..length.min(100)];
            for (step, other) in [(1, 100), (7, 16), (33, 1)] {
                trip(rt, kit, &ask, bytes, step, other);
            }
        }
    }
}

#[test]
fn aes_comes_back(rt: HostRuntime) {
    trips(&rt, Aes, 16);
    trips(&rt, Aes, 24);
    trips(&rt, Aes, 32);
}

#[test]
fn mkv_128_comes_back(rt: HostRuntime) {
    trips(&rt, Mkv128, 16);
    trips(&rt, Mkv128, 24);
    trips(&rt, Mkv128, 32);
}

#[test]
fn mkv_256_comes_back(rt: HostRuntime) {
    trips(&rt, Mkv256, 32);
    trips(&rt, Mkv256, 48);
    trips(&rt, Mkv256, 64);
}

#[test]
fn whitening_comes_back(rt: HostRuntime) {
    trips(&rt, Whitening::over(Mkv128), 48);
    trips(&rt, Whitening::over(Whitening::over(Aes)), 80);
    trips(&rt, Whitening::over(Whitening::over(Mkv256)), 160);
}

#[test]
fn cascade_comes_back(rt: HostRuntime) {
    let pair = Cascade::of(Aes, 16, Mkv128);
    let wide = Cascade::of(Mkv256, 32, Whitening::over(Mkv256));
    trips(&rt, pair, 32);
    trips(&rt, wide, 128);
    trips(&rt, Whitening::over(pair), 64);
}

// Texts that end as a padding would, or hold nothing else.
#[test]
fn texts_like_padding_come_back(rt: HostRuntime) {
    let keys = keys();
    let ask = Ask {
        mode: 1,
        direction: 0,
        key: &keys[..16],
        start: &keys[32..48],
    };
    let mut marked = [0; 40];
    marked[14] = 0x80;
    marked[30] = 0x80;
    for text in [[0; 40], [0x80; 40], marked] {
        for length in [1, 15, 16, 17, 31, 32, 40] {
            assert!(rt; length <= 40);
            trip(&rt, Mkv128, &ask, &text[..length], 16, 5);
        }
    }
}

fn worked(rt: &impl Abort, mode: u8, cipher: &[u8]) {
    let ask = Ask {
        mode,
        direction: 0,
        key: &KEY,
        start: &START,
    };
    let mut coded = [BLANK; 160];
    let sent = carries(Aes, &ask, &TEXT, 7, &mut coded).expect(rt, "the sender was refused");
    assert!(rt; sent <= 160);
    assert!(rt; &coded[..sent] == cipher);
    trip(rt, Aes, &ask, &TEXT, 3, 9);
}

#[test]
fn worked_modes(rt: HostRuntime) {
    worked(&rt, 1, &CBC);
    worked(&rt, 2, &CFB);
    worked(&rt, 3, &OFB);
}

// Puts bytes on a link that was opened: how many it gave, or none where a call was refused.
fn onto<K: Kit>(desk: &mut Desk<K>, opened: &Opened, bytes: &[u8], out: &mut [u8]) -> usize {
    match opened {
        Ok(ticket) => puts(desk, ticket.link(), bytes, 7, out).unwrap_or(0),
        Err(_) => 0,
    }
}

// Two senders of one text under one key and start block. The first is struck after 40 bytes, and its number then takes no piece;
// the second, whose turns lie in between, goes on to its end. How many bytes each gave, if all was as it should be.
fn struck<K: Kit>(
    desk: &mut Desk<K>,
    ask: &Ask<'_>,
    first: &mut [u8],
    second: &mut [u8],
) -> Option<(usize, usize)> {
    let text = text();
    let (front, back) = text.split_at(40);
    let one = desk.open(ask);
    let two = desk.open(ask);
    let early = onto(desk, &one, front, first);
    let before = onto(desk, &two, front, second).min(second.len());
    let link = number(&one);
    let refusal = desk.struck(one);
    let closed = told(desk.put(link.unwrap_or(0), back, &mut [BLANK; 96]));
    let open = desk.bank.count().1;
    let after = onto(desk, &two, back, &mut second[before..]);
    let at = before.saturating_add(after).min(second.len());
    let last = two.map(|ticket| desk.ends(ticket, &mut second[at..])).ok()?;
    if (refusal, closed, open) != (0, 12, 1) {
        return None;
    }
    Some((early, at.checked_add(last.ok()?)?))
}

// A struck sender gave the front of what it would have given, and the other all of it. The front comes back as far as it
// goes: in CBC but for the last block, which is no padding.
fn struck_midway<K: Kit + Copy>(rt: &impl Abort, kit: K, ask: &Ask<'_>) {
    let text = text();
    let mut alone = [BLANK; 160];
    let mut first = [BLANK; 160];
    let mut second = [BLANK; 160];
    let mut back = [BLANK; 160];
    let all = carries(kit, ask, &text, 100, &mut alone).expect(rt, "the sender was refused");
    let mut desk = Desk::over(kit, 96);
    let given = struck(&mut desk, ask, &mut first, &mut second);
    let (early, late) = given.expect(rt, "a struck link is not closed");
    assert_eq!(rt; desk.bank.count(), (96, 0));
    assert!(rt; desk.sound && early <= 160);
    assert_eq!(rt; late, all);
    assert!(rt; second == alone);
    assert!(rt; first[..early] == alone[..early]);
    let receiving = Ask {
        direction: 1,
        ..*ask
    };
    let open = desk.open(&receiving);
    let heard = onto(&mut desk, &open, &first[..early], &mut back);
    let end = desk.ended(open);
    assert!(rt; heard <= 100);
    assert!(rt; back[..heard] == text[..heard]);
    let (due, refusal) = if ask.mode == 1 {
        (early.saturating_sub(ask.start.len()), 16)
    } else {
        (40, 0)
    };
    assert_eq!(rt; (heard, end), (due, refusal));
}

#[test]
fn a_sender_is_struck_midway(rt: HostRuntime) {
    let keys = keys();
    for mode in 1..=3 {
        let ask = Ask {
            mode,
            direction: 0,
            key: &keys[..32],
            start: &keys[32..48],
        };
        struck_midway(&rt, Aes, &ask);
        struck_midway(&rt, Cascade::of(Aes, 16, Mkv128), &ask);
        let wide = Ask {
            start: &keys[32..64],
            ..ask
        };
        struck_midway(&rt, Mkv256, &wide);
    }
}
