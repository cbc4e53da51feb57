// Each refusal by its number, through the calls that tell it.
use super::desk::{Ask, BLANK, BYTES, Desk, told};
use aes::Aes;
use bank_calls::{Bank, Returned};
use kit::Kit;
use layers::{Cascade, Whitening};
use mkv::{Mkv128, Mkv256};
use refusal::{KeyFault, Refusal};
use shelf::{KeyCell, Shelf};
use std::process::Abort;

fn ask(mode: u8, direction: u8, key: usize, start: usize) -> Ask<'static> {
    Ask {
        mode,
        direction,
        key: &BYTES[..key.min(256)],
        start: &BYTES[..start.min(256)],
    }
}

// One call for each number: 4, 5 and 8 of a shelf and a kit.
fn numbers_below() -> [u8; 3] {
    let mut shelf: Shelf<KeyCell> = Shelf::new();
    [
        told(shelf.append(&mut [], 16, &[])),
        told(shelf.read(&[], 15, 0)),
        told(Aes.encipher(16, &[0; 176], &mut [0; 15])),
    ]
}

// 1, 2, 3, 6, 7, 9, 10 and 11 before a link is open.
fn numbers_before(desk: &mut Desk<Aes>) -> [u8; 8] {
    let good = ask(1, 0, 16, 16);
    desk.scratch = 0;
    let scratch = desk.asked(&good);
    desk.scratch = 1536;
    desk.cells = 0;
    let memory = desk.asked(&good);
    desk.cells = 88;
    let open = desk.eight(&good);
    let links = desk.asked(&good);
    let _ = desk.strikes(open);
    [
        scratch,
        memory,
        told(desk.bank.size(88)),
        Desk::over(Aes, 10).asked(&good),
        desk.asked(&ask(1, 0, 17, 16)),
        desk.asked(&ask(0, 0, 16, 16)),
        desk.asked(&ask(1, 0, 16, 15)),
        links,
    ]
}

// 12 to 16 on a receiving CBC link. (The bytes 7 are no ciphertext whose text ends as it should.)
fn numbers_after(desk: &mut Desk<Aes>) -> Option<[u8; 5]> {
    let closed = told(desk.put(8, &[], &mut []));
    let ticket = desk.open(&ask(1, 1, 16, 16)).ok()?;
    let link = ticket.link();
    let piece = told(desk.put(link, &[7; 4097], &mut []));
    let output = told(desk.put(link, &[7; 17], &mut []));
    let (ragged, ticket) = match desk.end(ticket, &mut []) {
        Ok(_) => return None,
        Err(Returned { refusal, ticket }) => (refusal.number(), ticket),
    };
    let held = desk.put(link, &[7; 16], &mut []);
    let padding = told(desk.ends(ticket, &mut []));
    if held != Ok(0) {
        return None;
    }
    Some([closed, piece, output, ragged, padding])
}

#[test]
fn every_number(rt: HostRuntime) {
    let mut desk = Desk::over(Aes, 88);
    assert!(rt; numbers_below() == [4, 5, 8]);
    assert!(rt; numbers_before(&mut desk) == [1, 2, 3, 6, 7, 9, 10, 11]);
    assert!(rt; numbers_after(&mut desk) == Some([12, 13, 14, 15, 16]));
    assert_eq!(rt; desk.bank.count(), (88, 0));
    assert!(rt; desk.sound);
}

// A bank's cells are set once, from 1 to 256.
#[test]
fn cells_of_a_bank(rt: HostRuntime) {
    for (n, first, second, free) in [
        (0, 3, 0, 41),
        (1, 0, 3, 1),
        (256, 0, 3, 256),
        (257, 3, 0, 41),
        (usize::MAX, 3, 0, 41),
    ] {
        let mut bank = Bank::over(Aes);
        assert_eq!(rt; bank.count(), (0, 0));
        assert_eq!(rt; told(bank.size(n)), first);
        assert_eq!(rt; told(bank.size(41)), second);
        assert_eq!(rt; bank.count(), (free, 0));
    }
}

// Before that an open with no memory comes as far as 6, and a put finds no link.
#[test]
fn a_bank_without_cells(rt: HostRuntime) {
    let mut desk = Desk::over(Aes, 0);
    assert!(rt; !desk.sound);
    desk.sound = true;
    assert_eq!(rt; desk.asked(&ask(1, 0, 16, 16)), 6);
    assert_eq!(rt; told(desk.put(0, &[], &mut [])), 12);
    desk.cells = 1;
    assert_eq!(rt; desk.asked(&ask(1, 0, 16, 16)), 2);
    assert!(rt; desk.sound);
}

#[test]
fn refusals_of_a_shelf(rt: HostRuntime) {
    let mut shelf: Shelf<KeyCell> = Shelf::new();
    let mut cells = [[7; 16]; 2];
    let mut out = [0; 31];
    assert_eq!(rt; told(shelf.append_bytes(&mut [], 0, &[0; 16])), 6);
    assert_eq!(rt; told(shelf.size(2)), 0);
    assert_eq!(rt; told(shelf.size(2)), 3);
    assert_eq!(rt; told(shelf.append(&mut [], 16, &[[1; 16]])), 4);
    assert_eq!(rt; told(shelf.append_bytes(&mut [], 15, &[1; 48])), 2);
    assert_eq!(rt; told(shelf.append_bytes(&mut cells, 15, &[1; 48])), 6);
    assert_eq!(rt; told(shelf.append_bytes(&mut cells, 15, &[1; 47])), 0);
    assert_eq!(rt; told(shelf.read(&[], 16, 2)), 4);
    assert_eq!(rt; told(shelf.read(&[], 15, 2)), 2);
    assert_eq!(rt; told(shelf.read(&cells, 15, 2)), 5);
    assert_eq!(rt; told(shelf.count(usize::MAX)), 4);
    assert_eq!(rt; told(shelf.gather_bytes(&[], 16, &mut out)), 4);
    assert_eq!(rt; told(shelf.gather_bytes(&[], 15, &mut out)), 2);
    assert_eq!(rt; told(shelf.gather_bytes(&cells, 15, &mut out)), 14);
    assert_eq!(rt; told(shelf.drop_chain(16)), 4);
    assert!(rt; out == [0; 31]);
}

// Key before size, and a size that is one byte off either way.
fn sizes<K: Kit>(rt: &impl Abort, kit: &K, key: usize, schedule: usize) {
    let width = kit::width_of(kit);
    assert!(rt; 0 < key && key < 256 && 0 < schedule && schedule < 600 && 0 < width);
    let room = [0; 600];
    let mut block = [BLANK; 33];
    for (keyed, given, bytes, number) in [
        (key, schedule, width, 0),
        (key + 1, schedule + 1, width, 7),
        (key, schedule + 1, width, 8),
        (key, schedule - 1, width, 8),
        (key, schedule, width + 1, 8),
        (key, schedule, width - 1, 8),
    ] {
        assert!(rt; given <= 600 && bytes <= 33);
        let (schedule, block) = (&room[..given], &mut block[..bytes]);
        assert_eq!(rt; told(kit.encipher(keyed, schedule, block)), number);
        assert_eq!(rt; told(kit.decipher(keyed, schedule, block)), number);
    }
    assert!(rt; block == [BLANK; 33]);
}

#[test]
fn refusals_of_a_kit(rt: HostRuntime) {
    sizes(&rt, &Aes, 16, 176);
    sizes(&rt, &Mkv128, 24, 240);
    sizes(&rt, &Mkv256, 64, 544);
    sizes(&rt, &Whitening::over(Mkv128), 48, 240);
    sizes(&rt, &Cascade::of(Aes, 16, Mkv128), 32, 384);
}

// Modes are 1 to 3, directions 0 and 1; keys and start blocks have the kit's lengths.
#[test]
fn refusals_of_an_open(rt: HostRuntime) {
    let mut desk = Desk::over(Aes, 15);
    for (mode, direction, key, start, number) in [
        (1, 0, 16, 16, 0),
        (2, 1, 24, 16, 0),
        (3, 0, 32, 16, 0),
        (0, 0, 16, 16, 9),
        (4, 1, 16, 16, 9),
        (255, 0, 16, 16, 9),
        (1, 2, 16, 16, 9),
        (3, 255, 16, 16, 9),
        (1, 0, 0, 16, 7),
        (1, 0, 15, 16, 7),
        (1, 0, 33, 16, 7),
        (1, 0, 256, 16, 7),
        (1, 0, 16, 0, 10),
        (1, 0, 16, 15, 10),
        (2, 1, 16, 17, 10),
        (3, 0, 16, 32, 10),
    ] {
        assert_eq!(rt; desk.asked(&ask(mode, direction, key, start)), number);
        assert_eq!(rt; desk.bank.count(), (15, 0));
    }
    assert!(rt; desk.sound);
}

// A start block is as long as the kit's blocks are.
#[test]
fn start_blocks_of_32(rt: HostRuntime) {
    let mut desk = Desk::over(Mkv256, 34);
    for (start, number) in [(16, 10), (31, 10), (32, 0), (33, 10)] {
        assert_eq!(rt; desk.asked(&ask(3, 1, 64, start)), number, "at {start}");
    }
    assert!(rt; desk.sound);
}

// The refusal of a key, as the kit tells it: the bank adds nothing to the depth.
fn fault<K: Kit + Copy>(rt: &impl Abort, kit: K, key: usize, depth: u8, length: usize) {
    let mut desk = Desk::over(kit, 256);
    let wrong = Refusal::Key(KeyFault { depth, length });
    assert_eq!(rt; kit.need(key.min(256)), Err(wrong));
    let opened = desk.open(&ask(1, 0, key, 16));
    let refusal = match &opened {
        Ok(_) => None,
        Err(refusal) => Some(*refusal),
    };
    let number = desk.struck(opened);
    assert_eq!(rt; refusal, Some(wrong));
    assert_eq!(rt; number, 7);
    assert!(rt; desk.sound);
}

#[test]
fn depth_of_a_key_fault(rt: HostRuntime) {
    let whitened = Whitening::over(Mkv128);
    fault(&rt, Mkv128, 17, 0, 17);
    fault(&rt, whitened, 31, 0, 31);
    fault(&rt, whitened, 33, 1, 1);
    fault(&rt, Whitening::over(whitened), 64, 2, 0);
    fault(&rt, Cascade::of(Aes, 16, whitened), 57, 2, 9);
}
