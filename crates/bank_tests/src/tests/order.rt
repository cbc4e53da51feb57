// The order of refusals: of every set of faults at once, the first due is told.
use super::desk::{Ask, BLANK, BYTES, Desk, Opened, number, text, told};
use aes::Aes;
use bank_calls::Returned;
use std::process::Abort;

// Eight schedules of 11 cells.
const CELLS: usize = 88;

const ASK: Ask<'static> = Ask {
    mode: 1,
    direction: 0,
    key: &[0x3C; 16],
    start: &[0x3C; 16],
};

// A number from 0 to 31 as a set of faults.
fn set(faults: u8) -> [bool; 5] {
    [
        faults & 1 != 0,
        faults & 2 != 0,
        faults & 4 != 0,
        faults & 8 != 0,
        faults & 16 != 0,
    ]
}

// The number of the first fault in the order of the checks.
fn first(faults: [bool; 5], numbers: [u8; 5], otherwise: u8) -> u8 {
    for (due, number) in faults.iter().zip(numbers.iter()) {
        if *due {
            return *number;
        }
    }
    otherwise
}

// The lengths that a call is shown: right ones, or one short and one too many.
fn show(desk: &mut Desk<Aes>, scratch: bool, memory: bool) {
    desk.scratch = if scratch { 1535 } else { 1536 };
    desk.cells = if memory { CELLS + 1 } else { CELLS };
}

// An open with these faults, in the order 1, 9, 7, 10, 2.
fn opens(rt: &impl Abort, desk: &mut Desk<Aes>, otherwise: u8) {
    for faults in 0..32 {
        let [scratch, mode, key, start, memory] = set(faults);
        show(desk, scratch, memory);
        let number = desk.asked(&Ask {
            mode: if mode { 4 } else { 1 },
            direction: if mode { 2 } else { 0 },
            key: &BYTES[..if key { 17 } else { 16 }],
            start: &BYTES[..if start { 15 } else { 16 }],
        });
        show(desk, false, false);
        let due = first(set(faults), [1, 9, 7, 10, 2], otherwise);
        assert_eq!(rt; number, due, "at {faults}");
    }
}

// With eight links open no cell is free, and 11 is told; with seven open and 2 cells short it is 6.
#[test]
fn order_of_an_open(rt: HostRuntime) {
    let mut desk = Desk::over(Aes, CELLS);
    opens(&rt, &mut desk, 0);
    let open = desk.eight(&ASK);
    opens(&rt, &mut desk, 11);
    assert!(rt; desk.strikes(open) == [0; 8]);
    let [a, b, c, d, e, f, g, h] = desk.eight(&ASK);
    let last = desk.struck(h);
    let wide = Ask {
        key: &[0x3C; 24],
        ..ASK
    };
    let i = desk.open(&wide);
    let short = desk.struck(i);
    let j = desk.open(&ASK);
    let closed = desk.strikes([a, b, c, d, e, f, g, j]);
    assert_eq!(rt; last, 0);
    assert_eq!(rt; short, 6);
    assert!(rt; closed == [0; 8]);
    assert_eq!(rt; desk.bank.count(), (CELLS, 0));
    assert!(rt; desk.sound);
}

// A link is free and cells are not: a bank of 10 cells.
#[test]
fn cells_come_last(rt: HostRuntime) {
    let mut desk = Desk::over(Aes, 10);
    for (shown, number) in [(10, 6), (9, 2), (11, 2), (0, 2), (257, 2)] {
        desk.cells = shown;
        assert_eq!(rt; desk.asked(&ASK), number, "at {shown}");
    }
    assert!(rt; desk.sound);
}

// A put with these faults, in the order 1, 12, 2, 13, 14, on a link that was opened for it.
fn put(desk: &mut Desk<Aes>, faults: [bool; 5]) -> u8 {
    let [scratch, closed, memory, piece, output] = faults;
    let ticket = match desk.open(&ASK) {
        Ok(ticket) => ticket,
        Err(refusal) => return refusal.number(),
    };
    let link = if closed { 8 } else { ticket.link() };
    let bytes = [7; 4097];
    let piece = &bytes[..if piece { 4097 } else { 32 }];
    let mut out = [BLANK; 4097];
    let room = &mut out[..if output { 31 } else { 4097 }];
    show(desk, scratch, memory);
    let answer = desk.put(link, piece, room);
    show(desk, false, false);
    desk.bank.strike(ticket);
    told(answer)
}

#[test]
fn order_of_a_put(rt: HostRuntime) {
    let mut desk = Desk::over(Aes, CELLS);
    for faults in 0..32 {
        let faults = set(faults);
        let due = first(faults, [1, 12, 2, 13, 14], 0);
        assert_eq!(rt; put(&mut desk, faults), due, "at {faults:?}");
    }
    assert_eq!(rt; desk.bank.count(), (CELLS, 0));
    assert!(rt; desk.sound);
}

// A receiving CBC link that took these bytes.
fn hear(desk: &mut Desk<Aes>, took: &[u8]) -> Opened {
    let opened = desk.open(&Ask {
        direction: 1,
        ..ASK
    });
    if let Some(link) = number(&opened) {
        let _ = desk.put(link, took, &mut [BLANK; 32]);
    }
    opened
}

// An end of a receiving CBC link with these faults, in the order 1, 12, 2, 14. A ticket of another bank names a link that is
// not open in this one, which has none.
fn end(desk: &mut Desk<Aes>, other: &mut Desk<Aes>, took: &[u8], faults: [bool; 5]) -> u8 {
    let [scratch, closed, memory, _, output] = faults;
    let opened = if closed {
        hear(other, took)
    } else {
        hear(desk, took)
    };
    let ticket = match opened {
        Ok(ticket) => ticket,
        Err(refusal) => return refusal.number(),
    };
    let mut out = [BLANK; 8];
    let room = &mut out[..if output { 7 } else { 8 }];
    show(desk, scratch, memory);
    let answer = desk.end(ticket, room);
    show(desk, false, false);
    match answer {
        Ok(_) => 0,
        Err(Returned { refusal, ticket }) => {
            if closed {
                other.bank.strike(ticket);
            } else {
                desk.bank.strike(ticket);
            }
            refusal.number()
        }
    }
}

// The 48 bytes of ciphertext that 40 of text make.
fn coded(rt: &impl Abort) -> [u8; 48] {
    let text = text();
    let (piece, _) = text.split_at(40);
    let mut desk = Desk::over(Aes, CELLS);
    let mut coded = [BLANK; 48];
    match desk.open(&ASK) {
        Ok(ticket) => {
            let front = desk.put(ticket.link(), piece, &mut coded);
            let last = desk.ends(ticket, &mut coded[32..]);
            assert_eq!(rt; front, Ok(32));
            assert_eq!(rt; last, Ok(16));
        }
        Err(refusal) => assert_eq!(rt; refusal.number(), 0),
    }
    assert!(rt; desk.sound);
    coded
}

// 20 bytes end inside a block; 32 end with a block of text; 48 with the padding of the last 8 bytes.
#[test]
fn order_of_an_end(rt: HostRuntime) {
    let coded = coded(&rt);
    let mut desk = Desk::over(Aes, CELLS);
    let mut other = Desk::over(Aes, CELLS);
    for (length, number) in [(20, 15), (32, 16), (48, 0)] {
        assert!(rt; length <= 48);
        for faults in 0..32 {
            let [scratch, closed, memory, _, output] = set(faults);
            let faults = [scratch, closed, memory, number != 0, output];
            let due = first(faults, [1, 12, 2, number, 14], 0);
            let answer = end(&mut desk, &mut other, &coded[..length], faults);
            assert_eq!(rt; answer, due, "at {length}, {faults:?}");
        }
    }
    assert!(rt; desk.sound && other.sound);
}

// An open, and a put and an end of an open link, that are shown so many scratch bytes and cells.
fn shown(desk: &mut Desk<Aes>, scratch: usize, cells: usize) -> [u8; 3] {
    let open = desk.open(&ASK);
    desk.scratch = scratch;
    desk.cells = cells;
    let asked = desk.asked(&ASK);
    let put = match &open {
        Ok(ticket) => told(desk.put(ticket.link(), &[7; 16], &mut [BLANK; 16])),
        Err(refusal) => refusal.number(),
    };
    let ended = desk.ended(open);
    desk.scratch = 1536;
    desk.cells = CELLS;
    [asked, put, ended]
}

// A scratch of another length is refused 1 and not touched, and a memory of another length 2.
#[test]
fn other_lengths(rt: HostRuntime) {
    let mut desk = Desk::over(Aes, CELLS);
    for (scratch, cells, number) in [
        (1536, CELLS, 0),
        (0, CELLS, 1),
        (1, CELLS, 1),
        (1535, CELLS, 1),
        (1537, CELLS, 1),
        (1535, 0, 1),
        (1536, 0, 2),
        (1536, CELLS - 1, 2),
        (1536, CELLS + 1, 2),
        (1536, 257, 2),
    ] {
        let answers = shown(&mut desk, scratch, cells);
        assert!(rt; answers == [number; 3], "at {scratch}, {cells}");
        assert_eq!(rt; desk.bank.count(), (CELLS, 0));
    }
    assert!(rt; desk.sound);
}
