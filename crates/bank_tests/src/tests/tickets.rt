// Eight links and their tickets: numbers that come free again, and tickets that another bank is shown.
use super::desk::{Ask, BLANK, Desk, Opened, number, told};
use aes::Aes;
use bank_calls::Returned;
use kit::Kit;
use std::process::Abort;

// Eight schedules of 11 cells.
const CELLS: usize = 88;

const ASK: Ask<'static> = Ask {
    mode: 1,
    direction: 0,
    key: &[0x3C; 16],
    start: &[0x3C; 16],
};

// A put on each number from 0 to 7: which ones are not open.
fn closed<K: Kit>(desk: &mut Desk<K>) -> [bool; 8] {
    let mut closed = [false; 8];
    for link in 0..8 {
        closed[link] = told(desk.put(link, &[], &mut [])) == 12;
    }
    closed
}

// The eight numbers are the eight that there are.
fn all(numbers: [Option<usize>; 8]) -> bool {
    (0..8).all(|link| numbers.contains(&Some(link)))
}

#[test]
fn eight_links_and_no_ninth(rt: HostRuntime) {
    let mut desk = Desk::over(Aes, 256);
    assert!(rt; closed(&mut desk) == [true; 8]);
    let [a, b, c, d, e, f, g, h] = desk.eight(&ASK);
    let numbers = [
        number(&a),
        number(&b),
        number(&c),
        number(&d),
        number(&e),
        number(&f),
        number(&g),
        number(&h),
    ];
    let full = desk.bank.count();
    let ninth = desk.asked(&ASK);
    let open = closed(&mut desk);
    let struck = desk.strikes([a, b, c, d, e, f, g, h]);
    assert!(rt; all(numbers));
    assert_eq!(rt; full, (168, 8));
    assert_eq!(rt; ninth, 11);
    assert!(rt; open == [false; 8]);
    assert!(rt; struck == [0; 8]);
    assert!(rt; closed(&mut desk) == [true; 8]);
    assert_eq!(rt; desk.bank.count(), (256, 0));
    assert!(rt; desk.sound);
}

// Strikes a link while the others are open, and opens one: it has the number that came free.
fn again(desk: &mut Desk<Aes>, opened: Opened) -> (bool, Opened) {
    let before = number(&opened);
    let struck = desk.struck(opened);
    let free = closed(desk);
    let opened = desk.open(&ASK);
    let after = number(&opened);
    let one = before.is_some_and(|link| free.get(link) == Some(&true));
    (struck == 0 && one && after == before, opened)
}

#[test]
fn each_number_comes_free_again(rt: HostRuntime) {
    let mut desk = Desk::over(Aes, CELLS);
    let [a, b, c, d, e, f, g, h] = desk.eight(&ASK);
    let (first, a) = again(&mut desk, a);
    let (second, b) = again(&mut desk, b);
    let (third, c) = again(&mut desk, c);
    let (fourth, d) = again(&mut desk, d);
    let (fifth, e) = again(&mut desk, e);
    let (sixth, f) = again(&mut desk, f);
    let (seventh, g) = again(&mut desk, g);
    let (eighth, h) = again(&mut desk, h);
    let full = desk.bank.count();
    let ended = desk.end_all([a, b, c, d, e, f, g, h]);
    assert!(rt; first && second && third && fourth);
    assert!(rt; fifth && sixth && seventh && eighth);
    assert_eq!(rt; full, (0, 8));
    assert!(rt; ended == [0; 8]);
    assert_eq!(rt; desk.bank.count(), (CELLS, 0));
    assert!(rt; desk.sound);
}

#[test]
fn numbers_of_no_link(rt: HostRuntime) {
    let mut desk = Desk::over(Aes, CELLS);
    let open = desk.eight(&ASK);
    let mut closed = true;
    let mut out = [BLANK; 16];
    for link in [8, 9, 255, 1 << 32, usize::MAX] {
        closed = closed && told(desk.put(link, &[7; 16], &mut out)) == 12;
    }
    let struck = desk.strikes(open);
    assert!(rt; closed);
    assert!(rt; struck == [0; 8]);
    assert!(rt; out == [BLANK; 16]);
    assert!(rt; desk.sound);
}

// An end that is refused: the number, and the link of the ticket that came back.
fn handed_back(desk: &mut Desk<Aes>, opened: Opened) -> (u8, Option<usize>) {
    match opened {
        Ok(ticket) => match desk.end(ticket, &mut [BLANK; 16]) {
            Ok(_) => (0, None),
            Err(Returned { refusal, ticket }) => {
                let link = ticket.link();
                desk.bank.strike(ticket);
                (refusal.number(), Some(link))
            }
        },
        Err(refusal) => (refusal.number(), None),
    }
}

// On a link that is not open a strike only takes the ticket, and an end is refused 12 and hands it back.
#[test]
fn tickets_of_no_open_link(rt: HostRuntime) {
    let mut desk = Desk::over(Aes, CELLS);
    let mut empty = Desk::over(Aes, CELLS);
    let first = desk.open(&ASK);
    let second = desk.open(&ASK);
    let link = number(&second);
    let struck = empty.struck(first);
    let (refusal, back) = handed_back(&mut empty, second);
    assert_eq!(rt; struck, 0);
    assert_eq!(rt; refusal, 12);
    assert!(rt; link.is_some() && back == link);
    assert_eq!(rt; empty.bank.count(), (CELLS, 0));
    assert_eq!(rt; desk.bank.count(), (66, 2));
    assert!(rt; desk.sound && empty.sound);
}

// How many of the eight answers are `number`.
fn many(answers: [u8; 8], number: u8) -> usize {
    answers.iter().filter(|answer| **answer == number).count()
}

// A ticket is judged by its number: where all eight links are open, the one of that number is closed, and no other.
fn closes(rt: &impl Abort, by_end: bool) {
    let mut desk = Desk::over(Aes, CELLS);
    let mut other = Desk::over(Aes, CELLS);
    let open = other.eight(&ASK);
    let foreign = desk.open(&ASK);
    let link = number(&foreign);
    let answer = if by_end {
        other.ended(foreign)
    } else {
        other.struck(foreign)
    };
    let left = other.bank.count();
    let shut = closed(&mut other);
    let answers = other.end_all(open);
    assert_eq!(rt; answer, 0);
    assert_eq!(rt; left, (11, 7));
    for i in 0..8 {
        assert_eq!(rt; shut[i], link == Some(i), "at {i}");
    }
    assert_eq!(rt; (many(answers, 0), many(answers, 12)), (7, 1));
    assert_eq!(rt; other.bank.count(), (CELLS, 0));
    assert_eq!(rt; desk.bank.count(), (77, 1));
    assert!(rt; desk.sound && other.sound);
}

#[test]
fn a_ticket_closes_by_its_number(rt: HostRuntime) {
    closes(&rt, true);
    closes(&rt, false);
}
