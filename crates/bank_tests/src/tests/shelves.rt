// What a shelf should do on examples, for both kinds of items.
use refusal::Refusal::{self, Cells, Chain, Memory, Output, Position, Size};
use shelf::{KeyCell, Shelf};
use std::process::Abort;
use std::test::Fail;

#[derive(Clone, Copy)]
struct Note {
    beacon: u32,
    second: u32,
}

// The answer of a call that gives something, without what it gives.
fn told<A: Drop>(r: Result<A, Refusal>) -> Result<(), Refusal> {
    r.map(|_| ())
}

#[test]
fn cells_are_set_once(rt: HostRuntime) {
    for (n, first, second, free) in [
        (0, Err(Size), Ok(()), 7),
        (1, Ok(()), Err(Size), 1),
        (256, Ok(()), Err(Size), 256),
        (257, Err(Size), Ok(()), 7),
        (usize::MAX, Err(Size), Ok(()), 7),
    ] {
        let mut shelf: Shelf<u8> = Shelf::new();
        assert_eq!(rt; shelf.size(n), first);
        assert_eq!(rt; shelf.size(7), second);
        assert_eq!(rt; shelf.free(), free);
    }
}

fn appends(
    rt: &impl Abort,
    shelf: &mut Shelf<u8>,
    cells: &mut [u8],
    table: &[(usize, usize, Result<(), Refusal>)],
) {
    let items = [5u8; 4];
    for (chain, count, due) in table {
        assert!(rt; *count <= 4);
        assert_eq!(rt; shelf.append(cells, *chain, &items[0..*count]), *due);
    }
}

fn reads(
    rt: &impl Abort,
    shelf: &Shelf<u8>,
    cells: &[u8],
    table: &[(usize, usize, Result<(), Refusal>)],
) {
    for (chain, position, due) in table {
        assert_eq!(rt; told(shelf.read(cells, *chain, *position)), *due);
    }
}

#[test]
fn refusals_come_in_order(rt: HostRuntime) {
    let mut shelf: Shelf<u8> = Shelf::new();
    appends(
        &rt,
        &mut shelf,
        &mut [],
        &[(3, 0, Ok(())), (3, 1, Err(Cells)), (16, 1, Err(Chain))],
    );
    reads(
        &rt,
        &shelf,
        &[],
        &[(3, 0, Err(Position)), (16, 0, Err(Chain))],
    );
    assert_eq!(rt; shelf.size(3), Ok(()));
    let mut cells = [9u8; 3];
    appends(
        &rt,
        &mut shelf,
        &mut [0; 2],
        &[
            (16, 4, Err(Chain)),
            (15, 4, Err(Memory)),
            (15, 0, Err(Memory)),
        ],
    );
    appends(
        &rt,
        &mut shelf,
        &mut cells,
        &[
            (16, 4, Err(Chain)),
            (usize::MAX, 0, Err(Chain)),
            (15, 4, Err(Cells)),
            (15, 3, Ok(())),
            (15, 1, Err(Cells)),
            (15, 0, Ok(())),
        ],
    );
    reads(
        &rt,
        &shelf,
        &[0; 4],
        &[
            (16, 0, Err(Chain)),
            (15, 9, Err(Memory)),
            (15, 2, Err(Memory)),
        ],
    );
    reads(
        &rt,
        &shelf,
        &cells,
        &[
            (16, 0, Err(Chain)),
            (15, 3, Err(Position)),
            (14, 0, Err(Position)),
            (15, 2, Ok(())),
        ],
    );
    assert_eq!(rt; shelf.drop_chain(16), Err(Chain));
    assert_eq!(rt; shelf.drop_chain(15), Ok(()));
    assert_eq!(rt; shelf.free(), 3);
}

// Fills a shelf of five key cells, reads one chain whole, and empties it again.
fn fill_and_empty(
    rt: &impl Abort,
    shelf: &mut Shelf<KeyCell>,
    cells: &mut [KeyCell],
    chain: usize,
    mark: u8,
) -> Result<(), Fail> {
    assert_eq!(rt;
        shelf.append(cells, chain, &[[mark; 16], [mark / 2; 16]]),
        Ok(())
    );
    assert_eq!(rt;
        shelf.append(cells, 15, &[[7; 16], [8; 16], [9; 16]]),
        Ok(())
    );
    assert_eq!(rt; shelf.append(cells, 3, &[[0; 16]]), Err(Cells));
    assert_eq!(rt; shelf.count(chain)?, 2);
    assert_eq!(rt; told(shelf.count(16)), Err(Chain));
    let mut all = [[0u8; 16]; 5];
    assert_eq!(rt; shelf.gather(cells, chain, &mut all)?, 2);
    assert_eq!(rt; all[0][3], mark);
    assert_eq!(rt; all[1][15], mark / 2);
    assert_eq!(rt;
        told(shelf.gather(cells, chain, &mut all[0..1])),
        Err(Output)
    );
    assert_eq!(rt; shelf.drop_chain(chain), Ok(()));
    assert_eq!(rt; shelf.drop_chain(15), Ok(()));
    Ok(())
}

#[test]
fn key_cells_are_used_again(rt: HostRuntime) -> Result<(), Fail> {
    let mut shelf: Shelf<KeyCell> = Shelf::new();
    assert_eq!(rt; shelf.size(5), Ok(()));
    turns(&rt, &mut shelf, &mut [[0u8; 16]; 5])?;
    assert_eq!(rt; shelf.free(), 5);
    Ok(())
}

fn turns(rt: &impl Abort, shelf: &mut Shelf<KeyCell>, cells: &mut [KeyCell]) -> Result<(), Fail> {
    for turn in 0..20u8 {
        fill_and_empty(rt, shelf, cells, usize::from(turn % 15), turn)?;
    }
    Ok(())
}

// The first two cells of forty bytes, all 7 but for a 9 at 17, behind which `out` stays as it was.
fn bytes_come_back(rt: &impl Abort, shelf: &Shelf<KeyCell>, cells: &[KeyCell]) -> Result<(), Fail> {
    let mut out = [1u8; 33];
    assert_eq!(rt; shelf.gather_bytes(cells, 15, &mut out)?, 32);
    assert_eq!(rt; out[17], 9);
    assert_eq!(rt; out[31], 7);
    assert_eq!(rt; out[32], 1);
    assert_eq!(rt;
        told(shelf.gather_bytes(cells, 15, &mut out[0..31])),
        Err(Output)
    );
    Ok(())
}

#[test]
fn bytes_make_whole_cells(rt: HostRuntime) -> Result<(), Fail> {
    let mut shelf: Shelf<KeyCell> = Shelf::new();
    let mut cells = [[0u8; 16]; 3];
    let mut bytes = [7u8; 40];
    bytes[17] = 9;
    assert_eq!(rt; shelf.size(3), Ok(()));
    assert_eq!(rt; shelf.append_bytes(&mut cells, 15, &bytes), Ok(()));
    assert_eq!(rt; shelf.append_bytes(&mut cells, 15, &bytes), Err(Cells));
    assert_eq!(rt; shelf.cells(), 3);
    assert_eq!(rt; shelf.free(), 1);
    bytes_come_back(&rt, &shelf, &cells)
}

fn hear(rt: &impl Abort, shelf: &mut Shelf<Note>, cells: &mut [Note]) {
    for beacon in 0..256u32 {
        let heard = Note {
            beacon,
            second: 2 * beacon,
        };
        assert_eq!(rt; shelf.append(cells, 15, &[heard]), Ok(()));
    }
}

#[test]
fn structs_are_items_too(rt: HostRuntime) -> Result<(), Fail> {
    let mut shelf: Shelf<Note> = Shelf::new();
    let blank = Note {
        beacon: 0,
        second: 0,
    };
    let mut cells = [blank; 256];
    assert_eq!(rt; shelf.size(256), Ok(()));
    hear(&rt, &mut shelf, &mut cells);
    assert_eq!(rt; shelf.append(&mut cells, 0, &[blank]), Err(Cells));
    let last = shelf.read(&cells, 15, 255)?;
    assert_eq!(rt; last.beacon, 255);
    assert_eq!(rt; last.second, 510);
    assert_eq!(rt; told(shelf.read(&cells, 15, 256)), Err(Position));
    Ok(())
}
