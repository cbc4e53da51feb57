// Tests of MKV through its calls: which lengths and sizes are refused, what a refusal leaves, and worked values.
// Promises nothing of its own.
// Rests on crate mkv and what that rests on.
#![tactic(auto)]

#[cfg(test)]
mod tests {
    use kit::Kit;
    use mkv::{Mkv128, Mkv256, Step};
    use refusal::{KeyFault, Refusal};
    use std::process::Abort;

    // Lengths that neither kit takes.
    const NEVER: [usize; 9] = [0, 15, 17, 31, 33, 65, 256, 257, 1 << 63];

    const KEY: [u8; 16] = [
        0x01, 0x02, 0x03, 0x04, 0x05, 0x06, 0x07, 0x08, 0x09, 0x0A, 0x0B, 0x0C, 0x0D, 0x0E, 0x0F,
        0x11,
    ];

    const TEXT: [u8; 16] = [
        0x11, 0x22, 0x33, 0x44, 0x55, 0x66, 0x77, 0x88, 0x99, 0xAA, 0xBB, 0xCC, 0xDD, 0xEE, 0xFF,
        0x00,
    ];

    const CIPHER: [u8; 16] = [
        0xB3, 0x31, 0x22, 0x83, 0x34, 0xC3, 0xF8, 0x1A, 0x37, 0x20, 0x65, 0x91, 0x49, 0x87, 0x56,
        0xA1,
    ];

    fn wrong(length: usize) -> Refusal {
        Refusal::Key(KeyFault { depth: 0, length })
    }

    // The cells that each length needs.
    fn takes<K: Kit>(rt: &impl Abort, kit: &K, cells: [(usize, usize); 3]) {
        for (length, cells) in cells {
            assert_eq!(rt; kit.need(length), Ok(cells));
        }
    }

    fn refuses<K: Kit>(rt: &impl Abort, kit: &K, length: usize) {
        assert_eq!(rt; kit.need(length), Err(wrong(length)));
    }

    #[test]
    fn needs(rt: HostRuntime) {
        takes(&rt, &Mkv128, [(16, 13), (24, 15), (32, 17)]);
        takes(&rt, &Mkv256, [(32, 26), (48, 30), (64, 34)]);
        refuses(&rt, &Mkv128, 64);
        refuses(&rt, &Mkv256, 16);
    }

    #[test]
    fn other_lengths_are_refused(rt: HostRuntime) {
        for length in NEVER {
            refuses(&rt, &Mkv128, length);
            refuses(&rt, &Mkv256, length);
        }
    }

    // The key's length is told before a size, and nothing is written.
    #[test]
    fn key_before_size(rt: HostRuntime) {
        for length in NEVER {
            let mut block = [0x5A; 15];
            assert_eq!(rt;
                Mkv128.encipher(length, &[1; 3], &mut block),
                Err(wrong(length))
            );
            assert_eq!(rt;
                Mkv256.decipher(length, &[1; 3], &mut block),
                Err(wrong(length))
            );
            assert!(rt; block == [0x5A; 15]);
        }
        let mut out = [0x5A; 15];
        assert_eq!(rt; Mkv128.expand(&[7; 17], &mut out), Err(wrong(17)));
        assert!(rt; out == [0x5A; 15]);
    }

    // A schedule or a block one byte off, and nothing is written.
    #[test]
    fn sizes(rt: HostRuntime) {
        let wrong = Err(Refusal::Block);
        let mut block = TEXT;
        assert_eq!(rt; Mkv128.encipher(16, &[1; 207], &mut block), wrong);
        assert_eq!(rt; Mkv128.encipher(16, &[1; 209], &mut block), wrong);
        assert_eq!(rt; Mkv128.decipher(32, &[1; 208], &mut block), wrong);
        assert!(rt; block == TEXT);
        let mut long = [0x5A; 17];
        assert_eq!(rt; Mkv128.encipher(16, &[1; 208], &mut long), wrong);
        assert_eq!(rt; Mkv128.decipher(16, &[1; 208], &mut long), wrong);
        assert_eq!(rt; Mkv256.encipher(32, &[1; 416], &mut long), wrong);
        assert!(rt; long == [0x5A; 17]);
        let mut out = [0x5A; 209];
        assert_eq!(rt; Mkv128.expand(&KEY, &mut out), wrong);
        assert!(rt; out == [0x5A; 209]);
    }

    #[test]
    fn worked_text(rt: HostRuntime) {
        let mut schedule = [0; 208];
        let mut block = TEXT;
        assert_eq!(rt; Mkv128.expand(&KEY, &mut schedule), Ok(()));
        assert_eq!(rt; Mkv128.encipher(16, &schedule, &mut block), Ok(()));
        assert!(rt; block == CIPHER);
        assert_eq!(rt; Mkv128.decipher(16, &schedule, &mut block), Ok(()));
        assert!(rt; block == TEXT);
    }

    // Every schedule of the right size will do, one that no key gives too.
    #[test]
    fn any_schedule(rt: HostRuntime) {
        let schedule = [0xC3; 544];
        let mut block = [0x5A; 32];
        assert_eq!(rt; Mkv256.encipher(64, &schedule, &mut block), Ok(()));
        assert!(rt; block != [0x5A; 32]);
        assert_eq!(rt; Mkv256.decipher(64, &schedule, &mut block), Ok(()));
        assert!(rt; block == [0x5A; 32]);
    }

    fn forth(rt: &impl Abort, key: &[u8], block: &mut [u8]) {
        for step in mkv::round_steps() {
            assert_eq!(rt; mkv::apply_step(step, key, block), Ok(()));
        }
    }

    fn back(rt: &impl Abort, key: &[u8], block: &mut [u8]) {
        for step in mkv::round_steps().iter().rev() {
            assert_eq!(rt; mkv::undo_step(*step, key, block), Ok(()));
        }
    }

    // The six steps and their way back, and a step on sizes that do not fit.
    #[test]
    fn steps(rt: HostRuntime) {
        let key = [0x3C; 32];
        let mut block = TEXT;
        forth(&rt, &key, &mut block);
        assert!(rt; block != TEXT);
        back(&rt, &key, &mut block);
        assert!(rt; block == TEXT);
        let mut short = [1; 8];
        assert_eq!(rt;
            mkv::apply_step(Step::XWords, &key, &mut short),
            Err(Refusal::Block)
        );
        assert_eq!(rt;
            mkv::undo_step(Step::XorA, &[0; 31], &mut block),
            Err(Refusal::Block)
        );
    }

    #[test]
    fn bytes_and_rows(rt: HostRuntime) {
        assert_eq!(rt; field::mul(0x2B, 0x04, 0x63), 0xA7);
        assert_eq!(rt; field::mul(0x1B, 0x02, 0x87), 0x15);
        assert_eq!(rt; field::dot(0x2B, &[1, 2], &[5]), 5);
        let mut row = [1, 2, 3];
        block::xor_into(&mut row, &[7, 7]);
        assert!(rt; row == [6, 5, 3]);
    }
}
