// Tests of AES and of piles of layers over it: worked values, sums at their bounds, refusals with their depth.
// Promises nothing of its own.
// Rests on crates aes and layers and what they rest on.
#![tactic(auto)]

#[cfg(test)]
mod tests {
    use aes::{Aes, Step};
    use kit::Kit;
    use layers::{Cascade, Whitening};
    use refusal::{KeyFault, Refusal};
    use std::process::Abort;

    // The bytes 00 to 2F; a key is as many of them as it has.
    const KEY: [u8; 48] = [
        0x00, 0x01, 0x02, 0x03, 0x04, 0x05, 0x06, 0x07, 0x08, 0x09, 0x0A, 0x0B, 0x0C, 0x0D, 0x0E,
        0x0F, 0x10, 0x11, 0x12, 0x13, 0x14, 0x15, 0x16, 0x17, 0x18, 0x19, 0x1A, 0x1B, 0x1C, 0x1D,
        0x1E, 0x1F, 0x20, 0x21, 0x22, 0x23, 0x24, 0x25, 0x26, 0x27, 0x28, 0x29, 0x2A, 0x2B, 0x2C,
        0x2D, 0x2E, 0x2F,
    ];

    const TEXT: [u8; 16] = [
        0x00, 0x11, 0x22, 0x33, 0x44, 0x55, 0x66, 0x77, 0x88, 0x99, 0xAA, 0xBB, 0xCC, 0xDD, 0xEE,
        0xFF,
    ];

    const AES_128: [u8; 16] = [
        0x69, 0xC4, 0xE0, 0xD8, 0x6A, 0x7B, 0x04, 0x30, 0xD8, 0xCD, 0xB7, 0x80, 0x70, 0xB4, 0xC5,
        0x5A,
    ];

    const AES_192: [u8; 16] = [
        0xDD, 0xA9, 0x7C, 0xA4, 0x86, 0x4C, 0xDF, 0xE0, 0x6E, 0xAF, 0x70, 0xA0, 0xEC, 0x0D, 0x71,
        0x91,
    ];

    const AES_256: [u8; 16] = [
        0x8E, 0xA2, 0xB7, 0xCA, 0x51, 0x67, 0x45, 0xBF, 0xEA, 0xFC, 0x49, 0x90, 0x4B, 0x49, 0x60,
        0x89,
    ];

    const WHITENED: [u8; 16] = [
        0x3E, 0xEB, 0xA5, 0x2C, 0xDA, 0x84, 0x32, 0x90, 0xD5, 0x45, 0xD9, 0x48, 0xEF, 0x26, 0xB8,
        0x9E,
    ];

    const CASCADED: [u8; 16] = [
        0x98, 0x06, 0x1F, 0x8E, 0x52, 0x5D, 0x85, 0x97, 0x11, 0xA7, 0x97, 0xE5, 0xB6, 0x91, 0xAD,
        0x22,
    ];

    fn wrong(depth: u8, length: usize) -> Refusal {
        Refusal::Key(KeyFault { depth, length })
    }

    #[test]
    fn aes_needs(rt: HostRuntime) {
        for (length, cells) in [(16, 11), (24, 13), (32, 15)] {
            assert_eq!(rt; Aes.need(length), Ok(cells));
        }
        for length in [0, 15, 17, 48, 256, 272, 1 << 63] {
            assert_eq!(rt; Aes.need(length), Err(wrong(0, length)));
        }
    }

    // The first `len` bytes of KEY fill `cells` cells, under which TEXT becomes `cipher`, and again TEXT.
    fn comes_back<K: Kit>(rt: &impl Abort, kit: &K, len: usize, cells: usize, cipher: &[u8; 16]) {
        assert!(rt; len <= 48 && cells <= 24);
        // room for the longest schedule of these tests: there is no heap here
        let mut room = [0; 384];
        let schedule = &mut room[..16 * cells];
        let mut block = TEXT;
        assert_eq!(rt; kit.expand(&KEY[..len], schedule), Ok(()));
        assert_eq!(rt; kit.encipher(len, schedule, &mut block), Ok(()));
        assert!(rt; block == *cipher);
        assert_eq!(rt; kit.decipher(len, schedule, &mut block), Ok(()));
        assert!(rt; block == TEXT);
    }

    #[test]
    fn aes_comes_back(rt: HostRuntime) {
        for (len, cells, cipher) in [(16, 11, AES_128), (24, 13, AES_192), (32, 15, AES_256)] {
            comes_back(&rt, &Aes, len, cells, &cipher);
        }
    }

    // A schedule or a block one byte off, and nothing is written.
    #[test]
    fn aes_sizes(rt: HostRuntime) {
        let mut out = [0x5A; 177];
        assert_eq!(rt; Aes.expand(&KEY[0..16], &mut out), Err(Refusal::Block));
        assert!(rt; out == [0x5A; 177]);
        assert_eq!(rt; Aes.encipher(16, &[1; 176], &mut out), Err(Refusal::Block));
        assert_eq!(rt; Aes.decipher(32, &[1; 239], &mut out), Err(Refusal::Block));
        assert_eq!(rt;
            aes::apply_step(Step::SubBytes, &[0; 16], &mut out),
            Err(Refusal::Block)
        );
        assert_eq!(rt;
            aes::undo_step(Step::AddRoundKey, &[0; 15], &mut out),
            Err(Refusal::Block)
        );
        assert!(rt; out == [0x5A; 177]);
    }

    // Whitened AES takes a key and two blocks more.
    #[test]
    fn whitening(rt: HostRuntime) {
        let whitened = Whitening::over(Aes);
        assert_eq!(rt; whitened.need(48), Ok(13));
        assert_eq!(rt; whitened.need(31), Err(wrong(0, 31)));
        assert_eq!(rt; whitened.need(32), Err(wrong(1, 0)));
        assert_eq!(rt; whitened.need(300), Err(wrong(1, 268)));
        assert_eq!(rt; Whitening::over(whitened).need(64), Err(wrong(2, 0)));
        comes_back(&rt, &whitened, 48, 13, &WHITENED);
        let mut schedule = [0; 208];
        assert_eq!(rt; whitened.expand(&KEY, &mut schedule), Ok(()));
        assert_eq!(rt;
            whitened.encipher(48, &schedule, &mut [0; 15]),
            Err(Refusal::Block)
        );
    }

    #[test]
    fn cascade(rt: HostRuntime) {
        let pair = Cascade::of(Aes, 16, Aes);
        assert_eq!(rt; pair.need(40), Ok(24));
        assert_eq!(rt; pair.need(15), Err(wrong(0, 15)));
        assert_eq!(rt; pair.need(16), Err(wrong(1, 0)));
        assert_eq!(rt; pair.need(20), Err(wrong(1, 4)));
        comes_back(&rt, &pair, 40, 24, &CASCADED);
    }

    // The first kit takes no key of 0 bytes, and none above 256: the cascade then takes none.
    #[test]
    fn no_key_for_the_first(rt: HostRuntime) {
        for length in [0, 1, 16, 32, 256, 257, 272] {
            assert_eq!(rt; Cascade::of(Aes, 0, Aes).need(length), Err(wrong(1, 0)));
        }
        for length in [0, 1, 16, 32, 256] {
            assert_eq!(rt;
                Cascade::of(Aes, 257, Aes).need(length),
                Err(wrong(0, length))
            );
        }
        for length in [257, 273, 600] {
            assert_eq!(rt; Cascade::of(Aes, 257, Aes).need(length), Err(wrong(1, 257)));
        }
    }

    // 96 cells are accepted, and 98 are not.
    #[test]
    fn cells_at_their_bound(rt: HostRuntime) {
        let pair = Cascade::of(Aes, 16, Aes);
        let quad = Cascade::of(pair, 40, pair);
        let octet = Cascade::of(quad, 80, quad);
        assert_eq!(rt; octet.need(160), Ok(96));
        assert_eq!(rt; octet.need(168), Err(wrong(0, 168)));
        assert_eq!(rt; Whitening::over(octet).need(192), Err(wrong(0, 192)));
        assert_eq!(rt; Whitening::over(octet).need(200), Err(wrong(1, 168)));
    }

    // 256 key bytes are accepted, and 272 are not.
    #[test]
    fn bytes_at_their_bound(rt: HostRuntime) {
        let three = Whitening::over(Whitening::over(Whitening::over(Aes)));
        let six = Whitening::over(Whitening::over(Whitening::over(three)));
        let seven = Whitening::over(six);
        assert_eq!(rt; seven.need(256), Ok(29));
        let eight = Whitening::over(seven);
        assert_eq!(rt; eight.need(272), Err(wrong(0, 272)));
        assert_eq!(rt; Whitening::over(eight).need(304), Err(wrong(1, 272)));
    }
}
