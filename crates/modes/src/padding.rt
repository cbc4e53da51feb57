// The padding of a CBC text: a byte 80 and zeros up to the block's end.
// Promises what a padded block holds, and where the text of a received one ends.
// Rests on nothing.
ghost use Rattle.std.specs.Prelude.{◌≡◌};
ghost use Rattle.modes.specs.Padding.{padded_from, text_end, TextEnd};

// Pads a block whose first `from` bytes are text.
pub fn pad_from(block: &mut [u8], from: usize)
    ensures { block.new ≡ padded_from from block.old }
{
    if from < block.len() {
        block[from] = 0x80;
        block[from + 1..].fill(0);
    }
}

// Where the text of a padded block ends: at its last byte other than 00, if that byte is 80.
pub fn text_end(block: &[u8]) -> Option<usize>
    ensures found { result ≡ text_end block.now }
    ensures law { TextEnd result block.now }
{
    let i = block.iter().rposition(|&b| b != 0)?;
    (block[i] == 0x80).then_some(i)
}
