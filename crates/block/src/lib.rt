// Blocks of bytes: the XOR of two, and each byte replaced by a table.
// Promises what a block then holds, and the three facts of XOR.
// Rests on nothing.
#![tactic(auto)]

ghost use Rattle.std.specs.Prelude.{◌≡◌, length, take};
ghost use Rattle.block.specs.Bytes.{xor, XorLaws};
ghost use Rattle.block.specs.Table.{sub};

// XORs the bytes of `by` into those of `block`, place by place, as far as both go.
pub fn xor_into(block: &mut [u8], by: &[u8])
    ensures { block.new ≡ take (length block.old) (xor block.old by.now) }
{
    let shared = block.len().min(by.len());
    // Not `block.iter_mut().zip(by)`: after an adapter of `iter_mut` no proof knows what was written.
    for (i, y) in by[..shared].iter().enumerate() {
        block[i] ^= *y;
    }
}

// XORs `by` into a block of its length.
pub fn xor_whole(block: &mut [u8], by: &[u8])
    requires { length block.old ≡ length by.now }
    ensures { block.new ≡ xor block.old by.now }
{
    xor_into(block, by);
}

// Replaces each byte of `block` by the one that stands at its number in `table`.
pub fn substitute(table: &[u8; 256], block: &mut [u8])
    ensures { block.new ≡ sub table.now block.old }
{
    for x in block.iter_mut() {
        *x = table[usize::from(*x)];
    }
}

// XOR of blocks is associative and commutative, and cancels itself.
pub fn xor_stands()
    ensures { XorLaws }
{}
