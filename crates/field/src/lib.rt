// Bytes as polynomials over GF(2), modulo x^8 + poly: products, rows times columns, matrices times columns, and times each word of a block.
// Promises the product that its laws fix, at every polynomial, and that an inverse matrix undoes a matrix.
// Rests on the bytes of crate block.
#![tactic(auto)]

ghost use Rattle.std.specs.Prelude.{◌≡◌, ℕ, ◌*◌, ◌<◌, length};
ghost use Rattle.block.specs.Bytes.{fitted};
ghost use Rattle.block.specs.Words.{each_word};
ghost use Rattle.field.specs.Byte.{times_x, mul as product};
ghost use Rattle.field.specs.Laws.{ProductLaws};
ghost use Rattle.field.specs.Matrix.{dot as inner, apply as matrix, InverseUndoes};
ghost use Rattle.field.specs.Known.{Known};

// x times `a`.
pub fn times_x(poly: u8, a: u8) -> u8
    ensures { result ≡ times_x poly a }
{
    let shifted = a << 1;
    if a >= 128 { shifted ^ poly } else { shifted }
}

// `a` times `b`.
pub fn mul(poly: u8, a: u8, b: u8) -> u8
    ensures { result ≡ product poly a b }
{
    let mut sum = 0;
    let mut power = a;
    let mut rest = b;
    // eight times the same: what is left of `b` and the power change together
    for _i in 0..8u8 {
        if rest % 2 == 1 {
            sum ^= power;
        }
        power = times_x(poly, power);
        rest /= 2;
    }
    sum
}

// A row times a column, as far as both go.
pub fn dot(poly: u8, row: &[u8], v: &[u8]) -> u8
    ensures { result ≡ inner poly row.now v.now }
{
    row.iter()
        .zip(v)
        .fold(0, |sum, (r, x)| sum ^ mul(poly, *r, *x))
}

// A matrix of rows of T bytes times a column: the first T bytes, with 0 for each row that is missing.
pub fn apply<const T: usize>(poly: u8, m: &[[u8; T]], v: &[u8]) -> [u8; T]
    ensures { result ≡ fitted T (matrix poly m.now v.now) }
{
    // not `array::from_fn`: in a generic function a closure would need the whole clause again
    let mut out = [0; T];
    let rows = T.min(m.len());
    for (i, row) in m[..rows].iter().enumerate() {
        out[i] = dot(poly, row, v);
    }
    out
}

// Each of the four words of a block, as a column, replaced by a square matrix times it.
pub fn apply_each<const T: usize>(poly: u8, m: &[[u8; T]; T], block: &mut [u8])
    requires { length block.old ≡ 4 * T }
    ensures { block.new ≡ each_word 4 T (matrix poly m.now) block.old }
{
    // by index: after `chunks_exact_mut` no proof knows what was written
    for i in 0..4usize {
        let word = &mut block[i * T..i * T + T];
        let product = apply(poly, m, word);
        word.copy_from_slice(&product);
    }
}

// At every polynomial the product obeys the laws that fix it; inverse matrices undo matrices.
pub fn field_stands()
    ensures laws { (p : ℕ) → p < 256 → ProductLaws p }
    ensures inverse { InverseUndoes }
    ensures known { Known }
{}
