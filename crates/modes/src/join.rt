// Joining text with a pad and parting it again, as the modes do: the one place where code says how.
// Promises what a byte or a block then is, for any two lengths.
// Rests on crate block's XOR.
// Joining and parting are told apart, though XOR does both, so that another joining can take its place.
ghost use Rattle.std.specs.Prelude.{◌≡◌};
ghost use Rattle.modes.specs.Join.{join_byte, part_byte, join, part};

// A byte of text joined with a byte of the pad.
#[tactic(auto, unfolding(crate::specs::Join::join_byte))]
pub fn join_byte(text: u8, pad: u8) -> u8
    ensures { result ≡ join_byte text pad }
{
    text ^ pad
}

// A byte parted from its byte of the pad.
#[tactic(auto, unfolding(crate::specs::Join::part_byte))]
pub fn part_byte(byte: u8, pad: u8) -> u8
    ensures { result ≡ part_byte byte pad }
{
    byte ^ pad
}

// Joins a text in place with as many first bytes of `pad`.
#[tactic(auto, unfolding(crate::specs::Join::join))]
pub fn join_into(text: &mut [u8], pad: &[u8])
    ensures { text.new ≡ join text.old pad.now }
{
    block::xor_into(text, pad);
}

// Parts bytes in place from as many first bytes of `pad`.
#[tactic(auto, unfolding(crate::specs::Join::part))]
pub fn part_into(bytes: &mut [u8], pad: &[u8])
    ensures { bytes.new ≡ part bytes.old pad.now }
{
    block::xor_into(bytes, pad);
}
