// The scratch under guard: once the guard ends, on whichever way, the scratch holds zeros.
ghost use Rattle.std.specs.Prelude.{◌≡◌, replicate};

// The bytes of the scratch: as many as the longest schedule has.
pub(super) const SCRATCH: usize = 1536;

// Only the scratch bytes.
pub(super) struct Guard<'a> {
    pub(super) bytes: &'a mut [u8; SCRATCH],
}

impl Drop for Guard<'_> {
    fn drop(self)
        ensures { self.exit.0.now ≡ replicate 1536 0 }
    {
        wipe(self.bytes);
        let Guard { bytes: _ } = self;
    }
}

fn wipe(scratch: &mut [u8; SCRATCH])
    ensures { scratch.new ≡ replicate 1536 0 }
{
    scratch.fill(0);
}
