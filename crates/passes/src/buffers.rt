// The two buffers that the passes go between.
ghost use Rattle.std.specs.Prelude.{◌≡◌, length};

// One of the two.
#[derive(Clone, Copy)]
pub(crate) enum Buffer {
    Out,
    Work,
}

// Both, of one length, and which of them holds the picture.
#[derive(Drop)]
pub(crate) struct Buffers<'a> {
    pub(crate) out: &'a mut [u64],
    pub(crate) work: &'a mut [u64],
    pub(crate) holder: Buffer,
    ghost paired: { length work.now ≡ length out.now },
}
