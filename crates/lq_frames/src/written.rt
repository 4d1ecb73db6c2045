ghost use Rattle.std.specs.Prelude.{◌≡◌, ◌^◌, ◌<◌};
ghost use Rattle.lq_frames.specs.Body.{IsRight, entry_of, size_of};
ghost use Rattle.lq_frames.specs.declared.entry.Body.{Body};

/// An entry that is ready to be written.
pub trait Encoded {
    /// What it says.
    ghost says: { Self → Body };

    /// What is written on the disk: the length of the body in four bytes, greatest first; the body;
    /// and the closed gate, 0.
    fn bytes(&self) -> &[u8]
        ensures value { result.now ≡ entry_of (says self.now) }
        ensures right { IsRight (says self.now) };

    /// How many bytes of the journal it takes.
    fn size(&self) -> u64
        ensures value { result ≡ size_of (says self.now) }
        ensures bound { result < 2 ^ 63 };
}
