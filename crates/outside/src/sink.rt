//! Sinks: what takes pieces of bytes.

ghost use Rattle.std.specs.Prelude.{◌<◌, ◌^◌, ◌-◌};
ghost use Rattle.outside.specs.Putting.{SinkView, Took};

/// A write failed. A prefix of the piece may have been written.
#[derive(Clone, Copy, Debug, PartialEq, Eq)]
pub struct Failed;

/// Takes pieces of bytes, one after another.
pub trait Sink {
    /// The bytes so far where the sink tells them, how many pieces it was handed, and how many of
    /// those it failed to take.
    ghost told: { Self → SinkView };

    /// Appends the whole piece, or fails after a prefix of it. It takes no memory.
    fn put(&mut self, bytes: &[u8]) -> Result<(), Failed>
        requires { (told self.old).puts < 2 ^ 64 - 1 }
        ensures { Took bytes.now result (told self.old) (told self.new) };
}
