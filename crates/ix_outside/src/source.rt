ghost use Rattle.std.specs.Prelude.{ℕ, List};
ghost use Rattle.std.specs.declared.option.Option.{Option};
ghost use Rattle.std.specs.Io.{ReadsAtMost};
ghost use Rattle.std.specs.Io.KnownBytes.{ReadConsumes};
ghost use Rattle.spec_outside.specs.Causes.{HasCause};

use crate::fault::Failed;

/// What gives bytes. It means the bytes that it still has to give, where it tells them, and a count
/// of faults that never falls and stays at 2^64 - 1 once it has it.
pub trait Source {
    /// The bytes that it still has to give, where it tells them.
    ghost left: { Self → Option (List ℕ) };

    /// How often it failed.
    ghost faults: { Self → ℕ };

    /// Fills a front part of the buffer with the next bytes, and answers how many. Zero for a buffer
    /// that is not empty is the end of input, and comes only where no byte is left, if the source
    /// tells them.
    ///
    /// # Errors
    ///
    /// Only where the count of faults rose, and then no byte was taken.
    fn take(&mut self, buf: &mut [u8]) -> Result<usize, Failed>
        ensures bound { ReadsAtMost result buf.new }
        ensures bytes { ReadConsumes (left self.old) (left self.new) result buf.new }
        ensures cause { HasCause (faults self.old) (faults self.new) result };
}
