ghost use Rattle.std.specs.Prelude.{◌≡◌, ℕ, List, [], IfOk};
ghost use Rattle.std.specs.declared.option.Option.{Option};
ghost use Rattle.std.specs.Io.{WritesAtMost};
ghost use Rattle.std.specs.Io.KnownBytes.{WriteAppends};
ghost use Rattle.spec_outside.specs.Causes.{HasCause};

use crate::fault::Failed;

/// What takes bytes. It means the bytes that it holds, where it tells them, and a count of faults
/// that never falls and stays at 2^64 - 1 once it has it.
pub trait Sink {
    /// The bytes that it holds, where it tells them.
    ghost held: { Self → Option (List ℕ) };

    /// How often it failed.
    ghost faults: { Self → ℕ };

    /// Appends a front part of the piece, and answers its length, which is 0 for an empty piece
    /// alone.
    ///
    /// # Errors
    ///
    /// Only where the count of faults rose, and then nothing was appended.
    fn put(&mut self, piece: &[u8]) -> Result<usize, Failed>
        ensures bound { WritesAtMost result piece.now }
        ensures bytes { WriteAppends (held self.old) (held self.new) result piece.now }
        // Nothing of a piece that is not empty is a fault.
        ensures progress { IfOk result (λ n. n ≡ 0 → piece.now ≡ []) }
        ensures cause { HasCause (faults self.old) (faults self.new) result };
}
