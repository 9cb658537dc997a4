ghost use Rattle.std.specs.Prelude.{◌≡◌, ℕ, ◌+◌, ◌-◌, ◌^◌, [], length, min, IfOk, IsOk};
ghost use Rattle.std.specs.declared.option.Option.TheVariants.{None};
ghost use Rattle.std.specs.Io.{WritesAtMost};
ghost use Rattle.std.specs.Io.KnownBytes.{WriteAppends};
ghost use Rattle.spec_outside.specs.Causes.{HasCause};

use crate::fault::Failed;
use crate::sink::Sink;
use std::marker::Model;

/// A sink that takes all bytes and keeps their number alone. It tells no bytes, and never fails. A
/// clause sees it as that number.
#[derive(Drop)]
pub struct CountSink {
    taken: u64,
}

impl Model for CountSink {
    ghost Value = { ℕ };

    ghost view = { λ s. s.taken };
}

impl CountSink {
    /// A sink that took nothing so far.
    pub fn new() -> CountSink
        ensures { result ≡ 0 }
    {
        CountSink { taken: 0 }
    }

    /// The number of bytes that it took, which stays at 2^64 - 1 once it has it.
    pub fn taken(&self) -> u64
        ensures { result ≡ self.now }
    {
        self.taken
    }
}

impl Sink for CountSink {
    ghost held = { λ _. None };

    ghost faults = { λ _. 0 };

    fn put(&mut self, piece: &[u8]) -> Result<usize, Failed>
        ensures bound { WritesAtMost result piece.now }
        ensures bytes { WriteAppends None None result piece.now }
        ensures progress { IfOk result (λ n. n ≡ 0 → piece.now ≡ []) }
        ensures cause { HasCause 0 0 result }
        ensures calm { IsOk result }
        // All of the piece.
        ensures takes { IfOk result (λ n. n ≡ length piece.now) }
        ensures counts { self.new ≡ min (self.old + length piece.now) (2 ^ 64 - 1) }
    {
        self.taken = self.taken.saturating_add(piece.len() as u64);
        Ok(piece.len())
    }
}
