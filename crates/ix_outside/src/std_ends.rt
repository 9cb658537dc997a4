ghost use Rattle.std.specs.Prelude.{◌≡◌, ℕ, ◌-◌, ◌^◌, ◌<◌, ◌≤◌, List, [], length, take, Ok, IfOk, OnErr, IsErr};
ghost use Rattle.std.specs.Io.{ReadsAtMost, WritesAtMost};
ghost use Rattle.std.specs.Io.KnownBytes.{Appends, ReadConsumes, WriteAppends};
ghost use Rattle.spec_outside.specs.Causes.{HasCause};
ghost use Rattle.spec_outside.specs.Ends.{Counted, next_count};

use crate::fault::{Failed, counted_fault};
use crate::sink::Sink;
use crate::source::Source;
use std::io;
use std::io::{Read, Write};
use std::marker::Model;

/// A source's answer to what its reader answered: a number of bytes is handed on, zero too, and an
/// error is a fault that is counted once.
fn source_answer(answer: io::Result<usize>, faults: &mut u64) -> Result<usize, Failed>
    ensures ok { IfOk answer (λ n. (result ≡ Ok n) × (faults.new ≡ faults.old)) }
    ensures err { OnErr answer (IsErr result × (faults.new ≡ next_count faults.old)) }
{
    match answer {
        Ok(count) => Ok(count),
        Err(_) => Err(counted_fault(faults)),
    }
}

/// A sink's answer to what its writer answered to a piece that is not empty: a number of bytes
/// above zero is handed on, and zero or an error is a fault that is counted once.
fn sink_answer(answer: io::Result<usize>, faults: &mut u64) -> Result<usize, Failed>
    ensures ok { IfOk answer (λ n. 0 < n → (result ≡ Ok n) × (faults.new ≡ faults.old)) }
    ensures none { IfOk answer (λ n. n ≡ 0 → IsErr result × (faults.new ≡ next_count faults.old)) }
    ensures err { OnErr answer (IsErr result × (faults.new ≡ next_count faults.old)) }
{
    match answer {
        Ok(count) if count > 0 => Ok(count),
        _ => Err(counted_fault(faults)),
    }
}

/// A reader of std as a source. It tells the bytes that its reader tells. Its count rises by one at
/// each error of the reader, and stays at 2^64 - 1 once it has it. A read of zero bytes is handed on
/// as the end of input. What bytes the outside gives is not claimed.
#[derive(Drop)]
pub struct StdSource<R> {
    inner: R,
    faults: u64,
}

impl<R> Model for StdSource<R> {
    ghost Value = { Counted R };

    ghost view = { λ s. record { inner = s.inner; faults = s.faults } };

    ghost invariant = { λ s. s.faults ≤ 2 ^ 64 - 1 };
}

impl<R: Read> StdSource<R> {
    /// The source of a reader. Nothing failed so far.
    pub fn new(inner: R) -> StdSource<R>
        ensures { result ≡ record { inner = inner; faults = 0 } }
    {
        StdSource { inner, faults: 0 }
    }
}

impl<R: Read> Source for StdSource<R> {
    ghost left = { λ s. R.remaining s.inner };

    ghost faults = { λ s. s.faults };

    fn take(&mut self, buf: &mut [u8]) -> Result<usize, Failed>
        ensures bound { ReadsAtMost result buf.new }
        ensures bytes { ReadConsumes (R.remaining self.old.inner) (R.remaining self.new.inner) result buf.new }
        ensures cause { HasCause self.old.faults self.new.faults result }
        ensures rises { OnErr result (self.new.faults ≡ next_count self.old.faults) }
    {
        source_answer(self.inner.read(buf), &mut self.faults)
    }
}

/// A writer of std of which each piece asks one write. Every writer is one.
///
/// What a write takes of a piece is the writer's own affair, and std's contract of `write` bounds it
/// alone. So the relation `takes` has no more to say of a writer, and code that is generic over
/// writers learns it by one way alone: a write of that very piece.
pub trait OneWrite: Write {
    /// One write of this piece may take so many bytes of it, and leave the writer so.
    ghost takes: { Self → List ℕ → ℕ → Self → Type 0 };

    /// One write of the piece.
    ///
    /// # Errors
    ///
    /// Those of the writer.
    fn write_once(&mut self, piece: &[u8]) -> io::Result<usize>
        ensures bound { WritesAtMost result piece.now }
        ensures bytes { WriteAppends (Self.contents self.old) (Self.contents self.new) result piece.now }
        ensures takes { IfOk result (λ n. takes self.old piece.now n self.new) };
}

impl<W: Write> OneWrite for W {
    ghost takes = { λ old piece n new. (n ≤ length piece) × Appends (W.contents old) (W.contents new) (take n piece) };

    fn write_once(&mut self, piece: &[u8]) -> io::Result<usize> {
        self.write(piece)
    }
}

/// A writer of std as a sink. It tells the bytes that its writer tells. Its count rises by one at
/// each error of the writer and where the writer takes nothing of a piece that is not empty, and
/// stays at 2^64 - 1 once it has it. What becomes of the bytes outside is not claimed.
#[derive(Drop)]
pub struct StdSink<W> {
    inner: W,
    faults: u64,
}

impl<W> Model for StdSink<W> {
    ghost Value = { Counted W };

    ghost view = { λ s. record { inner = s.inner; faults = s.faults } };

    ghost invariant = { λ s. s.faults ≤ 2 ^ 64 - 1 };
}

impl<W: OneWrite> StdSink<W> {
    /// The sink of a writer. Nothing failed so far.
    pub fn new(inner: W) -> StdSink<W>
        ensures { result ≡ record { inner = inner; faults = 0 } }
    {
        StdSink { inner, faults: 0 }
    }
}

impl<W: OneWrite> Sink for StdSink<W> {
    ghost held = { λ s. W.contents s.inner };

    ghost faults = { λ s. s.faults };

    fn put(&mut self, piece: &[u8]) -> Result<usize, Failed>
        ensures bound { WritesAtMost result piece.now }
        ensures bytes { WriteAppends (W.contents self.old.inner) (W.contents self.new.inner) result piece.now }
        ensures progress { IfOk result (λ n. n ≡ 0 → piece.now ≡ []) }
        ensures cause { HasCause self.old.faults self.new.faults result }
        ensures rises { OnErr result (self.new.faults ≡ next_count self.old.faults) }
        // As much as one write of the whole piece takes.
        ensures takes { IfOk result (λ n. 0 < n → W.takes self.old.inner piece.now n self.new.inner) }
    {
        let StdSink { inner, faults } = self;
        if piece.is_empty() {
            return Ok(0);
        }
        sink_answer(inner.write_once(piece), faults)
    }
}
