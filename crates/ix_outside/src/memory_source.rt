ghost use Rattle.std.specs.Prelude.{◌≡◌, ℕ, ◌+◌, ◌-◌, ◌≤◌, List, length, take, drop, min, IfOk, IsOk};
ghost use Rattle.std.specs.declared.option.Option.TheVariants.{Some};
ghost use Rattle.std.specs.Io.{ReadsAtMost};
ghost use Rattle.std.specs.Io.KnownBytes.{ReadConsumes};
ghost use Rattle.spec_outside.specs.Causes.{HasCause};

use crate::fault::Failed;
use crate::source::Source;
use std::marker::Model;

/// Fills a front part of the buffer from a place in the bytes, with as many as there are, and at
/// most `most`.
pub(crate) fn fill_front(bytes: &[u8], at: usize, most: usize, buf: &mut [u8]) -> usize
    requires { at ≤ length bytes.now }
    ensures count { result ≡ min (min (length buf.old) most) (length bytes.now - at) }
    ensures filled { take result buf.new ≡ take result (drop at bytes.now) }
{
    let count = buf.len().min(most).min(bytes.len() - at);
    buf[..count].copy_from_slice(&bytes[at..at + count]);
    count
}

/// A source over bytes in memory. It tells the bytes that are left, and never fails. A clause
/// sees it as those bytes.
#[derive(Drop)]
pub struct MemSource {
    bytes: Vec<u8>,
    at: usize,
}

impl Model for MemSource {
    ghost Value = { List ℕ };

    ghost view = { λ s. drop s.at s.bytes.items };

    ghost invariant = { λ s. s.at ≤ length s.bytes.items };
}

impl MemSource {
    /// A source that has these bytes to give.
    pub fn new(bytes: Vec<u8>) -> MemSource
        ensures { result ≡ bytes.items }
    {
        MemSource { bytes, at: 0 }
    }
}

impl Source for MemSource {
    ghost left = { λ s. Some s };

    ghost faults = { λ _. 0 };

    fn take(&mut self, buf: &mut [u8]) -> Result<usize, Failed>
        ensures bound { ReadsAtMost result buf.new }
        ensures bytes { ReadConsumes (Some self.old) (Some self.new) result buf.new }
        ensures cause { HasCause 0 0 result }
        ensures calm { IsOk result }
        // As many as the buffer takes and the source has.
        ensures gives { IfOk result (λ n. n ≡ min (length buf.old) (length self.old)) }
    {
        let count = fill_front(&self.bytes, self.at, usize::MAX, buf);
        self.at += count;
        Ok(count)
    }
}
