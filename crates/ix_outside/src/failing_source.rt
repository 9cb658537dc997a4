ghost use Rattle.std.specs.Prelude.{◌≡◌, ℕ, ◌<◌, ◌≤◌, ◌↔◌, length, drop, min, Contains, IfOk, OnErr, IsErr};
ghost use Rattle.std.specs.declared.option.Option.TheVariants.{Some};
ghost use Rattle.std.specs.Io.{ReadsAtMost};
ghost use Rattle.std.specs.Io.KnownBytes.{ReadConsumes};
ghost use Rattle.spec_outside.specs.Causes.{HasCause};
ghost use Rattle.spec_outside.specs.Ends.{FailingSource, next_count};

use crate::fault::{Failed, counted_fault};
use crate::memory_source::fill_front;
use crate::source::Source;
use std::marker::Model;

/// A source over bytes in memory that gives a few bytes at a time, and fails at the calls that it
/// was told. It tells the bytes that are left. Calls are numbered from 1, and those from number
/// 2^64 - 1 on all have that number. For tests.
#[derive(Drop)]
pub struct FailSource {
    bytes: Vec<u8>,
    at: usize,
    most: usize,
    fail_at: Vec<u64>,
    calls: u64,
    faults: u64,
}

impl Model for FailSource {
    ghost Value = { FailingSource };

    ghost view = { λ s. record {
      left = drop s.at s.bytes.items;
      most = s.most;
      fail_at = s.fail_at.items;
      calls = s.calls;
      faults = s.faults;
    } };

    ghost invariant = { λ s. (s.at ≤ length s.bytes.items) × (0 < s.most) };
}

impl FailSource {
    /// A source that has these bytes to give, at most `most` in each call, and fails at each call
    /// whose number stands in `fail_at`.
    pub fn new(bytes: Vec<u8>, most: usize, fail_at: Vec<u64>) -> FailSource
        requires { 0 < most }
        ensures { result ≡ record { left = bytes.items; most = most; fail_at = fail_at.items; calls = 0; faults = 0 } }
    {
        FailSource {
            bytes,
            at: 0,
            most,
            fail_at,
            calls: 0,
            faults: 0,
        }
    }
}

impl Source for FailSource {
    ghost left = { λ s. Some s.left };

    ghost faults = { λ s. s.faults };

    fn take(&mut self, buf: &mut [u8]) -> Result<usize, Failed>
        ensures bound { ReadsAtMost result buf.new }
        ensures bytes { ReadConsumes (Some self.old.left) (Some self.new.left) result buf.new }
        ensures cause { HasCause self.old.faults self.new.faults result }
        // It fails exactly at the calls that it was told.
        ensures fails { IsErr result ↔ Contains self.old.fail_at (next_count self.old.calls) }
        ensures rises { OnErr result (self.new.faults ≡ next_count self.old.faults) }
        ensures calls { self.new.calls ≡ next_count self.old.calls }
        ensures told { (self.new.most ≡ self.old.most) × (self.new.fail_at ≡ self.old.fail_at) }
        // As many as the buffer takes, the source has and a call may give.
        ensures gives { IfOk result (λ n. n ≡ min (min (length buf.old) self.old.most) (length self.old.left)) }
    {
        self.calls = self.calls.saturating_add(1);
        if self.fail_at.contains(&self.calls) {
            return Err(counted_fault(&mut self.faults));
        }
        let count = fill_front(&self.bytes, self.at, self.most, buf);
        self.at += count;
        Ok(count)
    }
}
