ghost use Rattle.std.specs.Prelude.{◌≡◌, ℕ, ◌^◌, ◌<◌, ◌≤◌, length, vec_len, IfOk, IfSome, OnOk, OnErr, IsErrOf};
ghost use Rattle.std.specs.Io.KnownBytes.{Appends};
ghost use Rattle.spec_outside.specs.Causes.{Rose, AppendsFront, TakesAtMost, TakesPast, IsEmptied};

use crate::fault::{Failed, TakeFault, WriteFault};
use crate::sink::Sink;
use crate::source::Source;
use std::alloc::Global;

/// Reads a source to its end: all bytes that it had, of which there are at most `limit`. Each turn
/// takes at least one byte or ends.
///
/// # Errors
///
/// `Fault` only where the source's count of faults rose, before more than `limit` bytes were taken.
/// `TooLarge` only where the source had more than `limit` bytes, if it tells them, and no fault came
/// before more than `limit` bytes were taken; at most 4096 bytes past the limit are taken. `NoMemory`,
/// before more than `limit` bytes were taken. The bytes taken so far are lost then.
pub fn read_whole<S: Source>(alloc: Global, src: &mut S, limit: usize) -> Result<Vec<u8>, TakeFault>
    requires { limit ≤ 2 ^ 27 }
    // All bytes up to the end, within the limit.
    ensures all { IfOk result (λ bytes. IfSome (S.left src.old) (λ given. bytes.items ≡ given)) }
    ensures end { OnOk result (IsEmptied (S.left src.old) (S.left src.new)) }
    ensures within { IfOk result (λ bytes. vec_len bytes ≤ limit) }
    // More than the limit is taken only of a source that had more, and then no other answer comes.
    ensures too_large { IsErrOf result TakeFault.TooLarge → IfSome (S.left src.old) (λ given. limit < length given) }
    ensures taken { (IsErrOf result TakeFault.TooLarge → ⊥) → TakesAtMost (S.left src.old) (S.left src.new) limit }
    // A fault or too many bytes, whichever comes first in reading: no fault came before the take that
    // passed the limit, and that take was the last.
    ensures passed { IsErrOf result TakeFault.TooLarge → TakesPast (S.left src.old) (S.left src.new) limit 4096
        × (S.faults src.new ≡ S.faults src.old) }
    // The count of faults.
    ensures later { S.faults src.old ≤ S.faults src.new }
    ensures cause { IsErrOf result TakeFault.Fault → Rose (S.faults src.old) (S.faults src.new) }
    ensures kept { (IsErrOf result TakeFault.Fault → ⊥) → S.faults src.new ≡ S.faults src.old }
{
    let mut bytes: Vec<u8> = Vec::new(alloc);
    let mut chunk = [0u8; 4096];
    loop {
        let count = match src.take(&mut chunk) {
            Ok(count) => count,
            Err(Failed) => return Err(TakeFault::Fault),
        };
        if count == 0 {
            return Ok(bytes);
        }
        if count > limit - bytes.len() {
            return Err(TakeFault::TooLarge);
        }
        if bytes.extend_from_slice(&chunk[..count]).is_err() {
            return Err(TakeFault::NoMemory);
        }
    }
}

/// Puts a whole text to a sink. It takes no memory of its own.
///
/// # Errors
///
/// Only where the sink's count of faults rose. The sink holds its old bytes and a front of the
/// text then.
pub fn write_whole<O: Sink>(out: &mut O, text: &[u8]) -> Result<(), WriteFault>
    ensures ok { OnOk result (Appends (O.held out.old) (O.held out.new) text.now) }
    ensures front { AppendsFront (O.held out.old) (O.held out.new) text.now }
    ensures later { O.faults out.old ≤ O.faults out.new }
    ensures cause { OnErr result (Rose (O.faults out.old) (O.faults out.new)) }
    ensures kept { OnOk result (O.faults out.new ≡ O.faults out.old) }
{
    let mut at = 0;
    while at < text.len() {
        match out.put(&text[at..]) {
            Ok(count) => at += count,
            Err(Failed) => return Err(WriteFault),
        }
    }
    Ok(())
}
