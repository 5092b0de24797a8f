//! The devices that bytes come from and go to.
ghost use Rattle.std.specs.Prelude.{◌≡◌, ℕ, ◌+◌, ◌-◌, ◌^◌, ◌<◌, ◌≤◌, ◌↔◌, List, [], ◌++◌, length, take, ◌⊎◌, Ok, OnOk, OnErr, IfOk, MatchResult};

use thiserror::Error;

/// A device failed. There is no repeat after it.
#[derive(Clone, Copy, Debug, PartialEq, Eq, Error)]
#[error("the device failed")]
pub struct Broken;

/// A device that bytes come from.
///
/// Contracts know four things of it: `rest`, the bytes that are left of it; `failure_count`;
/// `observable`, whether its bytes are observable, which no call changes; and `yields`. What is said
/// of `rest` holds where they are; all else holds always.
pub trait Input {
    ghost rest: { Self → List ℕ };

    ghost failure_count: { Self → ℕ };

    ghost observable: { Self → Type 0 };

    /// What a read that gives these bytes makes of the device: whatever devices of this type know
    /// beyond their bytes.
    ghost yields: { Self → List ℕ → Self → Type 0 };

    /// Reads bytes into the front of the slice and answers how many; none, into a slice that is not
    /// empty, only at the end. After `Err` the rest is as it was and the count is one more.
    fn read(&mut self, into: &mut [u8]) -> Result<usize, Broken>
        requires { failure_count self.old < 2 ^ 64 - 1 }
        ensures within { IfOk result (λ n. n ≤ length into.new) }
        ensures count { MatchResult result
            (λ _. failure_count self.new ≡ failure_count self.old)
            (λ _. failure_count self.new ≡ failure_count self.old + 1) }
        ensures observable { observable self.new ↔ observable self.old }
        ensures bytes { observable self.old → MatchResult result
            (λ n. rest self.old ≡ take n into.new ++ rest self.new)
            (λ _. rest self.new ≡ rest self.old) }
        ensures end { observable self.old → IfOk result
            (λ n. n ≡ 0 → 0 < length into.new → rest self.old ≡ []) }
        ensures yields { MatchResult result
            (λ n. yields self.old (take n into.new) self.new)
            (λ _. yields self.old [] self.new) };

    /// How often the device has failed.
    fn failures(&self) -> u64
        ensures { result ≡ failure_count self.now };
}

/// A device that bytes go to.
///
/// Contracts know three things of it: `written`, the bytes that it has taken; `failure_count`; and
/// `observable`, whether its bytes are observable, which no call changes. What is said of `written`
/// holds where they are; that a write takes no more than it is given, and the count, hold always.
pub trait Output {
    ghost written: { Self → List ℕ };

    ghost failure_count: { Self → ℕ };

    ghost observable: { Self → Type 0 };

    /// Takes a prefix of the bytes and answers how many. `Err`, and none of bytes that are not
    /// empty, leave what was written and add one to the count.
    fn write(&mut self, bytes: &[u8]) -> Result<usize, Broken>
        requires { failure_count self.old < 2 ^ 64 - 1 }
        ensures within { IfOk result (λ n. n ≤ length bytes.now) }
        ensures moved { IfOk result (λ n. (0 < n) ⊎ (length bytes.now ≡ 0)
            → failure_count self.new ≡ failure_count self.old) }
        ensures stuck { IfOk result (λ n. n ≡ 0 → 0 < length bytes.now
            → failure_count self.new ≡ failure_count self.old + 1) }
        ensures failed { OnErr result (failure_count self.new ≡ failure_count self.old + 1) }
        ensures observable { observable self.new ↔ observable self.old }
        ensures bytes { observable self.old → MatchResult result
            (λ n. written self.new ≡ written self.old ++ take n bytes.now)
            (λ _. written self.new ≡ written self.old) };

    /// How often the device has failed.
    fn failures(&self) -> u64
        ensures { result ≡ failure_count self.now };
}

/// Writes all of the bytes, without a window. A write that takes nothing is a failure, and none comes
/// after a failure.
pub fn write_all<O: Output>(device: &mut O, bytes: &[u8]) -> Result<(), Broken>
    requires { O.failure_count device.old < 2 ^ 64 - 1 }
    ensures observable { O.observable device.new ↔ O.observable device.old }
    ensures count { MatchResult result
        (λ _. O.failure_count device.new ≡ O.failure_count device.old)
        (λ _. O.failure_count device.new ≡ O.failure_count device.old + 1) }
    ensures all { O.observable device.old → OnOk result
        (O.written device.new ≡ O.written device.old ++ bytes.now) }
    ensures prefix { O.observable device.old → (n : ℕ)
        × (O.written device.new ≡ O.written device.old ++ take n bytes.now) }
    ensures nothing { bytes.now ≡ [] → (result ≡ Ok tt) × (device.new ≡ device.old) }
{
    let mut at = 0;
    while at < bytes.len() {
        let n = device.write(&bytes[at..])?;
        if n == 0 {
            return Err(Broken);
        }
        at += n;
    }
    Ok(())
}
