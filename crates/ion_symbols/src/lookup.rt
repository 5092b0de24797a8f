//! The search for a text among the texts of an output, by its hash.
ghost use Rattle.std.specs.Prelude.{◌≡◌, ◌+◌, ◌≤◌, length, true, false};
ghost use Rattle.ion_symbols.specs.Hash.{hash_of};
ghost use Rattle.ion_symbols.specs.Output.{binary_digits, position};
ghost use Rattle.ion_symbols.specs.OutTexts.{AreKept, Seeks, texts_of};

use crate::hash::{bucket, digits, hash};
use crate::out_texts::probe::Probe;
use crate::out_texts::{Sought, Spot};
use crate::same::SHORT;
use std::alloc::Allocator;

/// The most texts that are passed on the way to one: where it would take more, all are put in
/// order.
const MOST_PASSED: u32 = 32;

/// The number of a text, if it is there. It is compared with the first of its bucket at once.
#[inline]
pub(crate) fn find<A: Allocator + Copy>(probe: &mut Probe<'_, A>, text: &[u8]) -> Option<u32>
    requires kept { AreKept probe.old.kept.now }
    requires none { probe.old.probes ≡ 0 }
    ensures finds { result ≡ position (texts_of probe.old.kept.now) text.now }
    ensures probes { probe.new.probes
        ≤ 32 + binary_digits (length (texts_of probe.old.kept.now)) }
{
    let hash = hash(text);
    let front = probe.front(bucket(hash));
    if front == 0 || text.len() > SHORT {
        return find_onward(probe, text, hash);
    }
    if probe.is_same(front - 1, text) {
        return Some(front - 1);
    }
    find_onward(probe, text, hash)
}

// The number of a text, if it is there, by the links or by halving.
#[inline(never)]
fn find_onward<A: Allocator + Copy>(probe: &mut Probe<'_, A>, text: &[u8], hash: u64) -> Option<u32>
    requires kept { AreKept probe.old.kept.now }
    requires hash { hash ≡ hash_of text.now }
    requires few { probe.old.probes ≤ 1 }
    ensures finds { result ≡ position (texts_of probe.old.kept.now) text.now }
    ensures linked { probe.old.kept.now.is_ordered ≡ false
        → probe.new.probes ≤ probe.old.probes + 32 }
    ensures ordered { probe.old.kept.now.is_ordered ≡ true → probe.new.probes
        ≤ probe.old.probes + binary_digits (length (texts_of probe.old.kept.now)) }
{
    if probe.is_ordered() {
        return match probe.halve(text) {
            Ok(number) => Some(number),
            Err(_) => None,
        };
    }
    match seek(probe, text, hash) {
        Sought::At(number) => Some(number),
        Sought::Free(_) | Sought::TooFar => None,
    }
}

/// Looks for a text by the links.
pub(crate) fn seek<A: Allocator + Copy>(probe: &mut Probe<'_, A>, text: &[u8], hash: u64) -> Sought
    requires kept { AreKept probe.old.kept.now }
    requires linked { probe.old.kept.now.is_ordered ≡ false }
    requires hash { hash ≡ hash_of text.now }
    requires few { probe.old.probes ≤ 1 }
    ensures seeks { Seeks probe.old.kept.now text.now result }
    ensures probes { probe.new.probes ≤ probe.old.probes + 32 }
{
    let mut at = probe.front(bucket(hash));
    if at == 0 {
        return Sought::Free(Spot::First);
    }
    let mut digits = digits(hash);
    let mut left = MOST_PASSED;
    while left > 0 {
        let number = at - 1;
        if probe.is_same(number, text) {
            return Sought::At(number);
        }
        let next = probe.link(number, digits);
        if next == 0 {
            if left == 1 {
                return Sought::TooFar;
            }
            return Sought::Free(Spot::After(number, digits));
        }
        at = next;
        digits /= 2;
        left -= 1;
    }
    Sought::TooFar
}
