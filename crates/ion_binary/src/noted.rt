//! What stands before a scalar in a container: the ids of its field and of its annotations.
ghost use Rattle.std.specs.Prelude.{◌≡◌, ◌≤◌, ◌^◌, ◌++◌, ℕ, List, length, IfSome};
ghost use Rattle.ion_meter.specs.Limits.{AreChecked};
ghost use Rattle.ion_binary.specs.Canonical.{wrapped};
ghost use Rattle.ion_binary.specs.Held.{counted_ids};
ghost use Rattle.ion_binary.specs.Opening.{both_octets, name_octets, noted_by};

use crate::opening::{LONGEST, wrapper};
use crate::scalar::Octets;
use arrayvec::ArrayVec;
use ion_meter::limits::Limits;
use ion_value::var::var_uint_write;

/// The most octets of a field, of what stands before a value in a wrapper, and of a header with a
/// short body.
pub(crate) const FRONT: usize = 88;

/// The id of a field, 0 where there is none, and the octets of the ids of annotations, before a scalar,
/// and its first octets, where the scalar is within the limit.
#[inline]
pub(crate) fn noted_scalar(
    limits: &Limits,
    name: u32,
    notes: &[u8],
    scalar: &Octets<'_>,
) -> Option<ArrayVec<u8, FRONT>>
    requires checked { AreChecked limits.now }
    requires few { length notes.now ≤ 20 }
    ensures octets { IfSome result (λ front. front.items ++ scalar.now.rest.now
        ≡ noted_by name notes.now (both_octets scalar.now)) }
    ensures within { IfSome result (λ _. length scalar.now.rest.now ≤ limits.now.value) }
{
    if scalar.front.len() > LONGEST || scalar.len() > limits.value {
        return None;
    }
    let mut front = id_octets(name);
    put_notes(&mut front, notes, scalar.len());
    front.try_extend_from_slice(scalar.front).unwrap();
    Some(front)
}

/// The octets of an id, and none where it is 0: then there is no id.
#[inline]
pub(crate) fn id_octets(id: u32) -> ArrayVec<u8, FRONT>
    ensures octets { result.items ≡ name_octets id }
    ensures few { length result.items ≤ 10 }
{
    let mut front = ArrayVec::new();
    if id == 0 {
        return front;
    }
    let octets = var_uint_write(u64::from(id));
    front.try_extend_from_slice(octets.as_slice()).unwrap();
    front
}

// Puts what stands before a value of so many octets in the wrapper of annotations, whose ids these
// octets are, and nothing where there are none.
#[inline]
fn put_notes(front: &mut ArrayVec<u8, FRONT>, notes: &[u8], size: u64)
    requires few { length front.old.items ≤ 10 }
    requires ids { length notes.now ≤ 20 }
    requires short { size ≤ 2 ^ 32 }
    ensures octets { (x : List ℕ) → length x ≡ size → front.new.items ++ x
        ≡ front.old.items ++ wrapped (counted_ids notes.now) x }
    ensures few { length front.new.items ≤ 50 }
{
    if notes.is_empty() {
        return;
    }
    let before = wrapper(notes.len() as u64, size);
    front.try_extend_from_slice(before.as_slice()).unwrap();
    front.try_extend_from_slice(notes).unwrap();
}
