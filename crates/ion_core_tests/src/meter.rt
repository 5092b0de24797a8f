// What no contract says: that the calls succeed, also right after a refusal or beside a device that fails, and what they print.
ghost use Rattle.std.specs.Prelude.{◌≡◌, ◌^◌, ◌<◌};

use crate::same::{holds, same};
use ion_meter::limits::Limits;
use ion_meter::meter::Meter;
use ion_test_support::refusing::Refusing;
use std::alloc::{Allocator, Global};
use std::process::Abort;
use std::test::Fail;

mod devices;
mod growing;
mod heap;
mod shapes;
mod std_devices;
mod windows;

/// Limits that short texts keep.
const LIMITS: Limits = Limits {
    depth: 10,
    scalar: 100,
    symbols: 100,
    value: 100,
    input: 100,
};

/// What is run over an allocator that refuses. A run answers how often it was refused.
#[derive(Clone, Copy)]
enum Script {
    Bytes,
    SplicedBytes,
    Stack,
    Table,
    TwoTables,
}

/// Runs a script over an allocator. How often it was refused.
fn run<A: Allocator + Copy>(rt: &impl Abort, alloc: Global, inner: A, script: Script) -> u64 {
    match script {
        Script::Bytes => growing::grow_bytes(rt, alloc, inner),
        Script::SplicedBytes => growing::grow_spliced_bytes(rt, alloc, inner),
        Script::Stack => growing::grow_stack(rt, alloc, inner),
        Script::Table => growing::grow_table(rt, alloc, inner),
        Script::TwoTables => growing::grow_two_tables(rt, alloc, inner),
    }
}

/// Runs a script over an allocator that refuses its first allocation, then over one that refuses its second, and so on until
/// a run meets no refusal. The answer is how many runs met a refusal.
fn refuse_each(rt: &impl Abort, alloc: Global, script: Script) -> u64 {
    for nth in 1..1_000 {
        let refusing = Refusing::new(alloc, nth);
        let refused = run(rt, alloc, &refusing, script);
        if !refusing.has_refused() {
            same(rt, refused, 0);
            return nth - 1;
        }
        same(rt, (nth, refused), (nth, 1));
    }
    panic!(rt; "each run met a refusal")
}

/// What a meter counts.
#[derive(Clone, Copy, Debug, PartialEq, Eq)]
pub(crate) struct Counted {
    pub(crate) held: u64,
    pub(crate) peak: u64,
    pub(crate) refused: u64,
}

/// What is counted. It is asserted to be little, which a call that grows requires.
pub(crate) fn counts_of<A: Allocator + Copy>(rt: &impl Abort, meter: &Meter<A>) -> Counted
    ensures held { meter.now.held < 2 ^ 32 }
    ensures refused { meter.now.refused < 2 ^ 32 }
    ensures same_refused { result.refused ≡ meter.now.refused }
{
    let counted = Counted {
        held: meter.held(),
        peak: meter.peak(),
        refused: meter.refused(),
    };
    holds(rt, counted.held < 1 << 32);
    holds(rt, counted.refused < 1 << 32);
    counted
}

/// Asserts that a refusal was counted since then, and nothing else.
pub(crate) fn is_refused<A: Allocator + Copy>(rt: &impl Abort, meter: &Meter<A>, before: Counted)
    requires { before.refused < 2 ^ 32 }
{
    let after = Counted {
        refused: before.refused + 1,
        ..before
    };
    assert_eq!(rt; counts_of(rt, meter), after);
}

/// So many bytes, no two neighbours alike.
fn many_bytes(alloc: Global, count: usize) -> Result<Vec<u8>, Fail> {
    let mut bytes = Vec::new(alloc);
    for at in 0..count {
        bytes.push((at % 251) as u8)?;
    }
    Ok(bytes)
}
