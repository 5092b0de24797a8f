// An allocator for tests, which refuses one allocation, or one and all after it.
use std::alloc::{AllocError, Allocator};
use std::cell::Cell;

/// Which allocations are refused.
#[derive(Clone, Copy)]
struct Refusals {
    /// How many calls there are to the next one that is refused, with it; none is refused where this is 0.
    left: u64,
    /// Whether all after that one are refused too.
    onward: bool,
    /// Whether one was refused.
    is_met: bool,
}

/// An allocator that refuses exactly its nth allocation, or that and all after it, and passes every
/// other call on.
pub struct Refusing<B: Allocator> {
    inner: B,
    refusals: Cell<Refusals>,
}

impl<B: Allocator> Refusing<B> {
    /// Refuses the nth allocation, counted from 1 on, and none where this is 0.
    pub fn new(inner: B, nth: u64) -> Refusing<B> {
        Refusing {
            inner,
            refusals: Cell::new(Refusals {
                left: nth,
                onward: false,
                is_met: false,
            }),
        }
    }

    /// Refuses the nth allocation from now on, or that and all after it.
    pub fn refuse(&self, nth: u64, onward: bool) {
        self.refusals.set(Refusals {
            left: nth,
            onward,
            is_met: false,
        });
    }

    /// Whether the nth allocation was met.
    pub fn has_refused(&self) -> bool {
        self.refusals.get().is_met
    }
}

impl<B: Allocator> Drop for Refusing<B> {
    fn drop(self) {
        let Self {
            inner: _,
            refusals: _,
        } = self;
    }
}

/// Counts an allocation, and says whether it is one to refuse.
fn refuses(refusals: &Cell<Refusals>) -> bool {
    let before = refusals.get();
    let is_refused = before.left == 1 || (before.onward && before.is_met);
    refusals.set(Refusals {
        left: before.left.saturating_sub(1),
        onward: before.onward,
        is_met: before.is_met || is_refused,
    });
    is_refused
}

unsafe impl<B: Allocator> Allocator for Refusing<B> {
    ghost dealloc_token = { λ heap ty ptr. B.dealloc_token heap.inner ty ptr };

    fn allocate(&self, size: usize, align: usize) -> Result<*mut u8, AllocError> {
        if refuses(&self.refusals) {
            return Err(AllocError);
        }
        self.inner.allocate(size, align)
    }

    unsafe fn deallocate(&self, ptr: *mut u8, size: usize, align: usize) {
        self.inner.deallocate(ptr, size, align);
    }
}
