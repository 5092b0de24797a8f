//! What a slice shows of a token.
ghost use Rattle.std.specs.Prelude.{List, ℕ};

use ion_meter::fault::Reason;

/// What the bytes of a slice show of what begins at the front of them, whatever bytes follow.
#[derive(Clone, Copy)]
pub(crate) enum Scanned<T> {
    /// All of it: what it means, and how many bytes it has.
    Whole(T, usize),
    /// A fault in it.
    Fault(Reason),
    /// Not all of it.
    Cut,
}
