//! What was put into a buffer, for proofs alone: it takes no memory, and its calls do nothing.
ghost use Rattle.std.specs.Prelude.{◌≡◌, ℕ, List, [], ◌++◌};
ghost use Rattle.std.specs.Borrow.{ftrue};

use std::marker::Model;

/// All bytes that were put, those too that a buffer does not keep. A clause reads them as `bytes`.
///
/// Nothing in memory ties them down, so that their proofs, by hand, are to be read: each names the list of
/// its clause. A run puts through a type parameter, of which it knows `Output` alone.
#[derive(Drop)]
pub(crate) struct Written {
    pub ghost bytes: { List ℕ },
}

impl Model for Written {
    ghost also_owns = { λ _. ftrue };
}

impl Written {
    /// No bytes.
    pub(crate) fn new() -> Written
        ensures { result.bytes ≡ [] }
    {
        Written {}
    }

    /// Those, and these after them.
    pub(crate) fn then(_before: &Written, _more: &[u8]) -> Written
        ensures { result.bytes ≡ _before.now.bytes ++ _more.now }
    {
        Written {}
    }
}
