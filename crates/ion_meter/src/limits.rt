//! The limits of a run.
ghost use Rattle.std.specs.Prelude.{◌≡◌, ◌↔◌, IsTrue};
ghost use Rattle.ion_meter.specs.Limits.{AreChecked, default_limits};

/// How much a run may take. Calls that take limits want them checked.
#[derive(Clone, Copy, Debug, PartialEq, Eq)]
pub struct Limits {
    /// The greatest number of open containers: at most 65,535.
    pub depth: u32,
    /// The greatest length of one scalar, in bytes, and the greatest cost of one value's
    /// annotations: at most 2^30.
    pub scalar: u64,
    /// The greatest cost of one symbol table, in bytes: at most 2^30.
    pub symbols: u64,
    /// The greatest length of one encoded top-level value, in bytes: at most 2^30.
    pub value: u64,
    /// The greatest length of the input, in bytes: at most 2^48.
    pub input: u64,
}

impl Limits {
    /// Whether each limit is at most its maximum.
    pub fn check(&self) -> bool
        ensures { IsTrue result ↔ AreChecked self.now }
    {
        self.depth <= 65_535
            && self.scalar <= 1 << 30
            && self.symbols <= 1 << 30
            && self.value <= 1 << 30
            && self.input <= 1 << 48
    }
}

impl Default for Limits {
    ghost is_default = { λ limits. (limits ≡ default_limits) × AreChecked limits };

    /// The limits of a run where a caller gives none: 64 containers, 1 MiB for a scalar, for a value's
    /// annotations and for a symbol table, 16 MiB for a top-level value, 2^48 bytes of input.
    fn default() -> Limits {
        Limits {
            depth: 64,
            scalar: 1_048_576,
            symbols: 1_048_576,
            value: 16_777_216,
            input: 281_474_976_710_656,
        }
    }
}
