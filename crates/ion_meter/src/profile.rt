//! Which values of Ion 1.0 are read, and the rules by which a reader goes.
ghost use Rattle.std.specs.Prelude.{◌≡◌};
ghost use Rattle.ion_meter.specs.Rules.{floats, rules, strict};

use crate::limits::Limits;

/// Which values of Ion 1.0 are read. Those that are not are refused by name.
#[derive(Clone, Copy, Debug, PartialEq, Eq)]
pub struct Profile {
    /// Whether floats other than `null.float` are read. Where not, they are refused as `Float`.
    pub floats: bool,
}

impl Profile {
    /// The profile of a run where a caller gives none: no floats other than `null.float`.
    pub fn strict() -> Profile
        ensures { result ≡ strict }
    {
        Profile { floats: false }
    }

    /// The profile under which floats of Ion 1.0 are read and written.
    pub fn floats() -> Profile
        ensures { result ≡ floats }
    {
        Profile { floats: true }
    }
}

/// The rules by which a reader goes: the limits that it knows, and its profile.
#[derive(Clone, Copy, Debug, PartialEq, Eq)]
pub struct Rules {
    /// The greatest number of open containers.
    pub depth: u32,
    /// The greatest length of one scalar, in bytes, and the greatest cost of one value's
    /// annotations.
    pub scalar: u64,
    /// Whether floats other than `null.float` are read.
    pub floats: bool,
}

impl Rules {
    /// The rules of a reader with these limits and this profile.
    pub fn new(limits: Limits, profile: Profile) -> Rules
        ensures { result ≡ rules limits profile }
    {
        Rules {
            depth: limits.depth,
            scalar: limits.scalar,
            floats: profile.floats,
        }
    }
}
