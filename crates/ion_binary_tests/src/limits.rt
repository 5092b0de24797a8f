//! The limits of a run where nothing else is said.

use ion_meter::limits::Limits;

/// The limits of a run where nothing else is said.
pub const LIMITS: Limits = Limits {
    depth: 64,
    scalar: 1_048_576,
    symbols: 1_048_576,
    value: 16_777_216,
    input: 281_474_976_710_656,
};
