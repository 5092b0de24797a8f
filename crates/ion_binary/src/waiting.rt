//! Whether the octets of a window show the next item, so that its reader need not read more.
ghost use Rattle.std.specs.Prelude.{◌≤◌, length, IfSome};

use crate::scan::{Found, Region, Scanned, TOP, Within, scan_part, scan_var};
use ion_meter::profile::Rules;
use ion_value::ion_type::Kind;

// No region is looked at here: what passes its region is refused without an octet more.
const ANYWHERE: Region = Region {
    within: Within::Top,
    end: TOP,
    depth: 0,
};

/// Whether these octets show the next member of a container of this kind, or the next value at top
/// level, so that it is taken without an octet more.
///
/// False may be wrong. What is passed over before an item is read in the same call, and has to be
/// there too.
pub(crate) fn shows_item(inside: Option<Kind>, octets: &[u8], limits: Rules) -> bool {
    let mut rest = octets;
    'passed: loop {
        let Some(part) = after_field(inside, rest) else {
            return false;
        };
        let (found, after) = match scan_part(part, 0, ANYWHERE, limits) {
            Scanned::Cut => return false,
            Scanned::Fault(_) => return true,
            Scanned::Whole(found, count) => (found, &part[count..]),
        };
        let (passed, count) = match found {
            Found::Null(_) | Found::Bool(_) | Found::Begin(..) => return true,
            Found::Body(_, count) => (false, count),
            Found::Wrapper(count) => (may_declare(after), count),
            Found::NopPad(count) => (true, count),
            Found::Marker => (true, 3),
        };
        if (after.len() as u64) < count {
            return false;
        }
        if !passed {
            return true;
        }
        rest = &after[count as usize..];
    }
}

// The octets after the id of a field, where one must stand here.
fn after_field(inside: Option<Kind>, octets: &[u8]) -> Option<&[u8]>
    ensures { IfSome result (λ rest. length rest.now ≤ length octets.now) }
{
    match inside {
        Some(Kind::Struct) => match scan_var(octets, 0, TOP) {
            Scanned::Whole(_, count) => Some(&octets[count..]),
            Scanned::Fault(_) | Scanned::Cut => None,
        },
        _ => Some(octets),
    }
}

// Whether the first annotation in a wrapper, after the length of its annotations, may be that of a declaration:
// its id is 3, which is the octet 83, or zeros before it.
fn may_declare(octets: &[u8]) -> bool {
    match scan_var(octets, 0, TOP) {
        Scanned::Whole(_, count) => matches!(&octets[count..], [0x83 | 0, ..]),
        Scanned::Fault(_) | Scanned::Cut => false,
    }
}
