//! Copies for calls, part by part: so that only these are in memory, and the rest stays in registers.
ghost use Rattle.std.specs.Prelude.{◌≡◌};

use super::spot::{Bounds, Next, Spot, Start};
use ion_meter::profile::Rules;
use ion_value::plain_item::TextAt;

/// A copy of bounds.
#[inline(always)]
pub(super) fn bounds_for_call(bounds: Bounds) -> Bounds
    ensures { result ≡ bounds }
{
    Bounds {
        limits: Rules {
            depth: bounds.limits.depth,
            scalar: bounds.limits.scalar,
            floats: bounds.limits.floats,
        },
        end: bounds.end,
    }
}

/// A copy of a place in a lane.
#[inline(always)]
pub(super) fn spot_for_call<'a>(spot: Spot<'a>) -> Spot<'a>
    ensures { result ≡ spot.entry }
{
    Spot {
        rest: spot.rest,
        top: spot.top,
        values: spot.values,
        separator: spot.separator,
        kind: spot.kind,
    }
}

/// A copy of what a value begins with.
#[inline(always)]
pub(super) fn start_for_call<'a>(start: Start<'a>) -> Start<'a>
    ensures { result ≡ start.entry }
{
    Start {
        field: text_for_call(start.field),
        note: text_for_call(start.note),
        next: Next {
            told: start.next.told,
            rest: start.next.rest,
        },
    }
}

// A copy of a text, if there is one.
#[inline(always)]
fn text_for_call<'a>(text: Option<TextAt<'a>>) -> Option<TextAt<'a>>
    ensures { result ≡ text.entry }
{
    match text {
        Some(text) => Some(TextAt {
            text: text.text,
            code: text.code,
            place: text.place,
        }),
        None => None,
    }
}
