//! Floats read from text.
ghost use Rattle.std.specs.Prelude.{◌≡◌, Some, None, Err};
ghost use Rattle.std.specs.Float.{binary64, Float};
ghost use Rattle.std.specs.Float.Parse.{parse_float};
ghost use Rattle.ion_value.specs.Float.{values_of};
ghost use Rattle.ion_value.specs.FloatText.{finite};

use ion_meter::fault::Reason;
use ion_value::float::Float64;

/// The float nearest to the number that a text spells which has the shape of a float and no
/// underscore, or `Range` where that is infinite. Other texts that spell no number are a
/// `BadToken`.
#[inline]
pub fn nearest_float(text: &[u8]) -> Result<Float64, Reason>
    ensures read { (x : Float) → parse_float binary64 text.now ≡ Some x
        → values_of result ≡ finite x }
    ensures other { parse_float binary64 text.now ≡ None → result ≡ Err Reason.BadToken }
{
    match fast_float::parse::<f64, _>(text) {
        Ok(value) if value.is_finite() => Ok(Float64::from_number(value)),
        Ok(_) => Err(Reason::Range),
        Err(_) => Err(Reason::BadToken),
    }
}
