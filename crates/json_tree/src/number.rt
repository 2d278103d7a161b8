//! Numbers.

ghost use Rattle.std.specs.Prelude.{◌≡◌, false, option_map, true};
ghost use Rattle.serde_json.specs.Read.{float_of, number_from, number_of};
ghost use Rattle.serde_json.specs.View.{number_view};

use fast_float::Numeral;
use serde_json::Number;

/// The nearest float, where there is one that is finite.
fn float_of(negative: bool, numeral: &Numeral<'_>) -> Option<Number>
    ensures { option_map number_view result ≡ float_of negative numeral.now }
{
    Number::from_f64(numeral.to_float::<f64>(negative))
}

/// A number without a sign.
fn unsigned_of(numeral: &Numeral<'_>) -> Option<Number>
    ensures { option_map number_view result ≡ number_from false numeral.now }
{
    match numeral.to_u64() {
        Some(number) => Some(Number::from(number)),
        None => float_of(false, numeral),
    }
}

/// A number behind a minus: `-0` is a float.
fn negative_of(numeral: &Numeral<'_>) -> Option<Number>
    ensures { option_map number_view result ≡ number_from true numeral.now }
{
    match numeral.to_i64(true) {
        Some(number) => {
            if number < 0 {
                Some(Number::from(number))
            } else {
                float_of(true, numeral)
            }
        }
        None => float_of(true, numeral),
    }
}

/// The number that a text of JSON writes, unless it is too large.
#[tactic(auto, using(crate::proofs::Numbers::behind_minus, crate::proofs::Numbers::without_minus, crate::proofs::Numbers::of_nothing))]
pub(crate) fn number_of(text: &str) -> Option<Number>
    ensures { option_map number_view result ≡ number_of text.now }
{
    let bytes = text.as_bytes();
    match bytes.split_first() {
        Some((first, digits)) => {
            if *first == b'-' {
                negative_of(&Numeral::scan(digits))
            } else {
                unsigned_of(&Numeral::scan(bytes))
            }
        }
        None => unsigned_of(&Numeral::scan(bytes)),
    }
}
