//! Numbers in words.

ghost use Rattle.std.specs.Prelude.{◌≡◌, ◌≤◌, ◌^◌, ◌<◌, nat_le, IfSome};
ghost use Rattle.std.specs.Char.{is_ascii_digit};
ghost use Rattle.std.specs.List.{list_all};
ghost use Rattle.command_words.specs.Numbers.{is_decimal, decimal, number_in};
ghost use Rattle.dura_value.specs.Optional.{where_it};

fn are_digits(text: &[u8]) -> bool
    ensures { result ≡ list_all is_ascii_digit text.now }
{
    text.iter().all(|byte| byte.is_ascii_digit())
}

/// Whether it is 0 alone, or digits that don't begin with 0.
fn is_decimal(text: &[u8]) -> bool
    ensures { result ≡ is_decimal text.now }
{
    match text {
        [] => false,
        [first, rest @ ..] => are_digits(text) && (rest.is_empty() || *first != b'0'),
    }
}

/// The number that digits are, unless it is above the most.
#[tactic(auto, using(crate::proofs::Decimals::goes_on, crate::proofs::Decimals::too_great))]
fn value_of(text: &[u8], most: u64) -> Option<u64>
    requires { most < 2 ^ 32 }
    ensures { result ≡ where_it (λ n. nat_le n most) (decimal text.now) }
{
    let mut value = 0u64;
    for byte in text {
        let next = value * 10 + byte.saturating_sub(b'0') as u64;
        if next > most {
            return None;
        }
        value = next;
    }
    Some(value)
}

/// The number that a text is, from the least to the most.
pub(crate) fn number_in(text: &str, least: u64, most: u64) -> Option<u64>
    requires { most < 2 ^ 32 }
    ensures same { result ≡ number_in least most text.now }
    ensures within { IfSome result (λ n. n ≤ most) }
{
    if !is_decimal(text.as_bytes()) {
        return None;
    }
    match value_of(text.as_bytes(), most) {
        Some(value) if value >= least && value <= most => Some(value),
        _ => None,
    }
}
