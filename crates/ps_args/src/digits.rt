// Numbers in decimal digits.
ghost use Rattle.std.specs.Prelude.{◌≡◌};
ghost use Rattle.std.specs.Char.{is_ascii_digit};
ghost use Rattle.std.specs.List.{list_all};
ghost use Rattle.ps_types.specs.Values as values;
ghost use Rattle.ps_args.specs.Words.{number_between as number_by, number_in};

fn all_digits(bytes: &[u8]) -> bool
    ensures { result ≡ list_all is_ascii_digit bytes.now }
{
    bytes.iter().all(|byte| byte.is_ascii_digit())
}

// One digit at least, and at most 20.
#[tactic(auto, using(crate::proofs::Numbers::digits_each))]
fn are_digits(text: &str) -> bool
    ensures { result ≡ values.are_digits 20 text.now }
{
    !text.is_empty() && text.len() <= 20 && all_digits(text.as_bytes())
}

// The number that 1 to 20 digits write, which may be 2^64 and more.
fn value_of(text: &str) -> Option<u128>
    ensures { result ≡ number_in text.now }
{
    if !are_digits(text) {
        return None;
    }
    match text.parse::<u128>() {
        Ok(number) => Some(number),
        Err(_) => None,
    }
}

/// The number that 1 to 20 decimal digits write, where it is from `least` to `most`.
pub fn number_between(least: u64, most: u64, text: &str) -> Option<u64>
    ensures { result ≡ number_by least most text.now }
{
    let number = value_of(text)?;
    if u128::from(least) <= number && number <= u128::from(most) {
        Some(number as u64)
    } else {
        None
    }
}
