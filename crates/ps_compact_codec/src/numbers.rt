// Numbers by their digits.
ghost use Rattle.std.specs.Prelude.{◌≡◌, ◌+◌, ◌*◌};
ghost use Rattle.std.specs.Char.{digit_value as value_of};
ghost use Rattle.std.specs.Str.Parse.{digits_value};
ghost use Rattle.ps_compact_codec.specs.Kinds.{held_number};

// What a byte counts as a digit: 0 to 9, then letters of either case from 10 to 35, and 36 for all else.
fn digit_value(byte: u8) -> u64
    ensures { result ≡ value_of byte }
{
    match char::from(byte).to_digit(36) {
        Some(digit) => u64::from(digit),
        None => 36,
    }
}

// The number with one digit more.
fn with_digit(number: u64, digit: u8) -> Option<u64>
    ensures { result ≡ held_number (number * 10 + value_of digit) }
{
    match number.checked_mul(10) {
        Some(tens) => tens.checked_add(digit_value(digit)),
        None => None,
    }
}

/// The number that the digits write, where it is below 2^64. A text with other bytes counts as some number too, which isn't written so.
pub(crate) fn number_of(digits: &[u8]) -> Option<u64>
    ensures { result ≡ held_number (digits_value 10 digits.now) }
{
    let mut number: u64 = 0;
    for digit in digits {
        match with_digit(number, *digit) {
            Some(more) => number = more,
            None => return None,
        }
    }
    Some(number)
}
