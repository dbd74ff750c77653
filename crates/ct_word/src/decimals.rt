//! Numbers as they stand in a script: decimal digits, no sign, no leading zero.

ghost use Rattle.std.specs.Prelude.{◌≡◌, ◌-◌, ◌^◌, min, option_map, true, nat_lt, if◌then◌else◌};
ghost use Rattle.std.specs.List.{list_all};
ghost use Rattle.std.specs.Str.Parse.{digits_value};
ghost use Rattle.std.specs.Char.{is_ascii_digit};
ghost use Rattle.ct_word.specs.Decimals.{is_decimal, decimal_of};

/// The number that a word spells, or `u64::MAX` where it is greater. None where the word spells no number.
pub fn read_decimal(word: &[u8]) -> Option<u64>
    ensures { result ≡ option_map (λ n. min n (2 ^ 64 - 1)) (decimal_of word.now) }
{
    if !is_decimal(word) {
        return None;
    }
    match parse_digits(word) {
        Some(number) => Some(number),
        None => Some(u64::MAX),
    }
}

// The number that digits spell; None where it doesn't fit.
fn parse_digits(digits: &[u8]) -> Option<u64>
    requires { is_decimal digits.now ≡ true }
    ensures { result ≡ (if nat_lt (digits_value 10 digits.now) (2 ^ 64) then Some (digits_value 10 digits.now) else None) }
{
    match str::from_utf8(digits) {
        Ok(text) => text.parse::<u64>().ok(),
        Err(_) => None,
    }
}

fn is_decimal(bytes: &[u8]) -> bool
    ensures { result ≡ is_decimal bytes.now }
{
    match bytes {
        [] => false,
        [first, others @ ..] => (*first != b'0' || others.is_empty()) && all_digits(bytes),
    }
}

fn all_digits(bytes: &[u8]) -> bool
    ensures { result ≡ list_all is_ascii_digit bytes.now }
{
    bytes.iter().all(|b| b.is_ascii_digit())
}
