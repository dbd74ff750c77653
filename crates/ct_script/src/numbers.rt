//! Numbers in the range of their place.

ghost use Rattle.std.specs.Prelude.{◌≡◌, ◌-◌, ◌^◌, min, option_map};
ghost use Rattle.ct_word.specs.Decimals.{decimal_of};
ghost use Rattle.ct_script.specs.Words.{number_in};

use ct_word::read_decimal;

/// The number that a word spells, where it is `low` to `high`.
pub fn number_in(low: u32, high: u32, word: &[u8]) -> Option<u32>
    ensures { result ≡ number_in low high word.now }
{
    let number = number_of(word)?;
    if u64::from(low) <= number && number <= u64::from(high) {
        Some(number as u32)
    } else {
        None
    }
}

// The number that a word spells, or `u64::MAX` where it is greater. Most words have one digit.
fn number_of(word: &[u8]) -> Option<u64>
    ensures { result ≡ option_map (λ n. min n (2 ^ 64 - 1)) (decimal_of word.now) }
{
    match word {
        [digit @ b'0'..=b'9'] => Some(u64::from(*digit - b'0')),
        _ => read_decimal(word),
    }
}
