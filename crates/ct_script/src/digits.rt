//! Pairs of hexadecimal digits, by a table: at a branch the processor would guess the kind of each digit, and often
//! wrongly.

ghost use Rattle.std.specs.Prelude.{◌≡◌, ◌*◌, ◌<◌, length, true, false, unwrap_or, MatchOption};
ghost use Rattle.hex.specs.Hex.{hex_digit_value};
ghost use Rattle.ct_script.specs.ByteText.{pair_byte, pairs_of};

/// Reads pairs of digits into as many places. False where one of them is no digit.
pub fn read_pairs(pairs: &[u8], into: &mut [u8]) -> bool
    requires some { 0 < length pairs.now }
    requires fits { length pairs.now ≡ 2 * length into.old }
    ensures { MatchOption (pairs_of pairs.now) (result ≡ false) (λ bytes. (result ≡ true) × (into.new ≡ bytes)) }
{
    for place in 0..into.len() {
        let Some(byte) = read_pair(pairs[2 * place], pairs[2 * place + 1]) else {
            return false;
        };
        into[place] = byte;
    }
    true
}

/// The byte of two digits. None where one of them is no digit.
pub fn read_pair(high: u8, low: u8) -> Option<u8>
    ensures { result ≡ pair_byte high low }
{
    let high = value_of(high);
    let low = value_of(low);
    if high > 15 || low > 15 {
        return None;
    }
    Some(high * 16 + low)
}

fn value_of(digit: u8) -> u8
    ensures { result ≡ unwrap_or (hex_digit_value digit) 255 }
{
    VALUES[digit as usize]
}

/// The value of each digit, of either case, and 255 of any other byte.
const VALUES: &[u8; 256] = &[
    255, 255, 255, 255, 255, 255, 255, 255, 255, 255, 255, 255, 255, 255, 255, 255, 255, 255, 255,
    255, 255, 255, 255, 255, 255, 255, 255, 255, 255, 255, 255, 255, 255, 255, 255, 255, 255, 255,
    255, 255, 255, 255, 255, 255, 255, 255, 255, 255, 0, 1, 2, 3, 4, 5, 6, 7, 8, 9, 255, 255, 255,
    255, 255, 255, 255, 10, 11, 12, 13, 14, 15, 255, 255, 255, 255, 255, 255, 255, 255, 255, 255,
    255, 255, 255, 255, 255, 255, 255, 255, 255, 255, 255, 255, 255, 255, 255, 255, 10, 11, 12, 13,
    14, 15, 255, 255, 255, 255, 255, 255, 255, 255, 255, 255, 255, 255, 255, 255, 255, 255, 255,
    255, 255, 255, 255, 255, 255, 255, 255, 255, 255, 255, 255, 255, 255, 255, 255, 255, 255, 255,
    255, 255, 255, 255, 255, 255, 255, 255, 255, 255, 255, 255, 255, 255, 255, 255, 255, 255, 255,
    255, 255, 255, 255, 255, 255, 255, 255, 255, 255, 255, 255, 255, 255, 255, 255, 255, 255, 255,
    255, 255, 255, 255, 255, 255, 255, 255, 255, 255, 255, 255, 255, 255, 255, 255, 255, 255, 255,
    255, 255, 255, 255, 255, 255, 255, 255, 255, 255, 255, 255, 255, 255, 255, 255, 255, 255, 255,
    255, 255, 255, 255, 255, 255, 255, 255, 255, 255, 255, 255, 255, 255, 255, 255, 255, 255, 255,
    255, 255, 255, 255, 255, 255, 255, 255, 255, 255, 255, 255, 255, 255, 255, 255, 255, 255, 255,
    255, 255, 255,
];
