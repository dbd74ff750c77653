//! Cutting bytes at a byte.

ghost use Rattle.std.specs.Prelude.{◌≡◌, ◌==◌, ◌∷◌, ◌<◌, length, position, IfSome};
ghost use Rattle.std.specs.List.{slice_split};
ghost use Rattle.ct_script.specs.Cuts.{parts_of_rest};

use memchr::memchr;

/// As many bytes are sooner tested one by one.
const FEW: usize = 8;

/// The bytes before the first `at`, and those behind it where there is one.
pub fn cut(bytes: &[u8], at: u8) -> (&[u8], Option<&[u8]>)
    ensures parts { slice_split (λ b. b == at) bytes.now ≡ result.0.now ∷ parts_of_rest at result.1 }
    ensures shorter { IfSome result.1 (λ rest. length rest.now < length bytes.now) }
{
    match first_place(bytes, at) {
        Some(place) => (&bytes[..place], Some(&bytes[place + 1..])),
        None => (bytes, None),
    }
}

fn first_place(bytes: &[u8], at: u8) -> Option<usize>
    ensures place { result ≡ position (λ b. b == at) bytes.now }
    ensures within { IfSome result (λ place. place < length bytes.now) }
{
    if bytes.len() < FEW {
        return bytes.iter().position(|b| *b == at);
    }
    memchr(at, bytes)
}
