//! From bytes to sense data. What the fields say is written again, and is right where the same bytes
//! come out.

ghost use Rattle.std.specs.Prelude.{◌≡◌, length, IfSome, IfNone};
ghost use Rattle.ct_sense.specs.declared.sense.Sense.{Sense};
ghost use Rattle.ct_sense.specs.Forms.{IsSense, fixed_bytes, descriptor_bytes, bytes_of_sense, IsSenseForm};

use crate::sense::Sense;
use crate::writer::sense_bytes;
use ct_word::u32_at;

/// Reads sense data in either form. None where the bytes are no form of any.
pub fn read_sense(bytes: &[u8]) -> Option<Sense>
    ensures found { IfSome result (λ s. IsSense s × IsSenseForm bytes.now s) }
    ensures none { IfNone result ((s : Sense) → IsSense s → IsSenseForm bytes.now s → ⊥) }
{
    match bytes.len() {
        18 => if_written(fixed_value(bytes), false, bytes),
        8 => if_written(short_value(bytes), true, bytes),
        20 => if_written(long_value(bytes), true, bytes),
        _ => None,
    }
}

/// The value that these bytes are the fixed form of, if they are one.
fn fixed_value(bytes: &[u8]) -> Sense
    requires { length bytes.now ≡ 18 }
    ensures { (s : Sense) → IsSense s → bytes.now ≡ fixed_bytes s → result ≡ s }
{
    let info = if bytes[0] == 0xf0 {
        Some(u32_at(bytes, 3))
    } else {
        None
    };
    Sense {
        key: bytes[2],
        asc: bytes[12],
        ascq: bytes[13],
        info,
    }
}

/// The value that these bytes are the descriptor form of without INFORMATION, if they are one.
fn short_value(bytes: &[u8]) -> Sense
    requires { length bytes.now ≡ 8 }
    ensures { (s : Sense) → IsSense s → bytes.now ≡ descriptor_bytes s → result ≡ s }
{
    Sense::new(bytes[1], bytes[2], bytes[3])
}

/// The value that these bytes are the descriptor form of with INFORMATION, if they are one.
fn long_value(bytes: &[u8]) -> Sense
    requires { length bytes.now ≡ 20 }
    ensures { (s : Sense) → IsSense s → bytes.now ≡ descriptor_bytes s → result ≡ s }
{
    Sense {
        key: bytes[1],
        asc: bytes[2],
        ascq: bytes[3],
        info: Some(u32_at(bytes, 16)),
    }
}

/// The value, if its bytes in this form are these.
fn if_written(s: Sense, descriptor: bool, bytes: &[u8]) -> Option<Sense>
    ensures found { IfSome result (λ found.
        (found ≡ s) × IsSense s × (bytes.now ≡ bytes_of_sense s descriptor)) }
    ensures none { IfNone result (IsSense s → bytes.now ≡ bytes_of_sense s descriptor → ⊥) }
{
    if s.key >= 16 {
        return None;
    }
    let mut form = [0; 20];
    let size = sense_bytes(&s, descriptor, &mut form);
    if &form[..size] == bytes {
        Some(s)
    } else {
        None
    }
}
