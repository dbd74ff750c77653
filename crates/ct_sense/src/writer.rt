//! From sense data to their bytes. Each form is one function.

ghost use Rattle.std.specs.Prelude.{◌≡◌, ◌++◌, length, take, drop};
ghost use Rattle.ct_sense.specs.Forms.{fixed_bytes, descriptor_bytes, bytes_of_sense};

use crate::sense::Sense;

/// Writes the bytes of sense data, whose number is returned. The bytes behind them stay.
pub fn sense_bytes(s: &Sense, descriptor: bool, into: &mut [u8; 20]) -> usize
    ensures size { result ≡ length (bytes_of_sense s.now descriptor) }
    ensures form { take result into.new ≡ bytes_of_sense s.now descriptor }
    ensures rest { drop result into.new ≡ drop result into.old }
{
    if descriptor {
        put_descriptor(s, into)
    } else {
        put_fixed(s, into)
    }
}

fn put_fixed(s: &Sense, into: &mut [u8; 20]) -> usize
    ensures size { result ≡ 18 }
    ensures form { into.new ≡ fixed_bytes s.now ++ drop 18 into.old }
{
    let (code, information) = match s.info {
        Some(information) => (0xf0, information),
        None => (0x70, 0),
    };
    let [i0, i1, i2, i3] = information.to_be_bytes();
    let form = [
        code, 0, s.key, i0, i1, i2, i3, 0x0a, 0, 0, 0, 0, s.asc, s.ascq, 0, 0, 0, 0,
    ];
    into[..18].copy_from_slice(&form);
    18
}

fn put_descriptor(s: &Sense, into: &mut [u8; 20]) -> usize
    ensures size { result ≡ length (descriptor_bytes s.now) }
    ensures form { into.new ≡ descriptor_bytes s.now ++ drop result into.old }
{
    match s.info {
        Some(information) => {
            let [i0, i1, i2, i3] = information.to_be_bytes();
            *into = [
                0x72, s.key, s.asc, s.ascq, 0, 0, 0, 0x0c, 0, 0x0a, 0x80, 0, 0, 0, 0, 0, i0, i1,
                i2, i3,
            ];
            20
        }
        None => {
            let form = [0x72, s.key, s.asc, s.ascq, 0, 0, 0, 0];
            into[..8].copy_from_slice(&form);
            8
        }
    }
}
