//! The texts by which a logical unit is known.

ghost use Rattle.std.specs.Prelude.{◌≡◌};
ghost use Rattle.ct_inq.specs.Texts.{serial};

use ct_word::LunNo;

/// T10 VENDOR IDENTIFICATION
pub const VENDOR: [u8; 8] = *b"FREEBSD ";

/// PRODUCT IDENTIFICATION
pub const PRODUCT: [u8; 16] = *b"CTLDISK         ";

/// PRODUCT REVISION LEVEL
pub const REVISION: [u8; 4] = *b"0001";

/// PRODUCT SERIAL NUMBER: a text and the number in eight decimal digits.
pub fn serial(lun: LunNo) -> [u8; 16]
    ensures { result ≡ serial lun.0 }
{
    let mut text = *b"CTL-LUN-00000000";
    text[13] += lun.0 / 100;
    text[14] += lun.0 / 10 % 10;
    text[15] += lun.0 % 10;
    text
}
