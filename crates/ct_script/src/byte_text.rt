//! Byte texts: how a script and a report write bytes.

ghost use Rattle.std.specs.Prelude.{◌≡◌, ◌≤◌, ◌<◌, ◌^◌, ◌∷◌, IfOk, option_map, take, vec_len};
ghost use Rattle.std.specs.List.{slice_split};
ghost use Rattle.ct_word.specs.Decimals.{decimal_of};
ghost use Rattle.ct_script.specs.ByteText.{pairs_of, single, repeated, bytes_of_parts, is_star, piece_of, bytes_of_text};
ghost use Rattle.ct_script.specs.Reading.{Extends};

use crate::cuts::cut;
use crate::digits::{read_pair, read_pairs};
use ct_word::{Bytes, NoMemory, read_decimal};
use std::alloc::Global;

/// The bytes that a byte text stands for, of which the first `most` are kept. None where it is no byte text.
pub fn read_bytes(alloc: Global, text: &[u8], most: usize) -> Result<Option<Bytes>, NoMemory>
    requires { most < 2 ^ 32 }
    ensures { IfOk result (λ found. found ≡ option_map (take most) (bytes_of_text text.now)) }
{
    let mut bytes = Vec::new(alloc);
    let mut rest = Some(text);
    while let Some(pieces) = rest {
        let (piece, others) = cut(pieces, b'.');
        if !push_piece(&mut bytes, piece, most)? {
            return Ok(None);
        }
        rest = others;
    }
    Ok(Some(Bytes::from_vec(bytes)))
}

// Adds the bytes of a piece, up to `most` in all. False where it is no piece.
fn push_piece(bytes: &mut Vec<u8>, piece: &[u8], most: usize) -> Result<bool, NoMemory>
    requires small { most < 2 ^ 32 }
    requires within { vec_len bytes.old ≤ most }
    ensures { IfOk result (λ ok. Extends most bytes.old.items (piece_of piece.now) ok bytes.new.items) }
{
    let (first, rest) = cut(piece, b'*');
    match rest {
        None => push_pairs(bytes, first, most),
        Some(rest) => push_counted(bytes, first, rest, most),
    }
}

// Adds the bytes of a pair and what stands behind its star.
fn push_counted(
    bytes: &mut Vec<u8>,
    pair: &[u8],
    rest: &[u8],
    most: usize,
) -> Result<bool, NoMemory>
    requires small { most < 2 ^ 32 }
    requires within { vec_len bytes.old ≤ most }
    ensures { IfOk result (λ ok. Extends most bytes.old.items (bytes_of_parts (pair.now ∷ slice_split is_star rest.now)) ok bytes.new.items) }
{
    let (count, others) = cut(rest, b'*');
    match others {
        None => push_run(bytes, pair, count, most),
        Some(_) => Ok(false),
    }
}

// Adds the bytes of pairs of digits.
fn push_pairs(bytes: &mut Vec<u8>, pairs: &[u8], most: usize) -> Result<bool, NoMemory>
    requires small { most < 2 ^ 32 }
    requires within { vec_len bytes.old ≤ most }
    ensures { IfOk result (λ ok. Extends most bytes.old.items (pairs_of pairs.now) ok bytes.new.items) }
{
    if pairs.is_empty() || pairs.len() % 2 != 0 {
        return Ok(false);
    }
    let start = bytes.len();
    bytes.resize(start + pairs.len() / 2, 0)?;
    let read = read_pairs(pairs, &mut bytes[start..]);
    bytes.truncate(most);
    Ok(read)
}

// Adds a byte as often as the count says.
fn push_run(bytes: &mut Vec<u8>, pair: &[u8], count: &[u8], most: usize) -> Result<bool, NoMemory>
    requires small { most < 2 ^ 32 }
    requires within { vec_len bytes.old ≤ most }
    ensures { IfOk result (λ ok. Extends most bytes.old.items (repeated (single (pairs_of pair.now)) (decimal_of count.now)) ok bytes.new.items) }
{
    match (one_byte(pair), read_decimal(count)) {
        (Some(byte), Some(count)) if count > 0 => {
            let room = most - bytes.len();
            let count = count.min(room as u64) as usize;
            bytes.resize(bytes.len() + count, byte)?;
            Ok(true)
        }
        _ => Ok(false),
    }
}

fn one_byte(pair: &[u8]) -> Option<u8>
    ensures { result ≡ single (pairs_of pair.now) }
{
    match pair {
        [high, low] => read_pair(*high, *low),
        _ => None,
    }
}
