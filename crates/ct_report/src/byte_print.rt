//! Bytes in print: maximal runs, with dots between them.

ghost use Rattle.std.specs.Prelude.{◌≡◌, ◌≤◌, ◌<◌, ◌+◌, ◌-◌, ◌++◌, ◌==◌, ◌∷◌, [], not, nat_eq, length, map, position};
ghost use Rattle.std.specs.Prelude.{IfSome, IfOk, OnOk};
ghost use Rattle.std.specs.List.{position_or_len, flat_map};
ghost use Rattle.hex.specs.Hex.{encode_lower};
ghost use Rattle.ct_report.specs.Runs.{alone};
ghost use Rattle.ct_report.specs.ByteText.{run_text, alone_text, dotted_text, text_of_bytes};

use ct_word::NoMemory;
use itoa::Buffer;

/// Adds bytes in print. `NoMemory` may leave a part of them.
pub fn push_byte_text(text: &mut Vec<u8>, bytes: &[u8]) -> Result<(), NoMemory>
    ensures { OnOk result (text.new.items ≡ text.old.items ++ text_of_bytes bytes.now) }
{
    if bytes.is_empty() {
        return Ok(());
    }
    push_dotted(text, bytes)?;
    let _ = text.pop();
    Ok(())
}

// Adds bytes in print, with a dot behind the last run, too.
fn push_dotted(text: &mut Vec<u8>, bytes: &[u8]) -> Result<(), NoMemory>
    ensures { OnOk result (text.new.items ≡ text.old.items ++ dotted_text bytes.now) }
{
    let mut rest = bytes;
    while !rest.is_empty() {
        let (alone, others) = rest.split_at(alone_ahead(rest));
        push_alone(text, alone)?;
        rest = push_first_run(text, others)?;
    }
    Ok(())
}

// How many bytes at the front differ from the one behind them.
fn alone_ahead(bytes: &[u8]) -> usize
    ensures alone { result ≡ alone nat_eq bytes.now }
    ensures within { result ≤ length bytes.now }
{
    for place in 1..bytes.len() {
        if bytes[place - 1] == bytes[place] {
            return place - 1;
        }
    }
    bytes.len()
}

// Adds bytes that stand alone, eight at a time.
fn push_alone(text: &mut Vec<u8>, bytes: &[u8]) -> Result<(), NoMemory>
    ensures { OnOk result (text.new.items ≡ text.old.items ++ flat_map alone_text bytes.now) }
{
    let mut rest = bytes;
    while let Some((chunk, others)) = rest.split_first_chunk::<8>() {
        text.extend_from_slice(alone_texts(chunk).as_flattened())?;
        rest = others;
    }
    for byte in rest {
        text.extend_from_slice(&alone_text(*byte))?;
    }
    Ok(())
}

fn alone_texts(bytes: &[u8; 8]) -> [[u8; 3]; 8]
    ensures { result ≡ map alone_text bytes.now }
{
    let mut texts = [[0; 3]; 8];
    for place in 0..8 {
        texts[place] = alone_text(bytes[place]);
    }
    texts
}

fn alone_text(byte: u8) -> [u8; 3]
    ensures { result ≡ alone_text byte }
{
    let [high, low] = hex_pair(byte);
    [high, low, b'.']
}

// Adds the first run in print with a dot behind it, if there is one, and gives the bytes behind it.
fn push_first_run<'a>(text: &mut Vec<u8>, bytes: &'a [u8]) -> Result<&'a [u8], NoMemory>
    ensures text { IfOk result (λ rest.
        text.new.items ++ dotted_text rest.now ≡ text.old.items ++ dotted_text bytes.now) }
    ensures shorter { IfOk result (λ rest. length rest.now ≤ length bytes.now - 1) }
{
    if bytes.is_empty() {
        return Ok(bytes);
    }
    let first = bytes[0];
    let others = &bytes[1..];
    let equal = equal_ahead(first, others);
    push_run_text(text, first, equal + 1)?;
    text.push(b'.')?;
    Ok(&others[equal..])
}

// How many bytes are equal to the one before them, up to the first that isn't.
fn equal_ahead(first: u8, others: &[u8]) -> usize
    ensures equal { result ≡ position_or_len (λ b. not (b == first)) others.now }
    ensures within { result ≤ length others.now }
{
    match first_other(first, others) {
        Some(place) => place,
        None => others.len(),
    }
}

fn first_other(first: u8, others: &[u8]) -> Option<usize>
    ensures place { result ≡ position (λ b. not (b == first)) others.now }
    ensures within { IfSome result (λ place. place < length others.now) }
{
    others.iter().position(|b| *b != first)
}

fn push_run_text(text: &mut Vec<u8>, byte: u8, count: usize) -> Result<(), NoMemory>
    ensures { OnOk result (text.new.items ≡ text.old.items ++ run_text (record { item = byte; count = count })) }
{
    text.extend_from_slice(&hex_pair(byte))?;
    if count != 1 {
        text.push(b'*')?;
        text.extend_from_slice(Buffer::new().format(count).as_bytes())?;
    }
    Ok(())
}

/// A byte as two digits.
pub fn hex_pair(byte: u8) -> [u8; 2]
    ensures { result ≡ encode_lower (byte ∷ []) }
{
    let mut pair = [0; 2];
    let _ = hex::encode_to_slice([byte].as_slice(), &mut pair);
    pair
}
