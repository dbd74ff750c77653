ghost use Rattle.std.specs.Prelude.{◌≤◌};

use super::*;
use std::alloc::Global;
use std::io::{self, Cursor, ErrorKind, Read, Write};
use std::test::Fail;

const TEXT: &[u8] = b"The quick brown fox jumps over the lazy dog.";

fn source_of(alloc: Global, most: usize, fails: &[u64]) -> Result<MemSource, Fail>
    requires { 1 ≤ most }
{
    Ok(MemSource::new(TEXT.to_vec(alloc)?, most, fails.to_vec(alloc)?))
}

#[test]
fn takes_the_same_in_any_pieces(rt: HostRuntime) -> Result<(), Fail> {
    for most in 1..TEXT.len() + 2 {
        let mut source = source_of(rt.alloc(), most, &[])?;
        let taken = take_all(rt.alloc(), &mut source, 1000)?;
        assert_eq!(rt; taken.as_slice(), TEXT, "in pieces of {most}");
    }
    Ok(())
}

#[test]
fn takes_what_is_within_the_limit(rt: HostRuntime) -> Result<(), Fail> {
    let len = TEXT.len();
    let cases = [
        (len + 1, &[] as &[u64], Ok(len)),
        (len, &[], Ok(len)),
        (usize::MAX, &[], Ok(len)),
        (len - 1, &[], Err(TakeError::TooLong)),
        (0, &[], Err(TakeError::TooLong)),
        (len, &[0], Err(TakeError::ReadFault)),
        (len, &[3], Err(TakeError::ReadFault)),
        (len, &[9], Err(TakeError::ReadFault)),
        (len, &[10], Ok(len)),
    ];
    for (limit, fails, want) in cases {
        let mut source = source_of(rt.alloc(), 5, fails)?;
        let got = take_all(rt.alloc(), &mut source, limit).map(|taken| taken.len());
        assert_eq!(rt; got, want, "at the limit {limit}");
    }
    Ok(())
}

#[test]
fn puts_until_a_write_fails(rt: HostRuntime) -> Result<(), Fail> {
    let len = TEXT.len();
    let cases = [
        (1, len, &[] as &[u64], Ok(())),
        (7, len, &[], Ok(())),
        (1000, len, &[], Ok(())),
        (1, len, &[7], Err(7)),
        (10, len, &[2], Err(20)),
        (10, len, &[0, 2], Err(0)),
        (1, 25, &[], Err(25)),
        (10, 25, &[], Err(20)),
        (1000, 25, &[], Err(0)),
    ];
    for (most, room, fails, want) in cases {
        assert!(rt; 1 <= most);
        let mut sink = MemSink::new(most, fails.to_vec(rt.alloc())?);
        sink.reserve(rt.alloc(), room)?;
        let got = put_all(&mut sink, TEXT).map_err(|fault| fault.sent);
        assert_eq!(rt;
            got,
            want,
            "at most {most} bytes at a call and {room} in all"
        );
        assert!(rt; TEXT.starts_with(sink.bytes()));
        let held = sink.bytes().len() as u64;
        assert_eq!(rt; held, want.err().unwrap_or(len as u64));
    }
    Ok(())
}

#[test]
fn takes_from_std_readers(rt: HostRuntime) -> Result<(), Fail> {
    let mut slice = StdSource::new(TEXT);
    assert_eq!(rt; take_all(rt.alloc(), &mut slice, 1000)?.as_slice(), TEXT);
    let mut cursor = StdSource::new(Cursor::new(TEXT));
    assert_eq!(rt;
        take_all(rt.alloc(), &mut cursor, TEXT.len())?.as_slice(),
        TEXT
    );
    Ok(())
}

#[test]
fn puts_into_std_writers(rt: HostRuntime) -> Result<(), Fail> {
    let mut list = Vec::new(rt.alloc());
    put_all(&mut StdSink::new(&mut list), TEXT)?;
    assert_eq!(rt; list.as_slice(), TEXT);

    // A writer with room for five bytes takes these and then nothing.
    let mut place = [0; 5];
    let full = put_all(&mut StdSink::new(place.as_mut_slice()), TEXT);
    assert_eq!(rt; full, Err(PutFault { sent: 5 }));
    assert_eq!(rt; place.as_slice(), b"The q".as_slice());
    Ok(())
}

// A stream that moves one byte at a call, and fails once, at the call of this number, from 0.
#[derive(Debug, Drop)]
struct FailsOnce {
    at: u64,
    calls: u64,
}

impl FailsOnce {
    fn is_to_fail(&mut self) -> bool {
        let call = self.calls;
        self.calls = call.saturating_add(1);
        call == self.at
    }
}

impl Read for FailsOnce {
    fn read(&mut self, buf: &mut [u8]) -> io::Result<usize> {
        if self.is_to_fail() {
            return Err(ErrorKind::Interrupted.into());
        }
        match buf.first_mut() {
            Some(byte) => {
                *byte = b'x';
                Ok(1)
            }
            None => Ok(0),
        }
    }
}

impl Write for FailsOnce {
    fn write(&mut self, buf: &[u8]) -> io::Result<usize> {
        if self.is_to_fail() {
            return Err(ErrorKind::Interrupted.into());
        }
        Ok(buf.len().min(1))
    }

    fn flush(&mut self) -> io::Result<()> {
        Ok(())
    }
}

#[test]
fn a_failed_call_is_not_made_again(rt: HostRuntime) -> Result<(), Fail> {
    let alloc = rt.alloc();
    let mut reader = FailsOnce { at: 3, calls: 0 };
    let taken = take_all(alloc, &mut StdSource::new(&mut reader), 1000).map(|taken| taken.len());
    assert_eq!(rt; taken, Err(TakeError::ReadFault));
    assert_eq!(rt; reader.calls, 4);

    let mut writer = FailsOnce { at: 3, calls: 0 };
    let put = put_all(&mut StdSink::new(&mut writer), TEXT);
    assert_eq!(rt; put, Err(PutFault { sent: 3 }));
    assert_eq!(rt; writer.calls, 4);
    Ok(())
}

#[test]
fn reads_one_byte_past_the_limit_at_most(rt: HostRuntime) -> Result<(), Fail> {
    let mut reader = FailsOnce { at: 6, calls: 0 };
    let taken = take_all(rt.alloc(), &mut StdSource::new(&mut reader), 5).map(|taken| taken.len());
    assert_eq!(rt; taken, Err(TakeError::TooLong));
    assert_eq!(rt; reader.calls, 6);
    Ok(())
}
