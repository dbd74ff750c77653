use crate::{Exit, ScriptFault, What, target_one};
use ct_io::{MemSink, MemSource};
use std::alloc::{AllocError, Global};
use std::test::Fail;

/// How a source and a sink behave: the most bytes of a call, and the calls that fail.
#[derive(Clone, Copy)]
struct Streams<'a> {
    source_most: usize,
    source_fails: &'a [u64],
    sink_most: usize,
    sink_fails: &'a [u64],
}

/// How a call ended, how much it sent, and of how many units it left an end.
#[derive(Clone, Copy, Debug, PartialEq, Eq)]
struct Outcome {
    exit: Exit,
    sent: u64,
    units: usize,
}

const AT_ONCE: usize = 1 << 30;

const PLAIN: Streams<'static> = Streams {
    source_most: AT_ONCE,
    source_fails: &[],
    sink_most: AT_ONCE,
    sink_fails: &[],
};

/// A disk of 512 blocks, and two hosts that see it.
const HEAD: &str = "lun 0 blocks 512\nport 0 a\nmap 0 0 0 0\nmap 1 0 0 0\n";

const EMPTY_DISK: &str = "lun 0 blocks 512\nport 0 a\nmap 0 0 0 0\n";

const WRITE_THEN_READ: &str = "lun 0 blocks 512\nport 0 a\nmap 0 0 0 0\nmap 1 0 0 0\n\
    cmd 0 0 0 1 simple 000000000000\ncmd 1 0 0 1 simple 000000000000\nsync\n\
    cmd 0 0 0 1 simple 2a000000000000000100 a5*512\ncmd 0 0 0 2 simple 28000000000000000100\n";

fn words_of(alloc: Global, texts: &[&str]) -> Result<Vec<String>, AllocError> {
    let mut words = Vec::new(alloc);
    for text in texts {
        words.push(String::from_str(alloc, *text)?)?;
    }
    Ok(words)
}

// What the call answers, and what the sink holds in the end.
fn serve(
    alloc: Global,
    texts: &[&str],
    script: &[u8],
    streams: Streams<'_>,
) -> Result<(Outcome, Vec<u8>), Fail> {
    let words = words_of(alloc, texts)?;
    let bytes = Vec::from_slice(alloc, script)?;
    let fails = Vec::from_slice(alloc, streams.source_fails)?;
    let mut source = MemSource::new(bytes, streams.source_most.max(1), fails);
    let fails = Vec::from_slice(alloc, streams.sink_fails)?;
    let mut sink = MemSink::new(streams.sink_most.max(1), fails);
    sink.reserve(alloc, 1 << 20)?;
    let served = target_one(alloc, &words, &mut source, &mut sink);
    let held = Vec::from_slice(alloc, sink.bytes())?;
    let outcome = Outcome {
        exit: served.exit,
        sent: served.sent,
        units: served.ends.len(),
    };
    Ok((outcome, held))
}

fn play(alloc: Global, script: &[u8]) -> Result<(Outcome, Vec<u8>), Fail> {
    serve(alloc, &["play"], script, PLAIN)
}

// How a script is judged.
fn judge(alloc: Global, script: &[u8]) -> Result<Exit, Fail> {
    let (served, _) = play(alloc, script)?;
    Ok(served.exit)
}

fn done(sent: usize) -> Outcome {
    Outcome {
        exit: Exit::Done,
        sent: sent as u64,
        units: 1,
    }
}

fn fault(line: u32, what: What) -> Exit {
    Exit::Script(ScriptFault { line, what })
}

#[test]
fn refuses_other_words(rt: HostRuntime) -> Result<(), Fail> {
    let cases: [&[&str]; 9] = [
        &[],
        &[""],
        &["play", "x"],
        &["play", "play"],
        &["Play"],
        &["run"],
        &["run", "--workers", "0"],
        &["--help"],
        &["--"],
    ];
    for texts in cases {
        let (served, held) = serve(rt.alloc(), texts, EMPTY_DISK.as_bytes(), PLAIN)?;
        assert_eq!(rt;
            served,
            Outcome {
                exit: Exit::Usage,
                sent: 0,
                units: 0
            },
            "at {texts:?}"
        );
        assert!(rt; held.is_empty());
    }
    Ok(())
}

#[test]
fn tells_the_first_fault_of_form(rt: HostRuntime) -> Result<(), Fail> {
    let lines: [&[u8]; 63] = [
        b"",
        b" ",
        b"# a comment",
        b"lun",
        b"lun 0 blocks",
        b"lun 0 blocks 0",
        b"lun 0 blocks 65537",
        b"lun 0 blocks 01",
        b"lun 0 blocks 18446744073709551617",
        b"lun 1 blocks 5",
        b"lun 0 block 5",
        b"lun  0 blocks 5",
        b"lun 0 blocks 5 ",
        b"lun 0 blocks 5 depth 4",
        b"lun 0 blocks 5 depth 0 pool 4",
        b"lun 0 blocks 5 depth 257 pool 4",
        b"lun 0 blocks 5 depth 4 pool 0",
        b"lun 0 blocks 5 depth 4 pool 4097",
        b"lun 0 blocks 5 pool 4 depth 4",
        b"lun 0 blocks 5\r",
        b"Lun 0 blocks 5",
        b"port 0",
        b"port 1 a",
        b"port 0 b",
        b"port 0 a a",
        b"map 16 0 0 0",
        b"map 0 1 0 0",
        b"map 0 0 1 0",
        b"map 0 0 0 1",
        b"map 0 0 0",
        b"map 0 0 0 0 0",
        b"cmd 16 0 0 1 simple 28000000000000000100",
        b"cmd 0 1 0 1 simple 28000000000000000100",
        b"cmd 0 0 1 1 simple 28000000000000000100",
        b"cmd 0 0 0 4294967296 simple 28000000000000000100",
        b"cmd 0 0 0 1 aca 28000000000000000100",
        b"cmd 0 0 0 1 simple",
        b"cmd 0 0 0 1 simple 2a0",
        b"cmd 0 0 0 1 simple 28.00*99999999999999999999999999",
        b"cmd 0 0 0 1 simple 28.00*0.00*9",
        b"cmd 0 0 0 1 simple 28.00*09",
        b"cmd 0 0 0 1 simple 2800*9",
        b"cmd 0 0 0 1 simple 28..00*9",
        b"cmd 0 0 0 1 simple 2a000000000000000100 00*512 00",
        b"map 0 0 0 0\x80",
        b"step",
        b"step 0 1",
        b"step 1 1 1",
        b"step 0 1 0",
        b"step 0 1 65537",
        b"step 0 4294967296 1",
        b"step 0 1 1 1",
        b"drain",
        b"drain 1",
        b"drain 0 0",
        b"sync 0",
        b"deliver 0 a",
        b"task 0 0 0",
        b"task 0 0 0 target-reset",
        b"task 0 0 0 abort-task",
        b"task 0 0 0 lun-reset 1",
        b"task 0 0 1 lun-reset",
        b"task 0 0 0 query-task 4294967296",
    ];
    for line in lines {
        let mut script = Vec::from_slice(rt.alloc(), b"port 0 a\n")?;
        script.extend_from_slice(line)?;
        script.extend_from_slice(b"\n")?;
        assert_eq!(rt;
            judge(rt.alloc(), script.as_slice())?,
            fault(2, What::Form),
            "at {line:?}"
        );
    }
    assert_eq!(rt;
        judge(rt.alloc(), b"port 0 a\nlun 0 blocks 5")?,
        fault(2, What::Form)
    );
    Ok(())
}

#[test]
fn tells_the_first_fault_of_name(rt: HostRuntime) -> Result<(), Fail> {
    let cases = [
        ("lun 0 blocks 5\nlun 0 blocks 5\n", 2),
        ("port 0 a\nport 0 a\n", 2),
        ("lun 0 blocks 5\nmap 0 0 0 0\n", 2),
        ("port 0 a\nmap 0 0 0 0\n", 2),
        (
            "lun 0 blocks 512\nport 0 a\nmap 0 0 0 0\nmap 1 0 0 0\nmap 1 0 0 0\n",
            5,
        ),
        ("cmd 0 0 0 1 simple 28000000000000000100\n", 1),
        (
            "lun 0 blocks 5\nport 0 a\nmap 1 0 0 0\ncmd 0 0 0 1 simple 28000000000000000100\n",
            4,
        ),
        (
            "lun 0 blocks 5\nport 0 a\nmap 1 0 0 0\ncmd 1 0 0 1 simple 28000000000000000100\nmap 2 0 0 0\n",
            5,
        ),
        (
            "lun 0 blocks 5\nport 0 a\nmap 1 0 0 0\ntask 0 0 0 lun-reset\n",
            4,
        ),
        ("step 0 1 1\n", 1),
        ("drain 0\nlun 0 blocks 5\n", 1),
        ("sync\nport 0 a\n", 2),
        ("lun 0 blocks 5\ndrain 0\nport 0 a\n", 3),
        ("port 0 a\nlun 0 blocks 5\nstep 0 9 1\nmap 0 0 0 0\n", 4),
        // a fault of form further on isn't told
        ("port 0 a\nport 0 a\nport 0 b\n", 2),
    ];
    for (script, line) in cases {
        assert_eq!(rt;
            judge(rt.alloc(), script.as_bytes())?,
            fault(line, What::Name),
            "at {script}"
        );
    }
    Ok(())
}

#[test]
fn tells_the_first_fault_of_limit(rt: HostRuntime) -> Result<(), Fail> {
    let alloc = rt.alloc();
    let mut script = Vec::from_slice(alloc, HEAD.as_bytes())?;
    for tag in 0..16_384 {
        let line = format!(in alloc; "cmd 1 0 0 {tag} simple 28000000000000000000\n")?;
        script.extend_from_slice(line.as_bytes())?;
    }
    assert_eq!(rt; judge(alloc, script.as_slice())?, Exit::Done);
    script.extend_from_slice(b"cmd 1 0 0 0 simple 28000000000000000000\n")?;
    assert_eq!(rt;
        judge(alloc, script.as_slice())?,
        fault(16_389, What::Limit)
    );
    let most = b"lun 0 blocks 65536 depth 256 pool 4096\n";
    assert_eq!(rt; judge(alloc, most)?, Exit::Done);
    let mut script = Vec::new(alloc);
    for _ in 0..65_536 {
        script.extend_from_slice(b"sync\n")?;
    }
    assert_eq!(rt; judge(alloc, script.as_slice())?, Exit::Done);
    script.extend_from_slice(b"sync\n")?;
    assert_eq!(rt;
        judge(alloc, script.as_slice())?,
        fault(65_537, What::Limit)
    );
    Ok(())
}

#[test]
fn counts_functions(rt: HostRuntime) -> Result<(), Fail> {
    let alloc = rt.alloc();
    let mut script = Vec::from_slice(alloc, HEAD.as_bytes())?;
    for _ in 0..1_024 {
        script.extend_from_slice(b"task 1 0 0 query-task-set\n")?;
    }
    assert_eq!(rt; judge(alloc, script.as_slice())?, Exit::Done);
    script.extend_from_slice(b"task 1 0 0 query-task-set\n")?;
    assert_eq!(rt; judge(alloc, script.as_slice())?, fault(1_029, What::Limit));
    Ok(())
}

#[test]
fn adds_up_the_data(rt: HostRuntime) -> Result<(), Fail> {
    let alloc = rt.alloc();
    let mut script = Vec::from_slice(alloc, HEAD.as_bytes())?;
    for tag in 0..1_024 {
        let line = format!(in alloc; "cmd 1 0 0 {tag} simple 000000000000 5a*131072\n")?;
        script.extend_from_slice(line.as_bytes())?;
    }
    assert_eq!(rt; judge(alloc, script.as_slice())?, Exit::Done);
    script.extend_from_slice(b"cmd 1 0 0 0 simple 000000000000 5a\n")?;
    assert_eq!(rt; judge(alloc, script.as_slice())?, fault(1_029, What::Limit));
    Ok(())
}

#[test]
fn counts_the_blocks_of_unmaps(rt: HostRuntime) -> Result<(), Fail> {
    let alloc = rt.alloc();
    let head = "lun 0 blocks 65536\nport 0 a\nmap 1 0 0 0\n";
    let mut script = Vec::from_slice(alloc, head.as_bytes())?;
    // all blocks, four times; the block behind the last, which isn't accepted; the first block
    let lists = [
        (1, "00*8.00010000", Exit::Done),
        (2, "00*8.00010000", Exit::Done),
        (3, "00*8.00010000", Exit::Done),
        (4, "00*8.00010000", Exit::Done),
        (5, "00*5.010000.00000001", Exit::Done),
        (6, "00*8.00000001", fault(9, What::Limit)),
    ];
    for (tag, range, exit) in lists {
        let line = format!(in alloc;
            "cmd 1 0 0 {tag} simple 42000000000000001800 0016001000000000.{range}.00*4\n"
        )?;
        script.extend_from_slice(line.as_bytes())?;
        assert_eq!(rt; judge(alloc, script.as_slice())?, exit, "at {tag}");
    }
    Ok(())
}

#[test]
fn judges_the_length_of_data(rt: HostRuntime) -> Result<(), Fail> {
    let alloc = rt.alloc();
    let cases = [
        // the most DATA, of which the first block is asked for
        ("1", "5a*131072", Exit::Done),
        ("1", "5a*131071.5b", Exit::Done),
        ("1", "5a*131073", fault(5, What::Limit)),
        ("1", "5a*131072.5b", fault(5, What::Limit)),
        ("1", "5a5a.5a*131071", fault(5, What::Limit)),
        (
            "1",
            "5a*99999999999999999999999999.5b*9",
            fault(5, What::Limit),
        ),
        // form and name are told before the limit
        ("1", "5a*131073.5", fault(5, What::Form)),
        ("1", "5a*131073.5a*0", fault(5, What::Form)),
        ("1", "5a*131073 5a", fault(5, What::Form)),
        ("2", "5a*131073", fault(5, What::Name)),
    ];
    for (init, data, exit) in cases {
        let script = format!(in alloc;
            "{HEAD}cmd {init} 0 0 1 simple 2a000000000000000100 {data}\n"
        )?;
        assert_eq!(rt; judge(alloc, script.as_bytes())?, exit, "at {data}");
    }
    // in pairs of digits
    let mut script = Vec::from_slice(alloc, HEAD.as_bytes())?;
    script.extend_from_slice(b"cmd 1 0 0 1 simple 2a000000000000000100 ")?;
    for _ in 0..131_073 {
        script.extend_from_slice(b"5a")?;
    }
    script.extend_from_slice(b"\n")?;
    assert_eq!(rt; judge(alloc, script.as_slice())?, fault(5, What::Limit));
    Ok(())
}

#[test]
fn judges_the_length_of_a_script(rt: HostRuntime) -> Result<(), Fail> {
    let alloc = rt.alloc();
    let mut script = vec![in alloc; b'x'; 8_388_608]?;
    assert_eq!(rt; judge(alloc, script.as_slice())?, fault(1, What::Form));
    script.push(b'x')?;
    assert_eq!(rt; judge(alloc, script.as_slice())?, Exit::TooLong);
    Ok(())
}

#[test]
fn tells_each_read_fault(rt: HostRuntime) -> Result<(), Fail> {
    for script in [EMPTY_DISK, HEAD, WRITE_THEN_READ] {
        let reads = script.len().div_ceil(16) as u64 + 1;
        for call in 0..reads + 1 {
            let fails = [call];
            let streams = Streams {
                source_most: 16,
                source_fails: &fails,
                ..PLAIN
            };
            let (served, held) = serve(rt.alloc(), &["play"], script.as_bytes(), streams)?;
            if call < reads {
                assert_eq!(rt;
                    served,
                    Outcome {
                        exit: Exit::Read,
                        sent: 0,
                        units: 0
                    },
                    "at call {call}"
                );
                assert!(rt; held.is_empty());
            } else {
                assert_eq!(rt; served, done(held.len()), "at call {call}");
            }
        }
    }
    Ok(())
}

#[test]
fn tells_each_write_fault(rt: HostRuntime) -> Result<(), Fail> {
    for script in [EMPTY_DISK, HEAD, WRITE_THEN_READ] {
        let (_, text) = play(rt.alloc(), script.as_bytes())?;
        let writes = text.len().div_ceil(8);
        for call in 0..writes + 1 {
            let fails = [call as u64];
            let streams = Streams {
                sink_most: 8,
                sink_fails: &fails,
                ..PLAIN
            };
            let (served, held) = serve(rt.alloc(), &["play"], script.as_bytes(), streams)?;
            if call < writes {
                let sent = 8 * call;
                assert_eq!(rt;
                    served,
                    Outcome {
                        exit: Exit::Write,
                        sent: sent as u64,
                        units: 1
                    },
                    "at call {call}"
                );
                assert_eq!(rt;
                    Some(held.as_slice()),
                    text.as_slice().get(..sent),
                    "at call {call}"
                );
            } else {
                assert_eq!(rt; served, done(text.len()), "at call {call}");
            }
        }
    }
    Ok(())
}

#[test]
fn reads_in_any_pieces(rt: HostRuntime) -> Result<(), Fail> {
    for most in [1, 2, 7, 100, AT_ONCE] {
        let streams = Streams {
            source_most: most,
            sink_most: most,
            ..PLAIN
        };
        let (served, held) = serve(rt.alloc(), &["play"], WRITE_THEN_READ.as_bytes(), streams)?;
        let report = b"report 1\nlun 0\ncame 1 a 5\nin 1\ncame 2 a 6\nin 2\n\
            ended 1 CHECK CONDITION sense 700006000000000a00000000290100000000\n\
            ended 2 CHECK CONDITION sense 700006000000000a00000000290100000000\n\
            came 3 a 8\nin 3\ncame 4 a 9\nin 4\nbegun 3\nmoved 3 1\nended 3 GOOD\n\
            begun 4\nmoved 4 1\nended 4 GOOD data a5*512\ndisk 0 0 a5*512\ndone\n";
        assert_eq!(rt; served, done(report.len()), "in pieces of {most}");
        assert_eq!(rt; held.as_slice(), report.as_slice(), "in pieces of {most}");
    }
    Ok(())
}
