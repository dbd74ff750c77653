ghost use Rattle.std.specs.Prelude.{◌≡◌, ℕ, ◌<◌, length};

use super::*;
use ct_word::{Block, Failed};
use std::test::Fail;

// Puts a block of these bytes at a place, reads it back, and hands out what stood there.
fn put<B: Backend>(
    medium: &mut B,
    lba: u32,
    byte: u8,
    block: &mut Block,
    into: &mut [u8; 512],
) -> Result<(), Failed>
    requires { lba < length (B.blocks medium.old) }
{
    block.fill(&[byte; 512]);
    medium.swap(lba, block)?;
    medium.get(lba, into)
}

#[test]
fn swaps_and_gets_at_both_ends(rt: HostRuntime) -> Result<(), Fail> {
    let alloc = rt.alloc();
    let mut ram = Ram::open(alloc, 3)?;
    assert_eq!(rt; ram.len(), 3);
    let mut block = Block::zeros(alloc)?;
    let mut into = [9; 512];
    for (lba, byte) in [(0, 7), (2, 8)] {
        assert!(rt; lba < ram.len());
        put(&mut ram, lba, byte, &mut block, &mut into)?;
        assert_eq!(rt; into, [byte; 512], "at {lba}");
        assert_eq!(rt; *block.bytes(), [0; 512], "at {lba}");
    }
    assert!(rt; 3 <= ram.len());
    assert_eq!(rt; *ram.block(0), [7; 512]);
    assert_eq!(rt; *ram.block(1), [0; 512]);
    assert_eq!(rt; *ram.block(2), [8; 512]);
    Ok(())
}

#[test]
fn keeps_each_block_apart(rt: HostRuntime) -> Result<(), Fail> {
    let alloc = rt.alloc();
    let mut ram = Ram::open(alloc, 4)?;
    let mut block = Block::zeros(alloc)?;
    for (lba, byte, before) in [
        (3, 1, 0),
        (1, 2, 0),
        (3, 3, 1),
        (0, 4, 0),
        (1, 5, 2),
        (3, 0, 3),
    ] {
        assert!(rt; lba < ram.len());
        block.fill(&[byte; 512]);
        assert_eq!(rt; ram.swap(lba, &mut block), Ok(()));
        assert_eq!(rt; *block.bytes(), [before; 512], "at {lba}");
    }
    for (lba, byte, is_written) in [(0, 4, true), (1, 5, true), (2, 0, false), (3, 0, true)] {
        assert!(rt; lba < ram.len());
        assert_eq!(rt; *ram.block(lba), [byte; 512], "at {lba}");
        assert_eq!(rt; ram.is_written(lba), is_written, "at {lba}");
        let mut into = [9; 512];
        assert_eq!(rt; ram.get(lba, &mut into), Ok(()));
        assert_eq!(rt; into, [byte; 512], "at {lba}");
    }
    Ok(())
}

#[test]
fn fails_at_the_listed_calls_alone(rt: HostRuntime) -> Result<(), Fail> {
    let alloc = rt.alloc();
    let mut medium = FaultyRam::open(alloc, 2, [1, 2].to_vec(alloc)?)?;
    let mut block = Block::zeros(alloc)?;
    let mut into = [9; 512];
    assert!(rt; 1 < medium.len());
    block.fill(&[7; 512]);
    assert_eq!(rt; medium.swap(1, &mut block), Ok(()));
    block.fill(&[8; 512]);
    assert_eq!(rt; medium.swap(1, &mut block), Err(Failed));
    assert_eq!(rt; *block.bytes(), [8; 512]);
    assert_eq!(rt; medium.get(1, &mut into), Err(Failed));
    assert_eq!(rt; into, [9; 512]);
    put(&mut medium, 0, 6, &mut block, &mut into)?;
    assert_eq!(rt; into, [6; 512]);
    assert_eq!(rt; medium.len(), 2);
    assert_eq!(rt; *medium.block(1), [7; 512]);
    Ok(())
}
