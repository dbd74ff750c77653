ghost use Rattle.std.specs.Prelude.{◌≡◌, ◌<◌, [], length, slice_index_or, IfOk};
ghost use Rattle.ct_medium.specs.Faulty.{opening_medium, Gets, Swaps};

use crate::call_log::CallLog;
use crate::{Backend, Ram};
use ct_word::{Block, Failed, NoMemory};
use std::alloc::Global;
use std::marker::Model;

/// A medium in memory, whose calls fail as a list says.
#[derive(Debug, Drop)]
pub struct FaultyRam {
    ram: Ram,
    log: CallLog,
}

impl Model for FaultyRam {
    ghost use Rattle.ct_medium.specs.Faulty.{FaultyState};

    ghost Value = { FaultyState };

    ghost view = { λ m. record { blocks = m.ram; calls = m.log } };
}

impl FaultyRam {
    /// So many blocks of zeros. The calls of `get` and `swap` with the numbers in `fails`, from 0, fail.
    pub fn open(alloc: Global, blocks: u32, fails: Vec<u64>) -> Result<FaultyRam, NoMemory>
        ensures { IfOk result (λ m. m ≡ opening_medium blocks fails.items) }
    {
        Ok(FaultyRam {
            ram: Ram::open(alloc, blocks)?,
            log: CallLog::new(fails),
        })
    }

    pub fn block(&self, lba: u32) -> &[u8; 512]
        requires { lba < length self.now.blocks }
        ensures { result.now ≡ slice_index_or self.now.blocks lba [] }
    {
        self.ram.block(lba)
    }
}

impl Backend for FaultyRam {
    ghost use Rattle.std.specs.Prelude.{ℕ};

    ghost blocks = { λ m. m.blocks };

    ghost faults = { λ m. m.calls.faults };

    fn len(&self) -> u32
        ensures { result ≡ length self.now.blocks }
    {
        self.ram.len()
    }

    fn get(&mut self, lba: u32, into: &mut [u8; 512]) -> Result<(), Failed>
        requires { lba < length self.old.blocks }
        ensures { Gets self.old self.new lba into.old into.new result }
    {
        self.log.call()?;
        self.ram.get(lba, into)
    }

    fn swap(&mut self, lba: u32, block: &mut Block) -> Result<(), Failed>
        requires { lba < length self.old.blocks }
        ensures { Swaps self.old self.new lba block.old block.new result }
    {
        self.log.call()?;
        self.ram.swap(lba, block)
    }
}
