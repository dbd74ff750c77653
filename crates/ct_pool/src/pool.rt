ghost use Rattle.std.specs.Prelude.{◌≡◌, ◌↔◌, ◌-◌, ◌<◌, [], IfOk, IfSome, IsNone, IfNone, slice_index_or};
ghost use Rattle.std.specs.Borrow.{sem};
ghost use Rattle.ct_pool.specs.Leases.{blocks_of, leases_out, IsConserved, IsLeaseOf, Takes, Gives};

use crate::lease::Lease;
use crate::moves::move_blocks;
use ct_word::{Block, NoMemory, Reserve};
use slab::Slab;
use std::alloc::Global;
use std::marker::Model;

/// Blocks of 512 bytes, leased in parts. All its memory is taken when it is opened.
#[derive(Debug, Drop)]
pub struct Pool {
    size: u32,
    contexts: u32,
    free: Reserve<Block>,
    leased: Slab<Reserve<Block>>,
    // Empty lists with room for all blocks, one for each lease to come.
    spare: Reserve<Reserve<Block>>,
}

impl Model for Pool {
    ghost use Rattle.ct_pool.specs.Leases.{PoolState};
    ghost use Rattle.ct_pool.specs.Sound.{IsSound, state_of};

    ghost Value = { PoolState };

    ghost view = { λ p. state_of p.size p.contexts p.free p.leased };

    ghost invariant = { λ p. IsSound p.size p.contexts p.free p.leased p.spare };
}

impl Pool {
    ghost use Rattle.ct_pool.specs.Lends.{LendsBlock};

    /// A pool of so many blocks of zeros, for so many leases at once.
    pub fn open(alloc: Global, blocks: u32, contexts: u32) -> Result<Pool, NoMemory>
        ensures { IfOk result (λ pool. pool ≡ record { size = blocks; contexts = contexts; free = blocks; leases = [] }) }
    {
        let mut free = Reserve::open(alloc, blocks as usize)?;
        for _ in 0..blocks {
            free.push(Block::zeros(alloc)?);
        }
        let mut spare = Reserve::open(alloc, contexts as usize)?;
        for _ in 0..contexts {
            spare.push(Reserve::open(alloc, blocks as usize)?);
        }
        Ok(Pool {
            size: blocks,
            contexts,
            free,
            leased: Slab::with_capacity(alloc, contexts as usize)?,
            spare,
        })
    }

    /// How many blocks are free.
    pub fn free(&self) -> u32
        ensures value { result ≡ self.now.free }
        ensures conserved { IsConserved self.now }
    {
        self.free.len() as u32
    }

    /// How many more leases can be out.
    pub fn room(&self) -> u32
        ensures { result ≡ self.now.contexts - leases_out self.now }
    {
        self.spare.len() as u32
    }

    /// A lease of `k` blocks, which may hold any bytes; None where fewer are free.
    pub fn take(&mut self, k: u32) -> Option<Lease>
        requires { leases_out self.old < self.old.contexts }
        ensures taken { IfSome result (Takes self.old self.new k) }
        ensures refused { IsNone result ↔ (self.old.free < k) }
        ensures unchanged { IfNone result (self.new ≡ self.old) }
    {
        if self.free.len() < k as usize {
            return None;
        }
        match self.spare.pop() {
            Some(mut blocks) => {
                move_blocks(&mut self.free, &mut blocks, k);
                let key = self.leased.insert_reserved(blocks);
                Some(Lease { key, count: k })
            }
            None => unreachable!(),
        }
    }

    /// A block of a lease, from 0.
    pub fn block(&mut self, l: &Lease, i: u32) -> &mut Block
        requires lease { IsLeaseOf self.old l.now }
        requires within { i < l.now.count }
        ensures* writes_back { sem 𝓛 (LendsBlock self.entry l.now i result) }
        ensures value { result.now ≡ slice_index_or (blocks_of self.old l.now) i [] }
    {
        let blocks = &mut self.leased[l.key];
        blocks.item_mut(i as usize)
    }

    /// Takes a lease back, and its blocks are free again.
    pub fn give(&mut self, l: Lease)
        requires { IsLeaseOf self.old l }
        ensures { Gives self.old self.new l }
    {
        let Lease { key, count } = l;
        let mut blocks = self.leased.remove(key);
        move_blocks(&mut blocks, &mut self.free, count);
        self.spare.push(blocks);
    }
}
