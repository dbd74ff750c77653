ghost use Rattle.std.specs.Prelude.{◌≡◌, ◌<◌, length};
ghost use Rattle.ct_pool.specs.Leases.{leases_out};

use super::*;
use std::test::Fail;

// Takes a lease of so many blocks and gives it back.
fn is_taken_and_given(pool: &mut Pool, k: u32) -> bool
    requires { leases_out pool.old < pool.old.contexts }
{
    match pool.take(k) {
        Some(lease) => {
            let is_whole = lease.count() == k;
            pool.give(lease);
            is_whole
        }
        None => false,
    }
}

// More is asked than is free.
fn is_refused(pool: &mut Pool, k: u32) -> bool
    requires room { leases_out pool.old < pool.old.contexts }
    requires few { pool.old.free < k }
    ensures { pool.new ≡ pool.old }
{
    match pool.take(k) {
        Some(lease) => {
            pool.give(lease);
            false
        }
        None => true,
    }
}

#[test]
fn leases_what_is_free(rt: HostRuntime) -> Result<(), Fail> {
    let mut pool = Pool::open(rt.alloc(), 4, 2)?;
    assert!(rt; pool.room() == 2);
    let all = pool.take(4).expect(&rt, "four blocks are free");
    assert_eq!(rt; all.count(), 4);
    assert!(rt; pool.free() == 0);
    assert!(rt; pool.room() == 1);
    assert!(rt; is_refused(&mut pool, 1));
    pool.give(all);
    assert_eq!(rt; pool.free(), 4);
    assert!(rt; pool.room() == 2);
    assert!(rt; is_taken_and_given(&mut pool, 0));
    assert!(rt; pool.room() == 2);
    assert!(rt; is_taken_and_given(&mut pool, 4));
    Ok(())
}

#[test]
fn keeps_leases_apart(rt: HostRuntime) -> Result<(), Fail> {
    let mut pool = Pool::open(rt.alloc(), 4, 2)?;
    let one = pool.take(2).expect(&rt, "four blocks are free");
    let other = pool.take(2).expect(&rt, "two blocks are free");
    pool.block(&one, 1).fill(&[1; 512]);
    pool.block(&other, 1).fill(&[2; 512]);
    assert_eq!(rt; *pool.block(&one, 1).bytes(), [1; 512]);
    assert_eq!(rt; *pool.block(&other, 1).bytes(), [2; 512]);
    pool.give(other);
    pool.give(one);
    assert_eq!(rt; pool.free(), 4);
    Ok(())
}
