//! Reserves of a pool.
ghost use Rattle.std.specs.Prelude.{ℕ, ◌≤◌, IfOk};
ghost use Rattle.mls_tilepool.specs.Pools.{IsOwner};

use mls_tilepool::{NoRoom, Owner, Pool, PoolFull};
use std::process::Abort;
use std::test::Fail;

#[test]
fn refusals_in_words(rt: HostRuntime) -> Result<(), Fail> {
    assert_eq!(rt; format!(in rt.alloc(); "{PoolFull}")?.as_str(), "pool full");
    assert_eq!(rt; format!(in rt.alloc(); "{NoRoom}")?.as_str(), "no room");
    Ok(())
}

/// Reserves room for tiles.
fn reserve(pool: &mut Pool, tiles: u32) -> Result<Owner, PoolFull>
    requires { 1 ≤ tiles }
    ensures owner { IfOk result (λ owner. IsOwner pool.new owner) }
    ensures others { (other : ℕ) → IsOwner pool.old other → IsOwner pool.new other }
{
    pool.reserve(tiles)
}

/// Asserts that two reserves of five fill a pool of ten, and that one of them can be given back.
fn expect_two_halves(rt: &impl Abort, pool: &mut Pool) -> Result<(), PoolFull> {
    let first = reserve(pool, 5)?;
    let _second = reserve(pool, 5)?;
    assert_eq!(rt; pool.unreserved(), 0);
    assert_eq!(rt; reserve(pool, 1).err(), Some(PoolFull));
    pool.release(first);
    assert_eq!(rt; pool.unreserved(), 5);
    assert!(rt; reserve(pool, 5).is_ok());
    Ok(())
}

#[test]
fn two_halves_fill_a_pool(rt: HostRuntime) -> Result<(), Fail> {
    let mut pool = Pool::new(rt.alloc(), 10)?;
    Ok(expect_two_halves(&rt, &mut pool)?)
}
