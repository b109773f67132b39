//! Laws of pools. Each function does nothing, and its contract is the law.
ghost use Rattle.std.specs.Prelude.{◌≡◌, ℕ, Some};
ghost use Rattle.mls_tilepool.specs.Pools.{Pool, tile_at};
ghost use Rattle.mls_tilepool.specs.declared.tile.Tile.{Tile};

/// No tile is under two owners: where two owners have a tile under one key, they are one owner.
#[tactic(auto, using(crate::proofs::TileLists::tile_has_one_owner))]
pub fn tile_has_one_owner()
    ensures { (pool : Pool) (first second key : ℕ) (tile other : Tile)
        → tile_at pool first key ≡ Some tile → tile_at pool second key ≡ Some other → first ≡ second }
{}
