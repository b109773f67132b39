//! Lists of areas.
ghost use Rattle.std.specs.Prelude.{◌≡◌, ◌++◌, [], OnOk};

use mls_geom::Area;
use std::alloc::{AllocError, Global};
use std::marker::Model;

/// Areas in order, which may overlap.
#[derive(Drop)]
pub(crate) struct AreaList {
    areas: Vec<Area>,
}

impl Model for AreaList {
    ghost use Rattle.std.specs.Prelude.{List};
    ghost use Rattle.mls_geom.specs.Rects.{Rect};

    ghost Value = { List Rect };

    ghost view = { λ list. list.areas.items };
}

impl AreaList {
    /// Creates a list without areas.
    pub fn new(alloc: Global) -> AreaList
        ensures { result ≡ [] }
    {
        AreaList {
            areas: Vec::new(alloc),
        }
    }

    /// Returns the areas.
    pub fn as_slice(&self) -> &[Area]
        ensures { result.now ≡ self.now }
    {
        self.areas.as_slice()
    }

    /// Appends areas.
    pub fn extend(&mut self, areas: &[Area]) -> Result<(), AllocError>
        ensures { OnOk result (self.new ≡ self.old ++ areas.now) }
    {
        self.areas.extend_from_slice(areas)?;
        Ok(())
    }
}
