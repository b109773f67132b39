//! Technologies.
ghost use Rattle.std.specs.Prelude.{◌≡◌, ◌<◌, ◌≤◌, All, length, IfOk, IfSome, option_copied};
ghost use Rattle.mls_tech.specs.Readings.{HasNames};
ghost use Rattle.mls_tech.specs.Readings as spec;
ghost use Rattle.mls_text.specs.Lines.{IsUnbroken};

mod file;
mod lines;
mod type_sets;

use crate::name_table::NameTable;
use crate::{RuleLine, Skipped};
use mls_kinds::{Kind, PlaneNumber};
use mls_text::Word;
use std::alloc::{AllocError, Global};
use std::marker::Model;

/// A technology: its planes, its types and its rule lines, as a technology file states them.
pub struct Tech {
    name: Option<Word>,
    planes: NameTable,
    plane_count: u8,
    types: NameTable,
    /// The planes of the types from type 1 on.
    type_planes: Vec<PlaneNumber>,
    rules: Vec<RuleLine>,
    skipped: Vec<Skipped>,
}

impl Model for Tech {
    ghost use Rattle.mls_tech.specs.Readings.{Tech, IsWellFormed};

    ghost Value = { Tech };

    ghost view = { λ tech. record {
      name = tech.name;
      planes = tech.planes;
      plane_count = tech.plane_count;
      types = tech.types;
      type_planes = tech.type_planes.items;
      rules = tech.rules.items;
      skipped = tech.skipped.items;
    } };

    ghost invariant = { λ tech.
        IsWellFormed tech.name tech.planes tech.plane_count tech.types tech.type_planes.items };
}

// Written out, so that what a technology's end drops is proved here, and not in each crate that lets one go.
impl Drop for Tech {
    fn drop(self) {
        let Tech {
            name: _name,
            planes: _planes,
            plane_count: _,
            types: _types,
            type_planes: _type_planes,
            rules: _rules,
            skipped: _skipped,
        } = self;
    }
}

impl Tech {
    /// Creates the technology of a file without lines, whose only type is `space`.
    fn new(alloc: Global) -> Result<Tech, AllocError>
        ensures { IfOk result (λ tech. tech ≡ spec.nothing_read) }
    {
        let mut types = NameTable::new(alloc);
        types.add(alloc, b"space", 0)?;
        Ok(Tech {
            name: None,
            planes: NameTable::new(alloc),
            plane_count: 0,
            types,
            type_planes: Vec::new(alloc),
            rules: Vec::new(alloc),
            skipped: Vec::new(alloc),
        })
    }

    /// Returns the technology's name, if the file has one.
    pub fn name(&self) -> Option<&[u8]>
        ensures value { option_copied result ≡ self.now.name }
        ensures unbroken { IfSome result (λ name. IsUnbroken name.now) }
    {
        self.name.as_ref().map(|name| name.as_slice())
    }

    /// Returns the type with this name. Type 0 is `space`.
    pub fn type_of(&self, name: &[u8]) -> Option<Kind>
        ensures value { result ≡ spec.number_named self.now.types name.now }
        ensures known { IfSome result (λ kind. kind ≤ length self.now.type_planes) }
        ensures small { IfSome result (λ kind. kind < 64) }
    {
        let number = self.types.number_of(name)?;
        Some(Kind::new(number))
    }

    /// Returns the plane with this name.
    pub(crate) fn plane_named(&self, name: &[u8]) -> Option<PlaneNumber>
        ensures value { result ≡ spec.number_named self.now.planes name.now }
        ensures known { IfSome result (λ plane. plane < self.now.plane_count) }
    {
        let number = self.planes.number_of(name)?;
        Some(PlaneNumber::new(number))
    }

    /// Returns the first name of a type.
    pub fn type_name(&self, kind: Kind) -> Option<&[u8]>
        ensures { option_copied result ≡ spec.name_of self.now.types kind }
    {
        self.types.name_of(kind.number())
    }

    /// Returns the shortest name of a type, the first of that length.
    pub fn short_type_name(&self, kind: Kind) -> Option<&[u8]>
        ensures { option_copied result ≡ spec.short_name_of self.now.types kind }
    {
        self.types.short_name_of(kind.number())
    }

    /// Returns the plane of a type; `space` has none of its own.
    pub fn plane_of(&self, kind: Kind) -> Option<PlaneNumber>
        ensures value { result ≡ spec.plane_of_type self.now.type_planes kind }
        ensures known { IfSome result (λ plane. plane < self.now.plane_count) }
    {
        let index = usize::from(kind.number()).checked_sub(1)?;
        self.type_planes.get(index).copied()
    }

    /// Returns the number of planes, which are numbered from 0.
    pub fn planes(&self) -> usize
        ensures value { result ≡ self.now.plane_count }
        ensures limit { result ≤ 4 }
    {
        usize::from(self.plane_count)
    }

    /// Returns the number of types besides `space`, which are numbered from 1.
    pub fn types(&self) -> usize
        ensures value { result ≡ length self.now.type_planes }
        ensures limit { result ≤ 63 }
        ensures named { HasNames self.now.types self.now.type_planes }
        ensures within { All (λ entry. entry.1 ≤ length self.now.type_planes) self.now.types }
        ensures unbroken { IfSome self.now.name IsUnbroken }
    {
        self.type_planes.len()
    }

    /// Returns the lines that state rules, in the order of the file.
    pub fn lines(&self) -> &[RuleLine]
        ensures { result.now ≡ self.now.rules }
    {
        self.rules.as_slice()
    }

    /// Returns the lines of the section `drc` that were skipped, in the order of the file.
    pub fn skipped(&self) -> &[Skipped]
        ensures { result.now ≡ self.now.skipped }
    {
        self.skipped.as_slice()
    }

    /// Returns why rule `n` is there, from 1.
    pub fn why(&self, n: usize) -> Option<&[u8]>
        ensures { option_copied result ≡ spec.why_of self.now.rules n }
    {
        let line = self.rules.get(n.checked_sub(1)?)?;
        Some(line.why.as_slice())
    }
}
