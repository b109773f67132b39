//! What the lines of each section add to a technology. A technology with a fault isn't read further.
ghost use Rattle.std.specs.Prelude.{◌≡◌, Ok, OnOk};
ghost use Rattle.mls_tech.specs.Inner.Gives.{GivesUnlessMemory};
ghost use Rattle.mls_tech.specs.Readings as spec;
ghost use Rattle.mls_text.specs.Lines.{IsUnbroken};
ghost use Rattle.mls_text.specs.Words.{words_of};
ghost use Rattle.mls_tech.specs.declared.section.Section.TheVariants.{Drc};

use super::Tech;
use crate::drc_line::{DrcLine, drc_line};
use crate::fault::Taken;
use crate::file_lines::{FileLines, is_end};
use crate::name_kind::NameKind;
use crate::name_table::NameTable;
use crate::section::Section;
use crate::{Rule, RuleLine, Skipped, TechFaultKind};
use mls_text::{Word, Words};
use std::alloc::{AllocError, Global};
use std::mem;

/// The largest number of planes.
const MAX_PLANES: u8 = 4;

/// The largest number of types besides `space`.
const MAX_TYPES: u8 = 63;

impl Tech {
    /// Reads the current line of the file, which is outside a section or inside one, and returns
    /// the section that the next line is in.
    #[tactic(auto, unfolding(crate::specs::Readings::read_line))]
    pub(super) fn read_line(
        &mut self,
        alloc: Global,
        inside: Option<Section>,
        number: usize,
        lines: &FileLines<'_>,
    ) -> Result<Option<Section>, TechFaultKind>
        requires unbroken { IsUnbroken lines.now.line }
        ensures { GivesUnlessMemory (λ next. (next, self.new)) result
            (spec.read_line inside self.old (record { line = number; bytes = lines.now.line }) lines.now.ahead) }
    {
        let Some(section) = inside else {
            if !lines.end_is_ahead(alloc)? {
                return Err(TechFaultKind::NoEnd);
            }
            return Ok(Some(Section::named(first_word(lines.line()))));
        };
        if is_end(lines.line()) {
            return Ok(None);
        }
        self.section_line(alloc, section, number, lines.line())?;
        Ok(Some(section))
    }

    /// Reads a line of a section.
    #[tactic(auto, unfolding(crate::specs::Readings::section_line))]
    fn section_line(&mut self, alloc: Global, section: Section, number: usize, line: &[u8]) -> Taken
        requires unbroken { IsUnbroken line.now }
        ensures { GivesUnlessMemory (λ _. self.new) result
            (spec.section_line section self.old (record { line = number; bytes = line.now })) }
    {
        match section {
            Section::Tech => Ok(self.tech_line(alloc, line)?),
            Section::Planes => self.planes_line(alloc, line),
            Section::Types => self.types_line(alloc, line),
            Section::Drc => self.drc_section_line(alloc, number, line),
            Section::Other => Ok(()),
        }
    }

    /// Reads a line of the section `tech`: the first word other than `format` is the name.
    #[tactic(auto, unfolding(crate::specs::Readings::tech_line))]
    fn tech_line(&mut self, alloc: Global, line: &[u8]) -> Result<(), AllocError>
        requires unbroken { IsUnbroken line.now }
        ensures { OnOk result (spec.tech_line self.old (words_of line.now) ≡ Ok self.new) }
    {
        let Some(word) = Words::new(line).next() else {
            return Ok(());
        };
        if self.name.is_none() && word != b"format".as_slice() {
            self.name = Some(Word::from_slice(alloc, word)?);
        }
        Ok(())
    }

    /// Reads a line of the section `planes`: the names of one plane. At a fault no plane has a name.
    #[tactic(auto, unfolding(crate::specs::Readings::planes_line))]
    fn planes_line(&mut self, alloc: Global, line: &[u8]) -> Taken
        ensures { GivesUnlessMemory (λ _. self.new) result (spec.planes_line self.old (words_of line.now)) }
    {
        let mut words = Words::new(line);
        let (Some(names), None) = (words.next(), words.next()) else {
            return Err(TechFaultKind::BadForm);
        };
        let mut planes = mem::replace(&mut self.planes, NameTable::new(alloc));
        planes.add_names(alloc, NameKind::PlaneName, self.plane_count, names)?;
        if self.plane_count >= MAX_PLANES {
            return Err(TechFaultKind::Limit);
        }
        self.planes = planes;
        self.plane_count += 1;
        Ok(())
    }

    /// Reads a line of the section `types`: a plane, and the names of one type on it. At a fault no type is left, so
    /// that none is without a name.
    #[tactic(auto, unfolding(crate::specs::Readings::types_line))]
    fn types_line(&mut self, alloc: Global, line: &[u8]) -> Taken
        ensures { GivesUnlessMemory (λ _. self.new) result (spec.types_line self.old (words_of line.now)) }
    {
        let mut words = Words::new(line);
        let (Some(plane), Some(names), None) = (words.next(), words.next(), words.next()) else {
            return Err(TechFaultKind::BadForm);
        };
        let plane = self
            .plane_named(without_dash(plane))
            .ok_or(TechFaultKind::UnknownPlane)?;
        let kind = self.kinds();
        let mut types = mem::replace(&mut self.types, NameTable::new(alloc));
        let mut type_planes = mem::replace(&mut self.type_planes, Vec::new(alloc));
        types.add_names(alloc, NameKind::TypeName, kind, names)?;
        if kind > MAX_TYPES {
            return Err(TechFaultKind::Limit);
        }
        type_planes.push(plane)?;
        self.types = types;
        self.type_planes = type_planes;
        Ok(())
    }

    /// Reads a line of the section `drc`.
    #[tactic(auto, unfolding(crate::specs::Readings::section_line))]
    fn drc_section_line(&mut self, alloc: Global, number: usize, line: &[u8]) -> Taken
        ensures { GivesUnlessMemory (λ _. self.new) result
            (spec.section_line Drc self.old (record { line = number; bytes = line.now })) }
    {
        match drc_line(alloc, self, line) {
            Ok(DrcLine::States(rule, why)) => Ok(self.add_rule(alloc, number, rule, why)?),
            Ok(DrcLine::Skips(keyword)) => Ok(self.add_skipped(alloc, number, keyword)?),
            Err(kind) => Err(kind),
        }
    }

    /// Adds a rule line.
    fn add_rule(
        &mut self,
        alloc: Global,
        line: usize,
        rule: Rule,
        why: &[u8],
    ) -> Result<(), AllocError>
        ensures { OnOk result (self.new ≡ spec.add_rule self.old line rule why.now) }
    {
        let why = Word::from_slice(alloc, why)?;
        self.rules.push(RuleLine { line, rule, why })?;
        Ok(())
    }

    /// Adds a skipped line.
    fn add_skipped(&mut self, alloc: Global, line: usize, keyword: &[u8]) -> Result<(), AllocError>
        ensures { OnOk result (self.new ≡ spec.add_skipped self.old line keyword.now) }
    {
        let keyword = Word::from_slice(alloc, keyword)?;
        self.skipped.push(Skipped { line, keyword })?;
        Ok(())
    }
}

/// Returns the first word of a line, or no bytes where it has none.
fn first_word(line: &[u8]) -> &[u8]
    ensures { result.now ≡ spec.first_word (words_of line.now) }
{
    Words::new(line).next().unwrap_or(b"")
}

/// Returns the word without a leading dash.
fn without_dash(word: &[u8]) -> &[u8]
    ensures { result.now ≡ spec.without_dash word.now }
{
    word.strip_prefix(b"-").unwrap_or(word)
}
