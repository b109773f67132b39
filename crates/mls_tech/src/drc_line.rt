//! The lines of the section `drc`.
ghost use Rattle.std.specs.Prelude.{◌≡◌, ◌≤◌, All};
ghost use Rattle.mls_tech.specs.DrcLines as spec;
ghost use Rattle.mls_tech.specs.Inner.DrcViews.{edge_rule, said, word_bytes};
ghost use Rattle.mls_tech.specs.Inner.Gives.{Gives, GivesUnlessMemory};
ghost use Rattle.mls_tech.specs.Inner.ListReaders as lists;
ghost use Rattle.mls_tech.specs.Readings.{scope_of};

use crate::drc_words::drc_words;
use crate::list_reader::{ListReader, openings};
use crate::number::number_in;
use crate::{Adjacency, Edge, Rule, Tech, TechFaultKind};
use mls_kinds::PlaneNumber;
use std::alloc::Global;

/// The largest distance that a rule may have, in squares.
const DISTANCE_LIMIT: u8 = 100;

/// A line of the section `drc`.
#[derive(Clone, Copy)]
pub(crate) enum DrcLine<'a> {
    /// A rule, and why it is there.
    States(Rule, &'a [u8]),
    /// The keyword of a line that is skipped.
    Skips(&'a [u8]),
}

/// What a line is, or its first fault.
type Read<'a> = Result<DrcLine<'a>, TechFaultKind>;

/// Reads a line, or returns its first fault.
#[tactic(auto, unfolding(crate::specs::DrcLines::drc_line))]
pub(crate) fn drc_line<'a>(alloc: Global, tech: &Tech, line: &'a [u8]) -> Read<'a>
    ensures { GivesUnlessMemory said result (spec.drc_line (scope_of tech.now) line.now) }
{
    let Some(words) = drc_words(alloc, line)? else {
        return Err(TechFaultKind::BadForm);
    };
    let Some((keyword, words)) = words.split_first() else {
        return Ok(DrcLine::Skips(&[]));
    };
    let lists = ListReader::new(alloc, most_openings(words))?;
    RuleReader { tech, lists }.line(keyword, words)
}

/// Returns the largest number of opening parentheses in one of the words.
fn most_openings(words: &[&[u8]]) -> usize
    ensures { All (λ word. lists.openings word.now ≤ result) words.now }
{
    let mut most = 0;
    for word in words {
        most = openings(word).max(most);
    }
    most
}

/// In how many directions the edges of a line lie.
#[derive(Clone, Copy)]
enum Directions {
    Two,
    Four,
}

impl Directions {
    /// Returns the rule that an edge states.
    fn rule(self, edge: Edge) -> Rule
        ensures { result ≡ edge_rule self edge }
    {
        match self {
            Directions::Two => Rule::Edge(edge),
            Directions::Four => Rule::Edge4Way(edge),
        }
    }
}

/// A reader of rule lines with the types and planes of a technology.
#[derive(Drop)]
struct RuleReader<'t> {
    tech: &'t Tech,
    lists: ListReader,
}

#[tactic(auto, unfolding(crate::specs::DrcLines::width_line, crate::specs::DrcLines::spacing_line))]
impl<'t> RuleReader<'t> {
    /// Reads a keyword and the words after it.
    #[tactic(auto, unfolding(crate::specs::DrcLines::keyword_line))]
    fn line<'a>(&mut self, keyword: &'a [u8], words: &[&'a [u8]]) -> Read<'a>
        requires fits { All (λ word. lists.openings word.now ≤ self.old.lists.room) words.now }
        ensures { Gives said result
            (spec.keyword_line (scope_of self.old.tech.now) keyword.now (word_bytes words.now)) }
    {
        if keyword == b"width".as_slice() {
            self.width(words)
        } else if keyword == b"spacing".as_slice() {
            self.spacing(words)
        } else if keyword == b"edge".as_slice() {
            self.edge(Directions::Two, words)
        } else if keyword == b"edge4way".as_slice() {
            self.edge(Directions::Four, words)
        } else {
            Ok(DrcLine::Skips(keyword))
        }
    }

    /// Reads the words after `width`.
    fn width<'a>(&mut self, words: &[&'a [u8]]) -> Read<'a>
        requires fits { All (λ word. lists.openings word.now ≤ self.old.lists.room) words.now }
        ensures { Gives said result (spec.width_line (scope_of self.old.tech.now) (word_bytes words.now)) }
    {
        let [types, distance, why] = words else {
            return Err(TechFaultKind::BadForm);
        };
        let types = self.lists.read(self.tech, types)?;
        let distance = number_in(1, DISTANCE_LIMIT, distance)?;
        Ok(DrcLine::States(Rule::Width(types, distance), why))
    }

    /// Reads the words after `spacing`.
    fn spacing<'a>(&mut self, words: &[&'a [u8]]) -> Read<'a>
        requires fits { All (λ word. lists.openings word.now ≤ self.old.lists.room) words.now }
        ensures { Gives said result (spec.spacing_line (scope_of self.old.tech.now) (word_bytes words.now)) }
    {
        let [types1, types2, distance, adjacency, why, more @ ..] = words else {
            return Err(TechFaultKind::BadForm);
        };
        let Some(adjacency) = adjacency_of(adjacency) else {
            return Ok(DrcLine::Skips(b"spacing"));
        };
        if !more.is_empty() {
            return Err(TechFaultKind::BadForm);
        }
        let types1 = self.lists.read(self.tech, types1)?;
        let types2 = self.lists.read(self.tech, types2)?;
        let distance = number_in(1, DISTANCE_LIMIT, distance)?;
        Ok(DrcLine::States(Rule::Spacing(types1, types2, distance, adjacency), why))
    }

    /// Reads the words after `edge` or `edge4way`.
    #[tactic(auto, unfolding(crate::specs::DrcLines::edge_line))]
    fn edge<'a>(&mut self, directions: Directions, words: &[&'a [u8]]) -> Read<'a>
        requires fits { All (λ word. lists.openings word.now ≤ self.old.lists.room) words.now }
        ensures { Gives said result
            (spec.edge_line (edge_rule directions) (scope_of self.old.tech.now) (word_bytes words.now)) }
    {
        match self.edge_words(words) {
            Ok((edge, why)) => Ok(DrcLine::States(directions.rule(edge), why)),
            Err(kind) => Err(kind),
        }
    }

    /// Reads the words of an edge, and returns it with why it is there.
    #[tactic(auto, unfolding(crate::specs::DrcLines::edge_words))]
    fn edge_words<'a>(&mut self, words: &[&'a [u8]]) -> Result<(Edge, &'a [u8]), TechFaultKind>
        requires fits { All (λ word. lists.openings word.now ≤ self.old.lists.room) words.now }
        ensures { Gives (λ edge. (edge.0, edge.1.now)) result
            (spec.edge_words (scope_of self.old.tech.now) (word_bytes words.now)) }
    {
        let [
            types1,
            types2,
            distance,
            ok_types,
            corner_types,
            corner_distance,
            why,
            more @ ..,
        ] = words
        else {
            return Err(TechFaultKind::BadForm);
        };
        if more.len() > 1 {
            return Err(TechFaultKind::BadForm);
        }
        let edge = Edge {
            types1: self.lists.read(self.tech, types1)?,
            types2: self.lists.read(self.tech, types2)?,
            distance: number_in(1, DISTANCE_LIMIT, distance)?,
            ok_types: self.lists.read(self.tech, ok_types)?,
            corner_types: self.lists.read(self.tech, corner_types)?,
            corner_distance: number_in(0, DISTANCE_LIMIT, corner_distance)?,
            plane: last_plane(self.tech, more)?,
        };
        Ok((edge, why))
    }
}

/// Returns the adjacency that a word names.
fn adjacency_of(word: &[u8]) -> Option<Adjacency>
    ensures { result ≡ spec.adjacency_of word.now }
{
    if word == b"touching_ok".as_slice() {
        Some(Adjacency::TouchingOk)
    } else if word == b"touching_illegal".as_slice() {
        Some(Adjacency::TouchingIllegal)
    } else {
        None
    }
}

/// Returns the plane at the end of an edge line, if one is named.
fn last_plane(tech: &Tech, words: &[&[u8]]) -> Result<Option<PlaneNumber>, TechFaultKind>
    ensures { result ≡ spec.last_plane (scope_of tech.now) (word_bytes words.now) }
{
    match words {
        [] => Ok(None),
        [plane] => {
            let known = tech.plane_named(plane).ok_or(TechFaultKind::UnknownPlane)?;
            Ok(Some(known))
        }
        _ => Err(TechFaultKind::BadForm),
    }
}
