//! A type list, read from the left.
ghost use Rattle.std.specs.Prelude.{◌≡◌, ◌<◌, ℕ, Option};
ghost use Rattle.std.specs.Option.{ForSome, is_some};
ghost use Rattle.mls_tech.specs.Inner.ListReaders as spec;
ghost use Rattle.mls_tech.specs.Readings.{scope_of};

use crate::fault::Taken;
use crate::name::is_name;
use crate::token::{Token, Tokens};
use crate::{Tech, TechFaultKind};
use mls_kinds::{Kind, KindSet, PlaneNumber};
use std::alloc::{AllocError, Global};
use std::marker::Model;

/// The tildes in front of a term.
#[derive(Clone, Copy)]
enum Tildes {
    NoTilde,
    /// An odd number.
    Odd,
    /// An even number from two on.
    Even,
}

impl Tildes {
    /// Returns these tildes with one more.
    fn more(self) -> Tildes
        ensures { result ≡ spec.tilde_more self }
    {
        match self {
            Tildes::Odd => Tildes::Even,
            _ => Tildes::Odd,
        }
    }

    /// Returns the set of a term with its tildes, each of which means all types that the set lacks.
    fn apply(self, all: KindSet, set: KindSet) -> KindSet
        ensures { result ≡ spec.after_tildes all self set }
    {
        match self {
            Tildes::NoTilde => set,
            Tildes::Odd => all.difference(set),
            Tildes::Even => all.difference(all.difference(set)),
        }
    }
}

/// A position in a list.
#[derive(Clone, Copy)]
enum Position {
    /// Before a term, and after these tildes.
    BeforeTerm(Tildes),
    /// After a term with this set, where a slash or the end of the item may follow.
    AfterTerm(KindSet),
    /// Before the plane of a term with this set.
    BeforePlane(KindSet),
    /// After an item, where a comma, a closing parenthesis or the end may follow.
    AfterItem,
}

/// A list in which another one is read, in parentheses.
#[derive(Clone, Copy)]
struct OuterList {
    /// The types of the items before the one with the parentheses.
    items: KindSet,
    /// The tildes in front of the parentheses.
    tildes: Tildes,
}

/// A reader of type lists, which takes no memory once it is made.
#[derive(Drop)]
pub(crate) struct ListReader {
    /// The largest number of lists that may be open at once.
    room: usize,
    /// The lists around the one that is read, the innermost last.
    outer: Vec<OuterList>,
    /// The types of the items that this list has so far.
    items: KindSet,
    position: Position,
    /// The fault of the first name that isn't known.
    unknown: Option<TechFaultKind>,
}

impl Model for ListReader {
    ghost use Rattle.std.specs.Prelude.{◌≤◌, reverse, vec_capacity};
    ghost use Rattle.mls_tech.specs.Inner.ListReaders.{Reader, reader};

    ghost Value = { Reader };

    ghost view = { λ r. reader r.room (reverse r.outer.items) r.items r.position r.unknown };

    ghost invariant = { λ r. r.room ≤ vec_capacity r.outer };
}

impl ListReader {
    ghost use Rattle.std.specs.Prelude.{◌≡◌, ◌<◌, ◌≤◌, length, IfOk};
    ghost use Rattle.mls_tech.specs.Inner.ListReaders.{HasRoom, Advances, openings};
    ghost use Rattle.mls_tech.specs.Inner.Tokens.{token_of};
    ghost use Rattle.mls_tech.specs.TypeLists.{bits_in};

    /// Creates a reader of lists with at most `room` opening parentheses.
    pub fn new(alloc: Global, room: usize) -> Result<ListReader, AllocError>
        ensures { IfOk result (λ reader. reader ≡ spec.at_first room) }
    {
        Ok(ListReader {
            room,
            outer: Vec::with_capacity(alloc, room)?,
            items: KindSet::empty(),
            position: Position::BeforeTerm(Tildes::NoTilde),
            unknown: None,
        })
    }

    /// Reads a word that spells a list, and returns its set of types.
    pub fn read(&mut self, tech: &Tech, word: &[u8]) -> Result<KindSet, TechFaultKind>
        requires fits { openings word.now ≤ self.old.room }
        ensures value { result ≡ bits_in (scope_of tech.now) word.now }
        ensures room { IfOk result (λ _. self.new.room ≡ self.old.room) }
    {
        self.restart();
        for token in Tokens::new(word) {
            self.take(tech, token)?;
        }
        self.finish()
    }

    /// Goes back to the position before the first token of a list.
    fn restart(&mut self)
        ensures { self.new ≡ spec.at_first self.old.room }
    {
        self.outer.clear();
        self.items = KindSet::empty();
        self.position = Position::BeforeTerm(Tildes::NoTilde);
        self.unknown = None;
    }

    /// Reads the next token. After a fault the rest of the list can't be read.
    #[tactic(auto, unfolding(crate::specs::Inner::ListReaders::step))]
    fn take(&mut self, tech: &Tech, token: Token<'_>) -> Taken
        requires { HasRoom self.old (token_of token) }
        ensures { Advances (spec.step (scope_of tech.now) self.old (token_of token.entry)) result self.new }
    {
        let position = self.position;
        match position {
            Position::BeforeTerm(tildes) => self.take_term(tech, tildes, token),
            Position::AfterTerm(set) => self.take_after_term(tech, set, token),
            Position::BeforePlane(set) => self.take_plane(tech, set, token),
            Position::AfterItem => self.take_after_item(tech, token),
        }
    }

    /// Returns the set of the whole list.
    #[tactic(auto, unfolding(crate::specs::Inner::ListReaders::finish))]
    fn finish(&self) -> Result<KindSet, TechFaultKind>
        ensures { result ≡ spec.finish self.now }
    {
        let position = self.position;
        let set = match position {
            Position::AfterTerm(set) => self.items.union(set),
            Position::AfterItem => self.items,
            _ => return Err(TechFaultKind::BadList),
        };
        if !self.outer.is_empty() {
            return Err(TechFaultKind::BadList);
        }
        self.unknown.map_or(Ok(set), Err)
    }

    /// Reads a token of a term.
    fn take_term(&mut self, tech: &Tech, tildes: Tildes, token: Token<'_>) -> Taken
        requires { HasRoom self.old (token_of token) }
        ensures { Advances (spec.term_step (scope_of tech.now) self.old tildes (token_of token.entry)) result self.new }
    {
        match token {
            Token::Tilde => {
                self.position = Position::BeforeTerm(tildes.more());
                Ok(())
            }
            Token::Opening => {
                self.open(tildes);
                Ok(())
            }
            Token::Word(word) => self.take_word(tech, tildes, word),
            _ => Err(TechFaultKind::BadList),
        }
    }

    /// Begins a list in parentheses.
    fn open(&mut self, tildes: Tildes)
        requires { length self.old.outer < self.old.room }
        ensures { self.new ≡ spec.with_list self.old tildes }
    {
        let outer = OuterList {
            items: self.items,
            tildes,
        };
        let _ = self.outer.push(outer);
        self.items = KindSet::empty();
        self.position = Position::BeforeTerm(Tildes::NoTilde);
    }

    /// Reads a term of one word.
    fn take_word(&mut self, tech: &Tech, tildes: Tildes, word: &[u8]) -> Taken
        ensures { Advances (spec.word_step (scope_of tech.now) self.old tildes word.now) result self.new }
    {
        if word == b"0".as_slice() {
            self.end_term(tech, tildes, KindSet::empty());
        } else if is_name(word) {
            let kind = tech.type_of(word);
            self.note(kind.is_some(), TechFaultKind::UnknownType);
            self.end_term(tech, tildes, named_set(kind));
        } else {
            return Err(TechFaultKind::BadList);
        }
        Ok(())
    }

    /// Reads a token that follows a term with this set.
    fn take_after_term(&mut self, tech: &Tech, set: KindSet, token: Token<'_>) -> Taken
        ensures { Advances (spec.after_step (scope_of tech.now) self.old set (token_of token.entry)) result self.new }
    {
        if let Token::Slash = token {
            self.position = Position::BeforePlane(set);
            return Ok(());
        }
        self.end_item(set);
        self.take_after_item(tech, token)
    }

    /// Reads the plane of a term with this set.
    fn take_plane(&mut self, tech: &Tech, set: KindSet, token: Token<'_>) -> Taken
        ensures { Advances (spec.plane_step (scope_of tech.now) self.old set (token_of token.entry)) result self.new }
    {
        let Token::Word(word) = token else {
            return Err(TechFaultKind::BadList);
        };
        if !is_name(word) {
            return Err(TechFaultKind::BadList);
        }
        let plane = tech.plane_named(word);
        self.note(plane.is_some(), TechFaultKind::UnknownPlane);
        self.end_item(plane_set(tech, set, plane));
        Ok(())
    }

    /// Reads a token that follows an item.
    fn take_after_item(&mut self, tech: &Tech, token: Token<'_>) -> Taken
        ensures { Advances (spec.item_step (scope_of tech.now) self.old (token_of token.entry)) result self.new }
    {
        match token {
            Token::Comma => {
                self.position = Position::BeforeTerm(Tildes::NoTilde);
                Ok(())
            }
            Token::Closing => self.close(tech),
            _ => Err(TechFaultKind::BadList),
        }
    }

    /// Ends a list in parentheses.
    fn close(&mut self, tech: &Tech) -> Taken
        ensures { Advances (spec.closing_step (scope_of tech.now) self.old self.old.outer) result self.new }
    {
        let Some(list) = self.outer.pop() else {
            return Err(TechFaultKind::BadList);
        };
        let set = self.items;
        self.items = list.items;
        self.end_term(tech, list.tildes, set);
        Ok(())
    }

    /// Ends a term that has this set without its tildes.
    fn end_term(&mut self, tech: &Tech, tildes: Tildes, set: KindSet)
        ensures { self.new ≡ spec.with_term (scope_of tech.now) self.old tildes set }
    {
        self.position = Position::AfterTerm(tildes.apply(tech.all_types(), set));
    }

    /// Ends an item with this set.
    fn end_item(&mut self, set: KindSet)
        ensures { self.new ≡ spec.with_item self.old set }
    {
        self.items = self.items.union(set);
        self.position = Position::AfterItem;
    }

    /// Notes the fault of an unknown name, if it is the list's first.
    fn note(&mut self, is_known: bool, fault: TechFaultKind)
        ensures { (known : Option ℕ) → is_known ≡ is_some known
            → self.new ≡ spec.noting self.old known fault }
    {
        if !is_known && self.unknown.is_none() {
            self.unknown = Some(fault);
        }
    }
}

/// Returns the set of the one type, or the empty set for an unknown one.
fn named_set(kind: Option<Kind>) -> KindSet
    requires { ForSome kind (λ known. known < 64) }
    ensures { result ≡ spec.named_set kind }
{
    kind.map_or(KindSet::empty(), KindSet::single)
}

/// Returns the types of the set that lie on the plane, or all of them for an unknown plane.
fn plane_set(tech: &Tech, set: KindSet, plane: Option<PlaneNumber>) -> KindSet
    ensures { result ≡ spec.plane_set (scope_of tech.now) set plane }
{
    match plane {
        Some(known) => set.intersection(tech.plane_types(known)),
        None => set,
    }
}

/// Returns the number of opening parentheses in a word.
pub(crate) fn openings(word: &[u8]) -> usize
    ensures { result ≡ spec.openings word.now }
{
    word.iter().filter(|b| **b == b'(').count()
}
