//! What names mean, and which sessions are open.
ghost use Rattle.std.specs.Prelude.{◌≡◌, ◌<◌, IfSome};
ghost use Rattle.std.specs.Option.{option_map};
ghost use Rattle.mls_server.specs.Servers.{world_of};
ghost use Rattle.mls_wire.specs.NameBooks.{book_of};

use mls_kinds::Kind;
use mls_server::{CellId, Name, Server, SessionId};

/// What names mean to a reader of lines, and what types, rules and cells are called in replies.
pub trait Names {
    ghost use Rattle.mls_wire.specs.NameBooks.{Names};

    /// The meanings.
    ghost book: { Self → Names };

    /// Returns the type of this name.
    fn type_of(&self, word: &[u8]) -> Option<Kind>
        ensures value { result ≡ (book self.now).type_of word.now }
        ensures small { IfSome result (λ kind. kind < 64) };

    /// Returns the cell of this name.
    fn cell_of(&self, word: &[u8]) -> Option<CellId>
        ensures { result ≡ (book self.now).cell_of word.now };

    /// Returns the name of a cell.
    fn cell_name(&self, cell: CellId) -> Option<&[u8]>
        ensures { option_map (λ name. name.now) result ≡ (book self.now).cell_name cell };

    /// Returns the first name of a type.
    fn type_name(&self, kind: Kind) -> Option<&[u8]>
        ensures { option_map (λ name. name.now) result ≡ (book self.now).type_name kind };

    /// Returns the shortest name of a type, the first of that length.
    fn short_type_name(&self, kind: Kind) -> Option<&[u8]>
        ensures { option_map (λ name. name.now) result ≡ (book self.now).short_type_name kind };

    /// Returns why rule `n` is there, from 1.
    fn why_text(&self, n: usize) -> Option<&[u8]>
        ensures { option_map (λ text. text.now) result ≡ (book self.now).why_text n };
}

/// Which sessions are open.
pub trait Sessions {
    ghost use Rattle.mls_wire.specs.NameBooks.{SessionIds};

    /// The id of the open session of each name.
    ghost ids: { Self → SessionIds };

    /// Returns the id of the open session of this name.
    fn session(&self, name: &Name) -> Option<SessionId>
        ensures { result ≡ ids self.now name.now };
}

impl Names for Server {
    ghost book = { λ server. book_of (world_of server) };

    fn type_of(&self, word: &[u8]) -> Option<Kind> {
        self.tech().type_of(word)
    }

    fn cell_of(&self, word: &[u8]) -> Option<CellId> {
        match word {
            // What is written for a cell without a name.
            b"," => None,
            _ => self.cell(word),
        }
    }

    fn cell_name(&self, cell: CellId) -> Option<&[u8]> {
        Server::cell_name(self, cell)
    }

    fn type_name(&self, kind: Kind) -> Option<&[u8]> {
        self.tech().type_name(kind)
    }

    fn short_type_name(&self, kind: Kind) -> Option<&[u8]> {
        self.tech().short_type_name(kind)
    }

    fn why_text(&self, n: usize) -> Option<&[u8]> {
        self.tech().why(n)
    }
}

impl Sessions for Server {
    ghost use Rattle.mls_server.specs.Worlds.{session_named};

    ghost ids = { λ server. session_named (world_of server) };

    fn session(&self, name: &Name) -> Option<SessionId> {
        Server::session(self, name)
    }
}
