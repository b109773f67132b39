//! Requests of one session: served at its seat, with their replies appended to a text, and what names mean there.
#![tactic(auto)]

mod request;
mod served;
mod serving;
mod symbol_table;

pub use mls_live::{Live, Naming, Plain, Seat, work};
pub use mls_wire::{
    Answer, Capacity, CellFault, CellTiles, Command, JournalLimit, Limits, Line, LineFault,
    LineReader, Name, NextLine, OpenFault, Quota, Response, ScriptLine, ServeFault, Server,
    SessionId, Sessions, Watched, WriteFault, parse_line, push_response, read_script, send, serve,
};
pub use request::Request;
pub use served::Served;
pub use serving::{Wording, serve_request};
pub use symbol_table::SymbolTable;
