//! Script lines in, reply lines out.
#![tactic(auto)]

mod ahead;
mod executing;
mod journal_lines;
mod line;
mod names;
mod number;
mod parse;
mod reader;
mod reply;
mod response;
mod script_line;
mod serving;
mod violation_lines;
mod watched;

pub use ahead::read_script;
pub use executing::respond;
pub use line::{Line, LineFault};
pub use mls_server::{
    Answer, Capacity, CellFault, CellId, CellTiles, Command, JournalLimit, Limits, Look, Name,
    OpenFault, Quota, Server, SessionId,
};
pub use names::{Names, Sessions};
pub use parse::parse_line;
pub use reader::{LineReader, NextLine};
pub use reply::{push_differs, push_looked, push_response, push_saved};
pub use response::Response;
pub use script_line::ScriptLine;
pub use serving::{ServeFault, send, serve};
pub use watched::{ReadFault, Watched, WriteFault};
