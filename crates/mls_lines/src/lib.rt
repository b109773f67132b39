//! Streams of lines that are carried out as they come: a thread for each session's name, and workers that check beside
//! them.
#![tactic(auto)]

mod answering;
mod dispatch_table;
mod hall;
mod progress;
mod reading;
mod seating;
mod stream;
mod threads;
mod writing;

pub use mls_seat_lines::{
    Capacity, CellFault, CellTiles, JournalLimit, Limits, Quota, ServeFault, Served, Server,
    SymbolTable, Watched, WriteFault, serve,
};
pub use stream::Stream;
