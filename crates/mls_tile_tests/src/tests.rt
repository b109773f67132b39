//! The tests, and what they share.
mod painting;
mod pieces;
mod pools;
mod sheet;
mod tiles;
