//! What all threads share.
ghost use Rattle.std.specs.Prelude.{◌≡◌, ℕ, List, Option, Some};
ghost use Rattle.mls_seat_lines.specs.SymbolTables.{SymbolTable, book_in};
ghost use Rattle.mls_lines.specs.Scripts.{IsScriptLine, IsReply};

use crate::SymbolTable;
use crate::dispatch_table::DispatchTable;
use mls_seat_lines::Naming;
use std::alloc::Global;
use std::marker::{Brand, PhantomData};
use std::sync::Mutex;
use std::sync::atomic::{AtomicBool, Ordering};

/// The name of a script over a server under a lock: what names mean there, and its bytes, where they are known.
pub trait Scripted: Naming {
    ghost symbols: { SymbolTable };

    ghost script: { Option (List ℕ) };
}

impl Scripted for Brand {
    ghost use Rattle.std.specs.Prelude.{[], None};
    ghost use Rattle.mls_tech.specs.Readings.{nothing_read};

    ghost symbols = { record { tech = nothing_read; cells = [] } };

    ghost script = { None };
}

/// What all threads share beside the server: what names mean, which thread a name has, and whether something failed.
#[derive(Drop)]
pub struct Hall {
    pub alloc: Global,
    pub symbols: SymbolTable,
    pub table: Mutex<DispatchTable>,
    /// Whether the output failed.
    pub unwritten: AtomicBool,
    /// Whether memory ran out for a reply, or a thread couldn't be started.
    pub refused: AtomicBool,
}

impl Hall {
    /// Returns whether no further line is to be read.
    pub fn is_closed(&self) -> bool {
        self.unwritten.load(Ordering::SeqCst) || self.refused.load(Ordering::SeqCst)
    }
}

/// A line of the script that waits for its name's thread, and its number.
#[derive(Drop)]
pub struct Queued<N: Scripted> {
    pub n: u128,
    pub bytes: Vec<u8>,
    of: PhantomData<N>,
    pub ghost line: { IsScriptLine N.script n (Some bytes.items) },
}

impl<N: Scripted> Queued<N> {
    /// Returns a line with its number.
    pub fn new(n: u128, bytes: Vec<u8>) -> Self
        requires { IsScriptLine N.script n (Some bytes.items) }
    {
        Queued {
            n,
            bytes,
            of: PhantomData,
        }
    }
}

/// A reply to a line of the script, or one without text to the end of the input. It can't be copied, so it is written
/// once at most.
#[derive(Drop)]
pub struct Reply<N: Scripted> {
    pub text: Vec<u8>,
    /// Whether the list of the session that was closed, if any, is that of its journal.
    pub audited: bool,
    of: PhantomData<N>,
    pub ghost is_reply: { IsReply N.terms (book_in N.symbols) N.script (record { text = text.items; audited = audited }) },
}

impl<N: Scripted> Reply<N> {
    /// Returns a reply of this text.
    pub fn new(text: Vec<u8>, audited: bool) -> Self
        requires { IsReply N.terms (book_in N.symbols) N.script (record { text = text.items; audited = audited }) }
    {
        Reply {
            text,
            audited,
            of: PhantomData,
        }
    }
}
