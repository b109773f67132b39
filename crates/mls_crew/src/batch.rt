//! Whole scripts, each a batch of lines.
ghost use Rattle.std.specs.Prelude.{◌≡◌, ◌++◌, [], false, IfOk, IfErr};
ghost use Rattle.std.specs.List.{flat_map, list_all};
ghost use Rattle.mls_seat_lines.specs.mls_server.Servers.{world_of};
ghost use Rattle.mls_seat_lines.specs.mls_server.Settings.{terms_for};
ghost use Rattle.mls_seat_lines.specs.SymbolTables.{book_in, symbols_of};
ghost use Rattle.mls_crew.specs.Scripts.{FailsBatch, GivesBatch, WritesBatch};

use crate::serving::{GroupText, Part};
use crate::sorting::{Opener, sort};
use crate::threads::serve_sessions;
use crossbeam_channel::{Receiver, unbounded};
use mls_seat_lines::{
    Line, LineFault, Live, Naming, ServeFault, Served, Server, SessionId, SymbolTable, Watched,
    read_script, send,
};
use mls_tech::Tech;
use std::alloc::{AllocError, Global};
use std::io::{Read, Write};
use std::marker::Brand;
use std::sync::Wait;
use std::sync::ledger::Blank;
use std::thread::Threads;

/// What serves a whole script as one batch: a server in which no session is open, and the workers that are to check
/// behind its sessions.
#[derive(Drop)]
pub struct Batch {
    /// The server.
    pub server: Server,
    /// The server's technology, read once more: what types and rules are called in replies.
    pub tech: Tech,
    /// How many workers there are.
    pub workers: usize,
}

/// What is written to a script.
#[derive(Drop)]
struct Output {
    text: Vec<u8>,
    audited: bool,
}

impl Batch {
    /// Serves a whole script: reads it to its end, opens its sessions, serves the requests of each in a thread of its
    /// own while the workers check, closes all sessions, and writes the replies. First come those to lines that no
    /// session has, in the order of the script, then those of each session, in the order of opening.
    ///
    /// # Errors
    ///
    /// [`ServeFault::Read`] where the input failed: then no line was executed. [`ServeFault::Memory`] where memory
    /// ran out or a thread couldn't be started. In both cases nothing was written. [`ServeFault::Write`] where the
    /// output failed: then a beginning of the replies was written.
    pub fn serve<R: Read, W: Write, T: Threads + Wait + Sync>(
        self,
        rt: &T,
        alloc: Global,
        input: &mut Watched<R>,
        output: &mut Watched<W>,
    ) -> Result<Served, ServeFault>
        requires input_sound { input.old.failed ≡ false }
        requires output_sound { output.old.failed ≡ false }
        requires idle { (world_of self.server).seats ≡ [] }
        requires tech { self.tech ≡ (world_of self.server).setting.tech }
        ensures served { IfOk result (λ served. WritesBatch (world_of self.server) (R.remaining input.old.device)
            (W.contents output.old.device) (W.contents output.new.device) served.audited) }
        ensures failed { IfErr result (λ fault. FailsBatch (world_of self.server) fault
            (R.remaining input.old.device) input.new
            W.contents output.old output.new) }
    {
        let script = read_script(alloc, &self.server, input)?;
        let replies = serve_as::<Brand, T>(rt, alloc, self, Blank::new(65), &script)?;
        send(&replies.text, output)?;
        Ok(Served {
            audited: replies.audited,
        })
    }
}

/// Serves the lines of a script under a name of its own, and returns what is written to it.
fn serve_as<N: Naming + Send + Sync, T: Threads + Wait + Sync>(
    rt: &T,
    alloc: Global,
    batch: Batch,
    blank: Blank,
    script: &[Result<Line, LineFault>],
) -> Result<Output, AllocError>
    requires named { terms_for (world_of batch.server).setting ≡ N.terms }
    requires idle { (world_of batch.server).seats ≡ [] }
    requires tech { batch.tech ≡ (world_of batch.server).setting.tech }
    requires blank { (blank.name ≡ N.name) × (blank.parts ≡ N.parts) }
    requires parts { N.parts ≡ 65 }
    ensures { IfOk result (λ output. GivesBatch N.terms (book_in (symbols_of (world_of batch.server).setting))
        script.now output.audited output.text.items) }
{
    let Batch {
        server,
        tech,
        workers,
    } = batch;
    let limit = server.journal_limit();
    let symbols = SymbolTable::new(alloc, &server, tech)?;
    let live = Live::<N>::new(server, limit, blank);
    serve_at(rt, alloc, &live, &symbols, workers, script)
}

/// Serves the lines of a script at a server in which no session is open, beside this many workers, and returns what is
/// written to it.
fn serve_at<N: Naming + Send + Sync, T: Threads + Wait + Sync>(
    rt: &T,
    alloc: Global,
    live: &Live<N>,
    symbols: &SymbolTable,
    workers: usize,
    script: &[Result<Line, LineFault>],
) -> Result<Output, AllocError>
    requires parts { N.parts ≡ 65 }
    ensures { IfOk result (λ output. GivesBatch N.terms (book_in symbols.now)
        script.now output.audited output.text.items) }
{
    let (notices, ids) = unbounded(alloc)?;
    let receivers = clones(alloc, &ids, workers)?;
    let opener = Opener {
        alloc,
        live,
        symbols,
        notices,
    };
    let mut fresh = Vec::new(alloc);
    let sorting = sort(rt, &opener, script, &mut fresh)?;
    // From here on the seats alone send notices, so that the workers end once the seats are gone.
    drop(opener);
    let part = Part {
        alloc,
        symbols,
        sorting: &sorting,
        session: 0,
    };
    let groups = serve_sessions(rt, live, part, receivers, fresh)?;
    gather(sorting.into_head(), &groups)
}

/// Returns as many clones of a receiver.
fn clones(
    alloc: Global,
    ids: &Receiver<SessionId, Global>,
    count: usize,
) -> Result<Vec<Receiver<SessionId, Global>>, AllocError> {
    let mut receivers = Vec::new(alloc);
    for _ in 0..count {
        receivers.push(ids.clone()?)?;
    }
    Ok(receivers)
}

/// Appends the texts of all sessions to that of the lines that have their replies at once.
fn gather(head: Vec<u8>, groups: &[GroupText]) -> Result<Output, AllocError>
    ensures text { IfOk result (λ output. output.text.items ≡ head.items ++ flat_map (λ group. group.text) groups.now) }
    ensures audited { IfOk result (λ output. output.audited ≡ list_all (λ group. group.audited) groups.now) }
{
    let mut text = head;
    let mut audited = true;
    for group in groups {
        text.extend_from_slice(group.text())?;
        audited = audited && group.audited();
    }
    Ok(Output { text, audited })
}
