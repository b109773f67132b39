//! Scripts as streams, whose lines are carried out as they come.
ghost use Rattle.std.specs.Prelude.{◌≡◌, [], IfOk, IfErr};
ghost use Rattle.mls_seat_lines.specs.mls_server.Servers.{world_of};
ghost use Rattle.mls_seat_lines.specs.mls_server.Settings.{terms_for};
ghost use Rattle.mls_seat_lines.specs.SymbolTables.{book_in, symbols_of};
ghost use Rattle.mls_lines.specs.Scripts.{AreReplies, EndsStream, EndsReading, EndsWriting, FailsStream, WritesStream};
ghost use Rattle.mls_seat_lines.specs.mls_wire.Serving.{Gains};

use crate::SymbolTable;
use crate::dispatch_table::{DispatchTable, NAME_THREADS};
use crate::hall::{Hall, Queued, Reply, Scripted};
use crate::reading::{ReaderEnds, read_lines};
use crate::threads::{NameThread, answer_all};
use crate::writing::write_replies;
use crossbeam_channel::{Receiver, Sender, unbounded};
use mls_seat_lines::{Live, ServeFault, Served, Server, SessionId, Watched, WriteFault};
use std::alloc::{AllocError, Global};
use std::io::{Read, Write};
use std::marker::Brand;
use std::sync::atomic::AtomicBool;
use std::sync::ledger::Blank;
use std::sync::{Mutex, Wait};
use std::thread::{Threads, join_mut};

/// What serves a script as a stream of lines: a server in which no session is open, what names mean there, and how many
/// workers are to check behind its sessions.
#[derive(Drop)]
pub struct Stream {
    /// The server.
    pub server: Server,
    /// What names mean there.
    pub symbols: SymbolTable,
    /// How many workers there are.
    pub workers: usize,
}

/// How the reader, the threads of names and the writer ended.
#[derive(Drop)]
struct Ended {
    read: Result<(), ServeFault>,
    answered: Result<(), AllocError>,
    written: Result<bool, WriteFault>,
}

/// The ends of all channels.
#[derive(Drop)]
struct Ends<N: Scripted> {
    reader: ReaderEnds<N>,
    name_threads: Vec<NameThread<N>>,
    workers: Vec<Receiver<SessionId, Global>>,
    replies: Receiver<Reply<N>, Global>,
}

impl Stream {
    /// Answers the lines of a script as they come, each session's in their order, in a thread of its own, while workers
    /// check. Each reply is written whole and flushed as soon as it is there. At the end of the input all sessions are
    /// closed.
    ///
    /// # Errors
    ///
    /// [`ServeFault::Write`] where the output failed: nothing more was written then. [`ServeFault::Read`] where the
    /// input failed, and [`ServeFault::Memory`] where memory ran out for a line or a reply, or a thread couldn't be
    /// started. All lines that were handed to a thread before have their replies.
    pub fn serve<I: Read, W: Write + Send, T: Threads + Wait + Sync>(
        self,
        rt: &T,
        alloc: Global,
        input: &mut Watched<I>,
        output: &mut Watched<W>,
    ) -> Result<Served, ServeFault>
        requires idle { (world_of self.server).seats ≡ [] }
        requires symbols { self.symbols ≡ symbols_of (world_of self.server).setting }
        ensures served { IfOk result (λ served. WritesStream (world_of self.server) (I.remaining input.old.device)
            (W.contents output.old.device) (W.contents output.new.device) served.audited) }
        ensures failed { IfErr result (λ fault. FailsStream (world_of self.server) fault
            (I.remaining input.old.device) input.new
            W.contents output.old output.new) }
    {
        serve_as::<Brand, I, W, T>(rt, (alloc, Blank::new(65)), self, input, output)
    }
}

/// Answers the lines of a script under a name of its own.
fn serve_as<N: Scripted + Send + Sync, I: Read, W: Write + Send, T: Threads + Wait + Sync>(
    rt: &T,
    made: (Global, Blank),
    stream: Stream,
    input: &mut Watched<I>,
    output: &mut Watched<W>,
) -> Result<Served, ServeFault>
    requires named { terms_for (world_of stream.server).setting ≡ N.terms }
    requires idle { (world_of stream.server).seats ≡ [] }
    requires blank { (made.1.name ≡ N.name) × (made.1.parts ≡ N.parts) }
    requires parts { N.parts ≡ 65 }
    requires symbols { stream.symbols ≡ N.symbols }
    requires script { I.remaining input.old.device ≡ N.script }
    ensures served { IfOk result (λ served. Gains (W.contents output.old.device) (W.contents output.new.device)
        (AreReplies N.terms (book_in N.symbols) N.script served.audited)) }
    ensures failed { IfErr result (λ fault. EndsStream N.terms (book_in N.symbols) N.script fault input.new
        W.contents output.old output.new) }
{
    let (alloc, blank) = made;
    let Stream {
        server,
        symbols,
        workers,
    } = stream;
    let limit = server.journal_limit();
    let live = Live::<N>::new(server, limit, blank);
    let ends = Ends::new(alloc, workers)?;
    let hall = Hall {
        alloc,
        symbols,
        table: Mutex::new(DispatchTable::new()),
        unwritten: AtomicBool::new(false),
        refused: AtomicBool::new(false),
    };
    let Ended {
        read,
        answered,
        written,
    } = run(rt, (&hall, live), ends, input, output);
    let audited = written?;
    read?;
    answered?;
    if hall.is_closed() {
        return Err(ServeFault::Memory);
    }
    Ok(Served { audited })
}

/// Reads the lines, carries them out and writes the replies, all at once.
fn run<N: Scripted + Send + Sync, I: Read, W: Write + Send, T: Threads + Wait + Sync>(
    rt: &T,
    shared: (&Hall, Live<N>),
    ends: Ends<N>,
    input: &mut Watched<I>,
    output: &mut Watched<W>,
) -> Ended
    requires parts { N.parts ≡ 65 }
    requires called { shared.0.now.symbols ≡ N.symbols }
    requires script { I.remaining input.old.device ≡ N.script }
    ensures read { EndsReading result.read input.new }
    ensures written { EndsWriting N.terms (book_in N.symbols) N.script W.contents result.written output.old output.new }
{
    let (hall, live) = shared;
    let Ends {
        reader,
        name_threads,
        workers,
        replies,
    } = ends;
    let mut reader = Some(reader);
    let mut threads = Some((name_threads, workers));
    // Where no thread can be made, the second of two runs first: so the lines are read, carried out, and replied to.
    let ((written, answered), read) = join_mut(
        rt,
        &mut || -> (Result<bool, WriteFault>, Result<(), AllocError>)
            requires { (N.parts ≡ 65) × (hall.now.symbols ≡ N.symbols) }
            ensures { EndsWriting N.terms (book_in N.symbols) N.script W.contents result.0
                output.entry.now output.exit.now }
        {
            join_mut(
                rt,
                &mut || -> Result<bool, WriteFault>
                    ensures { EndsWriting N.terms (book_in N.symbols) N.script W.contents result
                        output.entry.now output.exit.now }
                { write_replies(rt, hall, &replies, output) },
                &mut || -> Result<(), AllocError>
                    requires { (N.parts ≡ 65) × (hall.now.symbols ≡ N.symbols) }
                {
                    match threads.take() {
                        Some((name_threads, workers)) => answer_all(
                            rt,
                            hall,
                            &live,
                            name_threads,
                            workers,
                        ),
                        None => Err(AllocError),
                    }
                },
            )
        },
        &mut || -> Result<(), ServeFault>
            requires { (I.remaining input.now.device ≡ N.script) × (hall.now.symbols ≡ N.symbols) }
            ensures { EndsReading result input.exit.now }
        {
            match reader.take() {
                Some(reader) => read_lines(rt, hall, reader, input),
                None => Ok(()),
            }
        },
    );
    Ended {
        read,
        answered,
        written,
    }
}

impl<N: Scripted> Ends<N> {
    /// Makes all channels.
    fn new(alloc: Global, workers: usize) -> Result<Ends<N>, AllocError> {
        let (replies, written) = unbounded(alloc)?;
        let (notices, ids) = unbounded(alloc)?;
        let mut receivers = Vec::new(alloc);
        for _ in 0..workers {
            receivers.push(ids.clone()?)?;
        }
        let mut queues = Vec::new(alloc);
        let mut name_threads = Vec::new(alloc);
        for number in 0..NAME_THREADS {
            let (queue, lines): (Sender<Queued<N>, Global>, Receiver<Queued<N>, Global>) =
                unbounded(alloc)?;
            let notices = if workers > 0 {
                Some(notices.clone()?)
            } else {
                None
            };
            name_threads.push(NameThread {
                number,
                lines,
                replies: replies.clone()?,
                notices,
            })?;
            queues.push(queue)?;
        }
        Ok(Ends {
            reader: ReaderEnds { queues, replies },
            name_threads,
            workers: receivers,
            replies: written,
        })
    }
}
