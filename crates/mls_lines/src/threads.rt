//! The threads of names, and the workers beside them.
ghost use Rattle.std.specs.Prelude.{◌≡◌};

use crate::answering::Clerk;
use crate::hall::{Hall, Queued, Reply, Scripted};
use crate::progress::Progress;
use crossbeam_channel::{Receiver, Sender};
use mls_seat_lines::{Live, Plain, SessionId, work};
use std::alloc::{AllocError, Global};
use std::sync::Wait;
use std::sync::atomic::Ordering;
use std::thread;
use std::thread::{Scope, Threads};

/// A thread for names, before it runs: its number, its lines, and where replies and notices go.
#[derive(Drop)]
pub struct NameThread<N: Scripted> {
    pub number: usize,
    pub lines: Receiver<Queued<N>, Global>,
    pub replies: Sender<Reply<N>, Global>,
    pub notices: Option<Sender<SessionId, Global>>,
}

/// Answers the lines of all names, each name's in a thread of its own, while workers check, one for each receiver.
pub fn answer_all<N: Scripted + Send + Sync, R: Threads + Wait + Sync>(
    rt: &R,
    hall: &Hall,
    live: &Live<N>,
    name_threads: Vec<NameThread<N>>,
    workers: Vec<Receiver<SessionId, Global>>,
) -> Result<(), AllocError>
    requires parts { N.parts ≡ 65 }
    requires called { hall.now.symbols ≡ N.symbols }
{
    let answered = thread::scope(
        thread::scope_env(),
        rt,
        move |scope| -> Result<(), AllocError>
            requires { (N.parts ≡ 65) × (hall.now.symbols ≡ N.symbols) }
        { start(rt, scope, (hall, live), name_threads, workers) },
    );
    if answered.is_err() {
        hall.refused.store(true, Ordering::SeqCst);
    }
    answered
}

/// Starts all threads, and waits for those for names.
fn start<'s, E, N: Scripted + Send + Sync + 's, R: Threads + Wait + Sync>(
    rt: &'s R,
    scope: &Scope<'s, E>,
    shared: (&'s Hall, &'s Live<N>),
    mut name_threads: Vec<NameThread<N>>,
    workers: Vec<Receiver<SessionId, Global>>,
) -> Result<(), AllocError>
    requires parts { N.parts ≡ 65 }
    requires called { shared.0.now.symbols ≡ N.symbols }
{
    let (hall, live) = shared;
    let mut handles = Vec::with_capacity(hall.alloc, name_threads.len())?;
    for from in workers {
        let alloc = hall.alloc;
        if scope
            .spawn(move || work(rt, alloc, live, from, &Plain, u64::MAX))
            .is_err()
        {
            hall.refused.store(true, Ordering::SeqCst);
            return Err(AllocError);
        }
    }
    while let Some(name_thread) = name_threads.pop() {
        match scope.spawn(move || answer_lines(rt, hall, live, name_thread)) {
            Ok(handle) => handles.push_reserved(handle),
            Err(_) => {
                hall.refused.store(true, Ordering::SeqCst);
                return Err(AllocError);
            }
        }
    }
    while let Some(handle) = handles.pop() {
        handle.join(rt);
    }
    Ok(())
}

/// Answers the lines of names, one name at a time, and closes the session that is open at the end.
///
/// Once a reply was lost because memory ran out, no line of the thread is carried out any more.
fn answer_lines<'l, N: Scripted, R: Wait>(
    rt: &R,
    hall: &'l Hall,
    live: &'l Live<N>,
    name_thread: NameThread<N>,
)
    requires parts { N.parts ≡ 65 }
    requires called { hall.now.symbols ≡ N.symbols }
{
    let NameThread {
        number,
        lines,
        replies,
        notices,
    } = name_thread;
    let mut progress = Progress::new(Clerk {
        hall,
        live,
        notices,
    });
    let mut lost = false;
    for _ in rt.forever() {
        let Ok(line) = lines.recv(rt) else {
            break;
        };
        if !lost && !hall.unwritten.load(Ordering::SeqCst) {
            lost = match progress.answer(rt, &line) {
                Some(reply) => !send(rt, &replies, reply),
                None => true,
            };
            if lost {
                hall.refused.store(true, Ordering::SeqCst);
            }
        }
        hall.table.lock(rt).line_done(number, progress.is_open());
    }
    if let Some(last) = progress.end(rt)
        && replies.send(rt, last).is_err()
    {
        hall.refused.store(true, Ordering::SeqCst);
    }
}

/// Hands a reply to the writer, if it has a text, and returns whether there was memory for that.
fn send<N: Scripted, R: Wait>(rt: &R, replies: &Sender<Reply<N>, Global>, reply: Reply<N>) -> bool {
    reply.text.is_empty() || replies.send(rt, reply).is_ok()
}
