//! The writer of replies.
ghost use Rattle.std.specs.Prelude.{◌≡◌, ℕ, List, IfOk, OnOk, OnErr};
ghost use Rattle.std.specs.Io.KnownBytes.{Appends};
ghost use Rattle.mls_seat_lines.specs.SymbolTables.{book_in};
ghost use Rattle.mls_lines.specs.Scripts.{AreReplies, AreSomeReplies};
ghost use Rattle.mls_seat_lines.specs.mls_wire.Serving.{AppendsFront, Gains};
ghost use Rattle.mls_seat_lines.specs.mls_wire.Watches.{HasCause};

use crate::hall::{Hall, Reply, Scripted};
use crossbeam_channel::Receiver;
use mls_seat_lines::{Watched, WriteFault, send};
use std::alloc::Global;
use std::io::Write;
use std::sync::Wait;
use std::sync::atomic::Ordering;

/// Writes and flushes replies as they come, until none can come any more, or the output fails. Returns whether the lists
/// of all sessions that were closed are those of their journals.
pub fn write_replies<N: Scripted, W: Write, R: Wait>(
    rt: &R,
    hall: &Hall,
    replies: &Receiver<Reply<N>, Global>,
    output: &mut Watched<W>,
) -> Result<bool, WriteFault>
    ensures ok { IfOk result (λ audited. Gains (W.contents output.old.device) (W.contents output.new.device)
        (AreReplies N.terms (book_in N.symbols) N.script audited)) }
    ensures err { OnErr result ((out : List ℕ) × AreSomeReplies N.terms (book_in N.symbols) N.script out
        × AppendsFront (W.contents output.old.device) (W.contents output.new.device) out) }
    ensures cause { OnErr result (HasCause output.new) }
{
    let mut audited = true;
    for _ in rt.forever() {
        let Ok(reply) = replies.recv(rt) else {
            break;
        };
        match write_reply(reply, output) {
            Ok(known) => audited &= known,
            Err(fault) => {
                hall.unwritten.store(true, Ordering::SeqCst);
                return Err(fault);
            }
        }
    }
    Ok(audited)
}

/// Writes a reply, once, and flushes it. Returns what it knows of an audit.
fn write_reply<N: Scripted, W: Write>(
    reply: Reply<N>,
    output: &mut Watched<W>,
) -> Result<bool, WriteFault>
    ensures known { IfOk result (λ audited. audited ≡ reply.audited) }
    ensures once { OnOk result (Appends (W.contents output.old.device) (W.contents output.new.device) reply.text.items) }
    ensures front { OnErr result (AppendsFront (W.contents output.old.device) (W.contents output.new.device) reply.text.items) }
    ensures cause { OnErr result (HasCause output.new) }
{
    send(&reply.text, output)?;
    Ok(reply.audited)
}
