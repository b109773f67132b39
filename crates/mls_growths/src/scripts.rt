//! Serving a script.
use crate::scene::Scene;
use crate::servers::serve_into;
use crate::shown::show_server;
use anyhow::Result;
use mls_server::Server;
use mls_wire::ServeFault;
use std::alloc::Global;

/// Lines that take memory for their replies alone.
const LINES: [&[u8]; 7] = [
    b"a box 0 0 9 9\n",
    b"b what\n",
    b"a what\n",
    b"a drc count\n",
    b"a gold rush\n",
    b"b drc count\n",
    b"%audit a\n",
];

/// How many bytes there is room for in each output.
const ROOM: usize = 1024;

/// A server, and the scripts that it serves first and again.
#[derive(Drop)]
pub struct ScriptScene<'s> {
    server: &'s mut Server,
    first: Vec<u8>,
    again: Vec<u8>,
    outputs: Vec<Vec<u8>>,
}

impl<'s> ScriptScene<'s> {
    /// Takes so many of the lines to be served first.
    pub fn new(alloc: Global, server: &'s mut Server, count: usize) -> Result<ScriptScene<'s>> {
        let first = lines(alloc, count)?;
        let again = lines(alloc, LINES.len())?;
        let outputs = new_outputs(alloc)?;
        Ok(ScriptScene {
            server,
            first,
            again,
            outputs,
        })
    }
}

/// Creates the two outputs.
fn new_outputs(alloc: Global) -> Result<Vec<Vec<u8>>> {
    let first = Vec::with_capacity(alloc, ROOM)?;
    let second = Vec::with_capacity(alloc, ROOM)?;
    Ok(vec![in alloc; first, second]?)
}

/// Returns the first lines.
fn lines(alloc: Global, count: usize) -> Result<Vec<u8>> {
    let mut text = Vec::new(alloc);
    for line in LINES.iter().take(count) {
        text.extend_from_slice(line)?;
    }
    Ok(text)
}

impl<R: Print> Scene<R> for ScriptScene<'_> {
    type Answer = Option<(Result<(), ServeFault>, Vec<u8>)>;

    fn call(
        &mut self,
        _rt: &R,
        alloc: Global,
        turn: u8,
    ) -> Option<(Result<(), ServeFault>, Vec<u8>)> {
        let ScriptScene {
            server,
            first,
            again,
            outputs,
        } = self;
        let output = outputs.pop()?;
        Some(match turn {
            0 => serve_into(alloc, server, first, output),
            _ => serve_into(alloc, server, again, output),
        })
    }

    fn print(
        &mut self,
        rt: &R,
        _alloc: Global,
        answer: Option<(Result<(), ServeFault>, Vec<u8>)>,
    ) -> Result<()> {
        let Some((ended, output)) = answer else {
            return Ok(println!(rt; "no output")?);
        };
        rt.write_all(&output)?;
        match ended {
            Ok(()) => println!(rt; "served")?,
            Err(fault) => println!(rt; "left: {fault}")?,
        }
        Ok(())
    }

    fn show(&mut self, rt: &R, alloc: Global) -> Result<()> {
        show_server(rt, alloc, self.server)
    }
}
