//! Calls that make something new.
use crate::scene::Scene;
use anyhow::Result;
use mls_edgerule::{Rules, compile};
use mls_server::{Capacity, Limits, Server};
use mls_tech::{TECHNOLOGY_M, Tech, TechFault};
use mls_tilepool::Pool;
use std::alloc::Global;

/// What is made.
#[derive(Clone, Copy)]
pub enum Made {
    Tech,
    Pool,
    Server,
}

/// A technology file with lines of each kind: two names of a plane, joined lines, rules of each keyword, and one that
/// is skipped.
const FILE: &[u8] = b"tech
  growths
end
planes
  device,d
  metal2
end
types
  device gate,g
  device drain
  metal2 m2
end
drc
  width gate 2 \"gate width\"
  spacing gate (drain,g) 3 \\
    touching_illegal \"spacing\"
  edge4way ~gate/device gate 2 gate gate 0 \"edge\"
  overhang gate drain 2 \"overhang\"
end
";

/// How many tiles the pool has.
const TILES: u32 = 414;

/// What was made.
#[derive(Clone, Copy)]
pub enum MadeAnswer {
    /// A technology with so much of each sort.
    Tech {
        planes: usize,
        types: usize,
        rules: usize,
        skipped: usize,
    },
    Fault(TechFault),
    Pool {
        unreserved: u32,
    },
    Server {
        is_idle: bool,
        ids: u64,
    },
    Memory,
    /// No technology is left.
    Nothing,
}

/// Reads the technology file.
fn read_tech(alloc: Global) -> MadeAnswer {
    match Tech::read(alloc, FILE) {
        Ok(tech) => MadeAnswer::Tech {
            planes: tech.planes(),
            types: tech.types(),
            rules: tech.lines().len(),
            skipped: tech.skipped().len(),
        },
        Err(fault) => MadeAnswer::Fault(fault),
    }
}

/// Makes a pool.
fn make_pool(alloc: Global) -> MadeAnswer {
    match Pool::new(alloc, TILES) {
        Ok(pool) => MadeAnswer::Pool {
            unreserved: pool.unreserved(),
        },
        Err(_) => MadeAnswer::Memory,
    }
}

/// Makes a server with a technology.
fn make_server(alloc: Global, tech: Tech) -> MadeAnswer {
    match compile(&tech) {
        Ok(rules) => make_ruled(alloc, tech, rules),
        Err(_) => MadeAnswer::Nothing,
    }
}

/// Makes a server with a technology and its rules.
fn make_ruled(alloc: Global, tech: Tech, rules: Rules) -> MadeAnswer {
    match Server::new(alloc, tech, rules, Capacity::default(), Limits::default()) {
        Ok(server) => MadeAnswer::Server {
            is_idle: server.is_idle(),
            ids: server.ids_given(),
        },
        Err(_) => MadeAnswer::Memory,
    }
}

/// A call that makes something, and the technologies that servers are made with.
#[derive(Drop)]
pub struct Making {
    what: Made,
    techs: Vec<Tech>,
}

impl Making {
    pub fn new(alloc: Global, what: Made) -> Result<Making> {
        let mut techs = Vec::new(alloc);
        add_techs(alloc, &mut techs)?;
        Ok(Making { what, techs })
    }
}

/// Adds two technologies.
fn add_techs(alloc: Global, techs: &mut Vec<Tech>) -> Result<()> {
    for _ in 0..2 {
        techs.push(Tech::read(alloc, TECHNOLOGY_M)?)?;
    }
    Ok(())
}

impl<R: Print> Scene<R> for Making {
    type Answer = MadeAnswer;

    fn call(&mut self, _rt: &R, alloc: Global, _turn: u8) -> MadeAnswer {
        match self.what {
            Made::Tech => read_tech(alloc),
            Made::Pool => make_pool(alloc),
            Made::Server => match self.techs.pop() {
                Some(tech) => make_server(alloc, tech),
                None => MadeAnswer::Nothing,
            },
        }
    }

    fn print(&mut self, rt: &R, _alloc: Global, answer: MadeAnswer) -> Result<()> {
        match answer {
            MadeAnswer::Tech {
                planes,
                types,
                rules,
                skipped,
            } => println!(rt; "{planes} planes {types} types {rules} rules {skipped} skipped")?,
            MadeAnswer::Fault(fault) => {
                let (number, text) = (fault.kind.number(), fault.kind.text());
                println!(rt; "fault {number} {text}")?;
            }
            MadeAnswer::Pool { unreserved } => println!(rt; "{unreserved} unreserved")?,
            MadeAnswer::Server { is_idle, ids } => println!(rt; "idle {is_idle} ids {ids}")?,
            MadeAnswer::Memory => println!(rt; "memory")?,
            MadeAnswer::Nothing => println!(rt; "no technology")?,
        }
        Ok(())
    }

    fn show(&mut self, _rt: &R, _alloc: Global) -> Result<()> {
        Ok(())
    }
}
