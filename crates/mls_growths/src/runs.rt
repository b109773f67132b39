//! Events that a server answers in one call.
use crate::scene::Scene;
use crate::servers::{id_a, id_b, print_reply, print_told, run, tell};
use crate::shown::show_server;
use anyhow::{Context, Result};
use mls_server::{Answer, Event, Name, Server, SessionId};
use mls_session::Command;
use std::alloc::{AllocError, Global};

/// What one of the events is replaced by.
#[derive(Clone, Copy)]
pub enum Change {
    Nothing,
    /// The event at this place is replaced by one that changes nothing.
    LeftOut(u8),
    /// Catching up is replaced by a check step.
    OneStep,
}

/// The sessions that the events are of.
const ASKED: [u8; 6] = *b"caaaab";

/// A server, and the events that it answers first and again.
#[derive(Drop)]
pub struct RunScene<'s> {
    server: &'s mut Server,
    first: Vec<Event>,
    again: Vec<Event>,
}

impl<'s> RunScene<'s> {
    pub fn new(alloc: Global, server: &'s mut Server, change: Change) -> Result<RunScene<'s>> {
        let first = events(alloc, change)?;
        let again = events(alloc, Change::Nothing)?;
        Ok(RunScene {
            server,
            first,
            again,
        })
    }
}

/// Returns the events.
fn events(alloc: Global, change: Change) -> Result<Vec<Event>> {
    let name = Name::new(b"c").context("no name")?;
    let mut all = Vec::new(alloc);
    add_events(name, change, &mut all)?;
    Ok(all)
}

/// Adds the events.
fn add_events(name: Name, change: Change, all: &mut Vec<Event>) -> Result<(), AllocError> {
    for place in 0..ASKED.len() as u8 {
        all.push(event_at(place, name, change))?;
    }
    Ok(())
}

/// Returns the event at a place.
fn event_at(place: u8, name: Name, change: Change) -> Event {
    match change {
        Change::LeftOut(left_out) if left_out == place => Event::Close(SessionId::of(9)),
        Change::OneStep if place == 5 => Event::Step(id_b()),
        _ => usual_event_at(place, name),
    }
}

/// Returns the event at a place where none is replaced.
fn usual_event_at(place: u8, name: Name) -> Event {
    match place {
        0 => Event::Open(name),
        1 => Event::Command(id_a(), Command::Why),
        2 => Event::Save(id_a()),
        3 => Event::Grab(id_a()),
        4 => Event::Step(id_a()),
        _ => Event::Command(id_b(), Command::CatchUp),
    }
}

impl<R: Print> Scene<R> for RunScene<'_> {
    type Answer = Result<Vec<Answer>, AllocError>;

    fn call(&mut self, _rt: &R, alloc: Global, turn: u8) -> Result<Vec<Answer>, AllocError> {
        match turn {
            0 => run(alloc, self.server, &self.first),
            _ => run(alloc, self.server, &self.again),
        }
    }

    fn print(
        &mut self,
        rt: &R,
        alloc: Global,
        answer: Result<Vec<Answer>, AllocError>,
    ) -> Result<()> {
        match &answer {
            Ok(answers) => print_answers(rt, alloc, self.server, answers),
            Err(_) => Ok(println!(rt; "memory")?),
        }
    }

    fn show(&mut self, rt: &R, alloc: Global) -> Result<()> {
        show_server(rt, alloc, self.server)
    }
}

/// Prints the answers to the events.
fn print_answers<R: Print>(
    rt: &R,
    alloc: Global,
    server: &Server,
    answers: &[Answer],
) -> Result<()> {
    for (letter, answer) in ASKED.into_iter().zip(answers) {
        match answer {
            Answer::Saved(saved, text) => {
                print_reply(rt, alloc, server, letter, *saved, text.as_slice())?;
            }
            other => print_told(rt, alloc, server, letter, tell(other))?,
        }
    }
    Ok(())
}
