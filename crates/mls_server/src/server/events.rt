//! Events one by one, and in a list.
ghost use Rattle.std.specs.Prelude.{◌≡◌, ℕ, IfOk, OnErr};
ghost use Rattle.mls_server.specs.Events.{Happens, Runs};
ghost use Rattle.mls_server.specs.OwnLists.{IsToldAlone};
ghost use Rattle.mls_server.specs.Servers.{world_of};
ghost use Rattle.mls_server.specs.Worlds.{MarksAreExact};

use super::Server;
use crate::{Answer, Event};
use mls_session::Listing;
use std::alloc::{AllocError, Global};

impl Server {
    /// Does what an event asks for, and returns the answer.
    pub fn act(&mut self, alloc: Global, event: &Event) -> Answer
        ensures happens { Happens (world_of self.old) event.now result (world_of self.new) }
    {
        match event {
            Event::Open(name) => Answer::Opened(self.open(alloc, *name)),
            Event::Close(id) => Answer::Closed(self.close(*id)),
            Event::Command(id, command) => Answer::Commanded(self.command(alloc, *id, *command)),
            Event::Save(id) => {
                let mut text = Vec::new(alloc);
                let result = self.save(*id, &mut text);
                Answer::Saved(result, Listing::new(text))
            }
            Event::Look(id, look) => {
                let mut text = Vec::new(alloc);
                let result = self.look(alloc, *id, *look, &mut text);
                Answer::Looked(result, Listing::new(text))
            }
            Event::Grab(id) => Answer::Grabbed(self.grab(alloc, *id)),
            Event::Finish(id, finding) => Answer::Finished(self.finish_ref(*id, finding)),
            Event::Step(id) => Answer::Stepped(self.step(alloc, *id)),
            Event::Steps(id, most) => Answer::SteppedTimes(self.run_steps(alloc, *id, *most)),
            Event::Settle(id) => Answer::Settled(self.settle(*id)),
        }
    }

    /// Does what events ask for, one after another, and returns their answers.
    ///
    /// Fails, and changes nothing, if memory runs out for the list of answers.
    pub fn run(&mut self, alloc: Global, events: &[Event]) -> Result<Vec<Answer>, AllocError>
        ensures runs { IfOk result (λ answers. Runs (world_of self.old) events.now answers.items
            (world_of self.new)) }
        ensures alone { IfOk result (λ answers. (id : ℕ)
            → IsToldAlone (world_of self.old) id events.now answers.items (world_of self.new)) }
        ensures marks_exact { MarksAreExact (world_of self.new) }
        ensures refused { OnErr result (self.new ≡ self.old) }
    {
        // For its contract alone: the journals are legal at first, and the ids rise.
        self.stays_sound();
        let mut answers = Vec::with_capacity(alloc, events.len())?;
        for event in events {
            answers.push_reserved(self.act(alloc, event));
        }
        // And at the end the marks are exact.
        self.stays_sound();
        Ok(answers)
    }
}
