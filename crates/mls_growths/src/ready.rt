//! Jobs that can be checked.
ghost use Rattle.std.specs.Prelude.{◌≡◌};
ghost use Rattle.mls_checker.specs.Halos.{zone_of};

use crate::servers::id_a;
use mls_checker::Finding;
use mls_live::{Gate, Plain};
use mls_server::Server;
use mls_session::Job;
use std::alloc::{AllocError, Global};

/// A job whose snapshot is of the zone round its piece.
#[derive(Drop)]
pub struct Ready {
    job: Job,
    ghost zone: { job.snapshot.zone ≡ zone_of job.rules job.piece },
}

impl Ready {
    /// Grabs a job of session a.
    pub fn grab(alloc: Global, server: &mut Server) -> Option<Ready> {
        let Ok(Some(job)) = server.grab(alloc, id_a()) else {
            return None;
        };
        Some(Ready { job })
    }

    /// Checks it.
    pub fn check(self, alloc: Global) -> Result<Finding, AllocError> {
        let Ready { job } = self;
        Plain.check(alloc, id_a(), job)
    }
}
