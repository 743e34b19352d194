//! Two kinds of meters.
ghost use Rattle.std.specs.Prelude.{◌≡◌, ◌<◌, [], length, false, nat_le};

use crate::flows::Flows;
use crate::meter::{Meter, Stay};
use policy_rules::Leaving;
use std::alloc::{AllocError, Global};
use std::marker::Model;

/// A meter that always stays, and has no flow records.
#[derive(Drop)]
pub struct Recorder {
    port: u32,
    held: Vec<Leaving>,
}

impl Model for Recorder {
    ghost use Rattle.meters.specs.Meters.{MeterRecorded};

    ghost Value = { MeterRecorded };

    ghost view = { λ m. record { port = m.port; held = m.held.items } };
}

impl Recorder {
    /// An empty meter of this port. Allocates nothing.
    pub fn new(alloc: Global, port: u32) -> Self
        ensures { result ≡ record { port = port; held = [] } }
    {
        Recorder {
            port,
            held: Vec::new(alloc),
        }
    }
}

impl Meter for Recorder {
    ghost seen = { λ m. record {
      port = m.port;
      held = m.held;
      is_ended = λ _. false;
      recorded = λ _. [];
    } };

    fn port(&self) -> u32 {
        self.port
    }

    fn note(&mut self, leaving: &Leaving) -> Stay {
        match self.held.push(*leaving) {
            Ok(()) => Stay::Stay,
            Err(_) => Stay::NoMemory,
        }
    }

    fn notes(&self) -> u64 {
        self.held.len() as u64
    }

    fn records(&self) -> Result<Flows, AllocError> {
        Ok(Flows::new(Vec::new(*self.held.allocator())))
    }
}

/// A meter that is complete, and leaves, at its `most`-th leaving. It has no flow records.
#[derive(Drop)]
pub struct FirstN {
    recorder: Recorder,
    most: u64,
}

impl Model for FirstN {
    ghost use Rattle.meters.specs.Meters.{LimitedMeterRecorder};

    ghost Value = { LimitedMeterRecorder };

    ghost view = { λ m. record { recorder = m.recorder; most = m.most } };
}

impl FirstN {
    /// An empty meter of this port that is complete with its `n`-th leaving. Allocates nothing.
    pub fn new(alloc: Global, port: u32, n: u64) -> Self
        requires { 0 < n }
        ensures { result ≡ record { recorder = record { port = port; held = [] }; most = n } }
    {
        FirstN {
            recorder: Recorder::new(alloc, port),
            most: n,
        }
    }
}

impl Meter for FirstN {
    ghost seen = { λ m. record {
      port = m.recorder.port;
      held = m.recorder.held;
      is_ended = λ held. nat_le m.most (length held);
      recorded = λ _. [];
    } };

    fn port(&self) -> u32 {
        self.recorder.port()
    }

    fn note(&mut self, leaving: &Leaving) -> Stay {
        match self.recorder.note(leaving) {
            Stay::Stay if self.most <= self.recorder.notes() => Stay::Leave,
            answer => answer,
        }
    }

    fn notes(&self) -> u64 {
        self.recorder.notes()
    }

    fn records(&self) -> Result<Flows, AllocError> {
        self.recorder.records()
    }
}
