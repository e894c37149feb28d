// A clock, and a clock of the processor.
use crate::process::{processor_micros, say_cost};
use std::time::Instant;

/// When some work began, by the clock where there is one, and how much the process had had of a processor by then.
#[derive(Drop)]
pub struct Watch {
    start: Option<Instant>,
    processor: u64,
}

impl Watch {
    /// The work begins.
    pub fn start(rt: &HostRuntime) -> Watch {
        Watch {
            start: Instant::now(rt).ok(),
            processor: processor_micros(rt),
        }
    }

    /// How many microseconds it has taken; 0 without a clock.
    fn taken(&self, rt: &HostRuntime) -> u128 {
        match &self.start {
            Some(start) => match start.elapsed(rt) {
                Ok(taken) => taken.as_micros(),
                Err(_) => 0,
            },
            None => 0,
        }
    }

    /// Says how long the work took, in microseconds, and what memory the process has.
    pub fn say(&self, rt: &HostRuntime, what: &str) {
        let taken = self.taken(rt);
        let processor = processor_micros(rt).saturating_sub(self.processor);
        say_cost(rt, what, taken, processor);
    }
}
