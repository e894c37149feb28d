// What is said to whoever runs the program.
ghost use Rattle.std.specs.Prelude.{◌≡◌, ◌≤◌, OnOk, OnErr};
ghost use Rattle.std.specs.Io.KnownBytes.{Appends};
ghost use Rattle.gate_host.specs.Faults.{one_more};

use crate::faults::raised;
use gate_world::Failed;
use std::io::Write;

/// A console over a stream.
#[derive(Drop)]
pub struct ErrorConsole<E: Write + Drop> {
    /// Where the texts go.
    pub stream: E,
    /// How often saying a text has failed; the last number stays.
    pub faults: u64,
}

impl<E: Write + Drop> ErrorConsole<E> {
    /// A console that has said nothing.
    pub fn new(stream: E) -> ErrorConsole<E>
        ensures { result ≡ record { stream = stream; faults = 0 } }
    {
        ErrorConsole { stream, faults: 0 }
    }

    /// Says the whole text. Where it fails, some of the text may have been said.
    pub fn say(&mut self, text: &[u8]) -> Result<(), Failed>
        ensures octets { OnOk result (Appends (E.contents self.old.stream) (E.contents self.new.stream) text.now) }
        ensures ok { OnOk result (self.new ≡ record self.old { stream = self.new.stream }) }
        ensures err { OnErr result (self.new ≡ record self.old { stream = self.new.stream; faults = one_more self.old.faults }) }
        ensures later { self.old.faults ≤ self.new.faults }
    {
        match self.stream.write_all(text) {
            Ok(()) => Ok(()),
            Err(_) => {
                self.faults = raised(self.faults);
                Err(Failed)
            }
        }
    }
}
