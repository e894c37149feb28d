// All of a text is sent or written, a piece at a time.
ghost use Rattle.std.specs.Prelude.{◌≡◌, OnErr};
ghost use Rattle.gate_world.specs.Causes.{Rose, FrontAlone, LinkAlone};
ghost use Rattle.gate_world.specs.Sending.{Sends, Writes};
ghost use Rattle.gate_world.specs.Tape.{Adds};

use crate::{Failed, Front, Link};

/// Sends the client all of the octets, a piece at a time. It fails where a send fails, before the client took them all.
pub fn send_all<F: Front>(front: &mut F, octets: &[u8]) -> Result<(), Failed>
    ensures tape { Adds (F.tape front.old) (F.tape front.new) (Sends octets.now result) }
    ensures alone { FrontAlone (F.faults front.old) (F.faults front.new) }
    ensures cause { OnErr result (Rose (F.faults front.old).front (F.faults front.new).front) }
    ensures hidden { F.hidden front.new ≡ F.hidden front.old }
{
    let mut rest = octets;
    while !rest.is_empty() {
        let count = front.send(rest)?;
        rest = &rest[count..];
    }
    Ok(())
}

/// Writes all of the octets to the store, a piece at a time. It fails where a write fails, before the store took them all.
pub fn write_all<L: Link>(link: &mut L, octets: &[u8]) -> Result<(), Failed>
    ensures tape { Adds (L.tape link.old) (L.tape link.new) (Writes octets.now result) }
    ensures alone { LinkAlone (L.faults link.old) (L.faults link.new) }
    ensures cause { OnErr result (Rose (L.faults link.old).link (L.faults link.new).link) }
    ensures hidden { L.hidden link.new ≡ L.hidden link.old }
{
    let mut rest = octets;
    while !rest.is_empty() {
        let count = link.write(rest)?;
        rest = &rest[count..];
    }
    Ok(())
}
