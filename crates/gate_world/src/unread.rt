// Octets that came from the outside and are not read yet.
ghost use Rattle.std.specs.Prelude.{◌≡◌, ◌+◌, ◌-◌, ◌<◌, ◌≤◌, [], ◌++◌, length, take, drop, min, vec_len, slice_range, IfOk, OnOk, OnErr, IsErrOf};
ghost use Rattle.gate_world.specs.Causes.{FrontAlone, LinkAlone, Rose};
ghost use Rattle.gate_world.specs.Tape.{Adds};
ghost use Rattle.gate_world.specs.Unread.{ClientFills, ClientTells, LinkFills, LinkTells};

use crate::{Front, Link};
use std::alloc::{AllocError, Global};
use std::marker::Model;

/// The most octets that one fill asks for.
pub const MAX_FILL_OCTETS: usize = 65_536;

/// Why no octets came.
#[derive(Clone, Copy, Debug, PartialEq, Eq)]
pub enum FillError {
    /// The outside failed.
    Failed,
    /// Out of memory: the outside was not asked.
    Memory,
}

/// Octets that came and are not read yet, in the order in which they came. It keeps its room: what is read gives place
/// to what comes, and no octet is moved more often than once for each octet that is read.
#[derive(Drop)]
pub struct Unread {
    // Octets that are read, octets that are not, and room for more.
    held: Vec<u8>,
    // The place of the first octet that is not read.
    from: usize,
    // The place after the last one.
    to: usize,
}

impl Model for Unread {
    ghost use Rattle.std.specs.Prelude.{◌≤◌, List, ℕ, vec_len, slice_range};

    ghost Value = { List ℕ };

    ghost view = { λ u. slice_range u.held.items u.from u.to };

    ghost invariant = { λ u. (u.from ≤ u.to) × (u.to ≤ vec_len u.held) };
}

impl Unread {
    /// No octets. It takes no memory.
    pub fn new(alloc: Global) -> Unread
        ensures { result ≡ [] }
    {
        Unread {
            held: Vec::new(alloc),
            from: 0,
            to: 0,
        }
    }

    /// The octets, in the order in which they came.
    pub fn as_slice(&self) -> &[u8]
        ensures { result.now ≡ self.now }
    {
        &self.held[self.from..self.to]
    }

    /// The first `count` octets are read.
    pub fn skip(&mut self, count: usize)
        requires { count ≤ length self.old }
        ensures { self.new ≡ drop count self.old }
    {
        self.from += count;
    }

    /// Gives the first `count` octets out, in memory of their own. Out of memory leaves them where they are.
    pub fn take_front(&mut self, alloc: Global, count: usize) -> Result<Vec<u8>, AllocError>
        requires { count ≤ length self.old }
        ensures taken { IfOk result (λ taken. taken.items ≡ take count self.old) }
        ensures rest { OnOk result (self.new ≡ drop count self.old) }
        ensures err { OnErr result (self.new ≡ self.old) }
    {
        let (front, _) = self.as_slice().split_at(count);
        let taken = front.to_vec(alloc)?;
        self.skip(count);
        Ok(taken)
    }

    /// All the octets, in the room that they stand in. It takes no memory.
    pub fn into_vec(self) -> Vec<u8>
        ensures { result.items ≡ self }
    {
        let Unread { mut held, from, to } = self;
        held.copy_within(from..to, 0);
        held.truncate(to - from);
        held
    }

    // Moves the octets to the front, where at least as many are read as are not.
    fn move_to_front(&mut self)
        ensures { self.new ≡ self.old }
    {
        let (from, to) = (self.from, self.to);
        if to - from <= from {
            self.held.copy_within(from..to, 0);
            self.from = 0;
            self.to = to - from;
        }
    }

    /// Reads once from the link, at most `MAX_FILL_OCTETS`. Room for them is made first, so that out of memory asks for
    /// nothing.
    pub fn fill_from_link<L: Link>(&mut self, link: &mut L) -> Result<(), FillError>
        ensures octets { LinkFills MAX_FILL_OCTETS self.old self.new result }
        ensures tape { Adds (L.tape link.old) (L.tape link.new) (LinkTells self.old self.new result) }
        ensures alone { LinkAlone (L.faults link.old) (L.faults link.new) }
        ensures cause { IsErrOf result FillError.Failed → Rose (L.faults link.old).link (L.faults link.new).link }
        ensures unasked { IsErrOf result FillError.Memory → link.new ≡ link.old }
        ensures hidden { L.hidden link.new ≡ L.hidden link.old }
    {
        self.move_to_front();
        let to = self.to;
        let Ok(()) = make_room(&mut self.held, to, MAX_FILL_OCTETS) else {
            return Err(FillError::Memory);
        };
        match link.read(&mut self.held[to..to + MAX_FILL_OCTETS]) {
            Ok(count) => {
                self.to = to + count;
                Ok(())
            }
            Err(_) => Err(FillError::Failed),
        }
    }

    /// Asks the client once, for at most `most` octets and at most `MAX_FILL_OCTETS`; false where it ended its input.
    /// Room for them is made first, so that out of memory asks for nothing.
    pub fn fill_from_client<F: Front>(
        &mut self,
        front: &mut F,
        most: usize,
    ) -> Result<bool, FillError>
        requires { 0 < most }
        ensures octets { ClientFills (min most MAX_FILL_OCTETS) self.old self.new result }
        ensures tape { Adds (F.tape front.old) (F.tape front.new) (ClientTells self.old self.new result) }
        ensures alone { FrontAlone (F.faults front.old) (F.faults front.new) }
        ensures cause { IsErrOf result FillError.Failed → Rose (F.faults front.old).front (F.faults front.new).front }
        ensures unasked { IsErrOf result FillError.Memory → front.new ≡ front.old }
        ensures hidden { F.hidden front.new ≡ F.hidden front.old }
    {
        self.move_to_front();
        let to = self.to;
        let room = most.min(MAX_FILL_OCTETS);
        let Ok(()) = make_room(&mut self.held, to, room) else {
            return Err(FillError::Memory);
        };
        match front.recv(&mut self.held[to..to + room]) {
            Ok(0) => Ok(false),
            Ok(count) => {
                self.to = to + count;
                Ok(true)
            }
            Err(_) => Err(FillError::Failed),
        }
    }
}

// Makes room for `count` octets after the first `to`, which stay.
fn make_room(held: &mut Vec<u8>, to: usize, count: usize) -> Result<(), AllocError>
    requires within { to ≤ vec_len held.old }
    requires small { count ≤ MAX_FILL_OCTETS }
    ensures room { OnOk result (to + count ≤ vec_len held.new) }
    ensures kept { take to held.new.items ≡ take to held.old.items }
    ensures len { vec_len held.old ≤ vec_len held.new }
{
    let missing = count.saturating_sub(held.len() - to);
    if missing != 0 {
        held.resize(held.len() + missing, 0)?;
    }
    Ok(())
}
