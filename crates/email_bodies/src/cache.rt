// The bodies that are kept.
ghost use Rattle.std.specs.Prelude.{◌≡◌, [], IfOk, OnErr, OnOk};
ghost use Rattle.email_bodies.specs.Keeping.{body_at, after_use, with_body};

use lru::LruCache;
use octets::Bytes;
use std::alloc::{AllocError, Global};
use std::marker::Model;
use std::num::NonZeroUsize;

/// How many bodies are kept.
pub const MAX_BODIES: usize = 32;

/// The bodies that were used last, by the numbers of their Emails.
#[derive(Drop)]
pub struct BodyCache {
    bodies: LruCache<u64, Bytes>,
}

impl Model for BodyCache {
    ghost use Rattle.std.specs.Prelude.{◌≡◌};
    ghost use Rattle.email_bodies.specs.Keeping.{Bodies};
    ghost use Rattle.email_bodies.specs.declared.cache.TheConstants.{MAX_BODIES};

    ghost Value = { Bodies };

    ghost view = { λ c. c.bodies.entries };

    ghost invariant = { λ c. c.bodies.cap ≡ MAX_BODIES };
}

impl BodyCache {
    /// No body is kept. It takes the memory for the places of all that ever are.
    pub fn new(alloc: Global) -> Result<BodyCache, AllocError>
        ensures { IfOk result (λ c. c ≡ []) }
    {
        let Some(most) = NonZeroUsize::new(MAX_BODIES) else {
            unreachable!();
        };
        Ok(BodyCache {
            bodies: LruCache::new(alloc, most)?,
        })
    }

    /// The body of the Email, shared, where it is kept.
    fn shared(&self, email: u64) -> Result<Option<Bytes>, AllocError>
        ensures { IfOk result (λ body. body ≡ body_at self.now email) }
    {
        match self.bodies.peek(&email) {
            None => Ok(None),
            Some(body) => Ok(Some(body.share()?)),
        }
    }

    /// The body of the Email, where it is kept; it is the one that was used last then. The octets are shared, so it takes no
    /// memory, and fails only where 2^64 - 1 own them. An Err changes nothing.
    pub fn get(&mut self, email: u64) -> Result<Option<Bytes>, AllocError>
        ensures found { IfOk result (λ body. body ≡ body_at self.old email) }
        ensures used { OnOk result (self.new ≡ after_use email self.old) }
        ensures refused { OnErr result (self.new ≡ self.old) }
    {
        let body = self.shared(email)?;
        let _used = self.bodies.promote(&email);
        Ok(body)
    }

    /// Keeps a body, in place of the one that was used longest ago where there would be too many. An Err changes nothing.
    pub fn put(&mut self, email: u64, body: Bytes) -> Result<(), AllocError>
        ensures kept { OnOk result (self.new ≡ with_body email body self.old) }
        ensures refused { OnErr result (self.new ≡ self.old) }
    {
        self.bodies.put(email, body)?;
        Ok(())
    }
}
