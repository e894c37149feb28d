// What is read of a client, and what it takes.
use crate::written::{or_dash, put_all, put_short};
use gate_world::{Event, Front};
use http_requests::{AskError, HttpAsking, ask_over_http};
use http_routes::Routes;
use http_service::{Head, HttpError, Spare, read_body, read_head};
use octets::Bytes;
use scripted_world::{Script, ScriptWorld};
use std::alloc::{AllocError, Global};

/// Adds the method, the path, the query, the token, the content type, the body, and whether the client waits.
fn put_head(head: &Head, out: &mut String) -> Result<(), AllocError> {
    let texts: [&[u8]; 5] = [
        head.method.as_slice(),
        head.path.as_slice(),
        head.query.as_slice(),
        or_dash(&head.token),
        or_dash(&head.content_type),
    ];
    put_all(out, "head", &texts)?;
    write!(out, ",{:?},{}", head.body, head.expects)
}

/// Adds what is asked.
fn put_asking(asking: &HttpAsking, out: &mut String) -> Result<(), AllocError> {
    match asking {
        HttpAsking::Calls { body } => put_all(out, "calls", &[body.as_slice()]),
        HttpAsking::Upload { media, octets } => {
            let media = media.as_str().as_bytes();
            put_all(out, "upload", &[media, octets.as_slice()])
        }
        HttpAsking::Download { blob, name, media } => {
            let (blob, name) = (blob.as_slice(), name.as_slice());
            put_all(out, "download", &[blob, name, or_dash(media)])
        }
        HttpAsking::Refused { refusal } => write!(out, "{refusal:?}"),
        other => write!(out, "{other:?}"),
    }
}

/// One client, accepted, and what came of it.
#[derive(Drop)]
pub(crate) struct Client {
    pub world: ScriptWorld,
    pub said: String,
    spare: Spare,
    alloc: Global,
}

impl Client {
    /// A client that gives these octets, at most `piece` at once, and must show the token `word`. A call of number 0 is none.
    pub(crate) fn new(
        alloc: Global,
        octets: &[u8],
        piece: usize,
        failing: u64,
    ) -> Result<Client, AllocError> {
        let script = Script::new(alloc)?
            .with_client(octets)?
            .with_secrets(b"", b"word")?
            .in_pieces(piece)
            .failing(failing)?;
        let mut world = ScriptWorld::new(alloc, script);
        let _ = world.accept();
        Ok(Client {
            world,
            said: String::new(alloc),
            spare: Spare::new(alloc),
            alloc,
        })
    }

    fn head(&mut self) -> Result<Head, HttpError> {
        read_head(self.alloc, &mut self.world, &mut self.spare)
    }

    /// Adds what the next head says.
    fn put_head(&mut self) -> Result<(), AllocError> {
        match self.head() {
            Ok(head) => put_head(&head, &mut self.said),
            Err(error) => write!(self.said, "{error:?}"),
        }
    }

    fn body_of(&mut self, head: &Head, limit: u64) -> Result<Bytes, HttpError> {
        read_body(self.alloc, &mut self.world, &mut self.spare, head, limit)
    }

    /// The body after the next head.
    fn body(&mut self, limit: u64) -> Result<Bytes, HttpError> {
        let head = self.head()?;
        self.body_of(&head, limit)
    }

    fn put_body(&mut self, limit: u64) -> Result<(), AllocError> {
        match self.body(limit) {
            Ok(body) => put_all(&mut self.said, "body", &[body.as_slice()]),
            Err(error) => write!(self.said, "{error:?}"),
        }
    }

    /// What is asked, where there is the account `a1`.
    fn asked(&mut self, routes: &Routes) -> Result<HttpAsking, AskError> {
        ask_over_http(self.alloc, &mut self.world, routes, b"a1")
    }

    /// Adds what is asked.
    fn put_asked(&mut self) -> Result<(), AllocError> {
        let routes = Routes::new(self.alloc)?;
        match self.asked(&routes) {
            Ok(asking) => put_asking(&asking, &mut self.said),
            Err(error) => write!(self.said, "{error:?}"),
        }
    }

    /// Reads what the words say, one after another.
    pub(crate) fn read(&mut self, words: &str, limit: u64) -> Result<(), AllocError> {
        for word in words.split('+') {
            self.said.push_str("; ")?;
            match word {
                "head" => self.put_head()?,
                "body" => self.put_body(limit)?,
                "asks" => self.put_asked()?,
                _ => self.said.push_str("no such word")?,
            }
        }
        Ok(())
    }

    /// Adds what the client took.
    pub(crate) fn put_taken(&mut self) -> Result<(), AllocError> {
        for event in self.world.events().unwrap_or(&[]) {
            if let Event::ClientTook(octets) = event {
                self.said.push_str("; took,")?;
                put_short(&mut self.said, octets.as_slice())?;
            }
        }
        Ok(())
    }

    /// How many octets were given before the client took something.
    pub(crate) fn given(&self) -> usize {
        let mut given: usize = 0;
        for event in self.world.events().unwrap_or(&[]) {
            match event {
                Event::ClientGave(octets) => given = given.saturating_add(octets.as_slice().len()),
                Event::ClientTook(_) => return given,
                _ => {}
            }
        }
        given
    }
}
