// A call that creates: the mail, the uploads, and what its ids name.
use crate::bodies::Bodies;
use crate::printed::{put_job, put_refusal};
use blob_store::BlobStore;
use email_creation::{check_creation, draw_creation};
use email_import::{ReadyImport, check_import, find_message, import_job};
use jmap_core::CreatedIds;
use mail_state::MailState;
use serde_json::{Map, Value};
use set_given::{Given, MadeFolders};
use std::alloc::{AllocError, Global};
use std::collections::BTreeSet;
use told_mail::Mirror;

/// What is asked of properties.
#[derive(Clone, Copy)]
pub(crate) enum Asked {
    /// What a creation of them comes to, with the lines of its message or without them.
    Creation { lines: bool },
    /// What an import of them comes to.
    Import,
}

/// What a creation is checked over.
#[derive(Drop)]
pub(crate) struct Call {
    pub mirror: Mirror,
    pub state: MailState,
    pub uploads: BlobStore,
    /// What the request created before the call.
    pub created: CreatedIds,
    /// The creation ids of the call, and the folders that it made, by these.
    pub making: Vec<String>,
    pub made: Vec<(String, u64)>,
    pub second: i64,
    pub word: u64,
    pub alloc: Global,
}

impl Call {
    fn put_created(
        &self,
        given: &Given<'_, '_>,
        properties: &Map<String, Value>,
        lines: bool,
        out: &mut String,
    ) -> Result<(), AllocError> {
        match check_creation(self.alloc, given, &self.uploads, properties)? {
            Err(error) => put_refusal(&error, out),
            Ok(ready) => match draw_creation(self.alloc, ready, self.second, self.word)? {
                Err(error) => put_refusal(&error, out),
                Ok(job) => put_job(&job, lines, out),
            },
        }
    }

    /// What an import comes to, once its octets are sought.
    fn put_ready(
        &self,
        bodies: &mut Bodies,
        ready: ReadyImport,
        out: &mut String,
    ) -> Result<(), AllocError> {
        let found = find_message(
            self.alloc,
            &self.state,
            &self.uploads,
            bodies,
            &mut (),
            &ready,
        );
        bodies.put_asked(out)?;
        match found {
            Err(error) => write!(out, "{error}"),
            Ok(Err(error)) => put_refusal(&error, out),
            Ok(Ok(message)) => {
                let job = import_job(self.alloc, ready, self.second, message)?;
                put_job(&job, false, out)
            }
        }
    }

    fn put_imported(
        &self,
        given: &Given<'_, '_>,
        bodies: &mut Bodies,
        properties: &Map<String, Value>,
        out: &mut String,
    ) -> Result<(), AllocError> {
        match check_import(self.alloc, given, properties)? {
            Err(error) => put_refusal(&error, out),
            Ok(ready) => self.put_ready(bodies, ready, out),
        }
    }

    /// The same over what the call is to make, and made.
    fn put_over<'g, 'k>(
        &'g self,
        making: &'g BTreeSet<&'k str>,
        made: &'g MadeFolders<'k>,
        bodies: &mut Bodies,
        properties: &Map<String, Value>,
        asked: Asked,
        out: &mut String,
    ) -> Result<(), AllocError> {
        let given = Given {
            state: &self.state,
            mirror: &self.mirror,
            selected: None,
            special_use: false,
            created: &self.created,
            making,
            made,
        };
        match asked {
            Asked::Creation { lines } => self.put_created(&given, properties, lines, out),
            Asked::Import => self.put_imported(&given, bodies, properties, out),
        }
    }

    /// Adds what is asked of these properties.
    pub(crate) fn put(
        &self,
        bodies: &mut Bodies,
        properties: &Map<String, Value>,
        asked: Asked,
        out: &mut String,
    ) -> Result<(), AllocError> {
        let mut making = BTreeSet::new(self.alloc);
        for key in &self.making {
            making.insert(key.as_str())?;
        }
        let mut made = MadeFolders::new(self.alloc);
        for (key, number) in &self.made {
            made.add(key.as_str(), *number)?;
        }
        self.put_over(&making, &made, bodies, properties, asked, out)
    }
}
