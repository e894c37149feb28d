// Uploads that are kept and that are refused.
use crate::written::{put_all, written};
use blob_store::BlobStore;
use octets::Bytes;
use std::alloc::{AllocError, Global};

/// A store of uploads, and the ids of those that it took, in order.
#[derive(Drop)]
pub(crate) struct Uploads {
    store: BlobStore,
    ids: Vec<Bytes>,
    alloc: Global,
}

impl Uploads {
    pub(crate) fn new(alloc: Global) -> Uploads {
        Uploads {
            store: BlobStore::new(alloc),
            ids: Vec::new(alloc),
            alloc,
        }
    }

    /// Adds the octets that are kept under this id.
    fn put_kept(&self, id: &[u8], out: &mut String) -> Result<(), AllocError> {
        match self.store.get(id) {
            Some(octets) => put_all(out, "kept", &[octets.as_slice()]),
            None => out.push_str("none"),
        }
    }

    /// Takes an upload, and adds its id, and what is kept of each so far.
    fn put_upload(&mut self, octets: &[u8], out: &mut String) -> Result<(), AllocError> {
        match self.store.put(octets) {
            Ok(id) => {
                put_all(out, "id", &[id.as_slice()])?;
                self.ids.push(id)?;
            }
            Err(error) => write!(out, "{error}")?,
        }
        for id in &self.ids {
            out.push_str("; ")?;
            self.put_kept(id.as_slice(), out)?;
        }
        Ok(())
    }

    /// Does what a row says.
    pub(crate) fn take(
        &mut self,
        word: &str,
        text: &str,
        out: &mut String,
    ) -> Result<(), AllocError> {
        let octets = written(self.alloc, text)?;
        match word {
            "upload" => self.put_upload(&octets, out)?,
            _ => self.put_kept(&octets, out)?,
        }
        out.push('\n')
    }
}
