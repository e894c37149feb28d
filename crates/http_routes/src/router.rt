// The paths that there are.
ghost use Rattle.std.specs.Prelude.{◌≡◌, ◌∷◌, [], IfOk, None, Some, option_map};
ghost use Rattle.matchit.specs.Seek.{first};
ghost use Rattle.http_routes.specs.reading.Table.{paths, kind_at};

use matchit::{InsertError, Router};
use std::alloc::{AllocError, Global};

/// What a path is of.
#[derive(Clone, Copy, Debug, PartialEq, Eq)]
pub enum Kind {
    /// `/.well-known/jmap`
    Session,
    /// `/jmap/api`
    Api,
    /// `/jmap/upload/{account}`
    Upload,
    /// `/jmap/download/{account}/{blob}/{name}`, where the name may be empty.
    Download,
}

/// The paths that there are, to be looked up.
#[derive(Drop)]
pub struct Routes {
    router: Router<Kind>,
    /// Those paths and no others.
    ghost holds: { router ≡ paths },
}

/// A router over the paths.
fn router_of(alloc: Global) -> Result<Router<Kind>, InsertError>
    ensures { IfOk result (λ router. router ≡ paths) }
{
    let mut router = Router::new(alloc);
    router.insert("/.well-known/jmap", Kind::Session)?;
    router.insert("/jmap/api", Kind::Api)?;
    router.insert("/jmap/upload/{account}", Kind::Upload)?;
    router.insert("/jmap/download/{account}/{blob}/{name}", Kind::Download)?;
    router.insert("/jmap/download/{account}/{blob}/", Kind::Download)?;
    Ok(router)
}

impl Routes {
    /// The paths. The routes are well formed and apart from one another, so that only memory can be wanting.
    pub fn new(alloc: Global) -> Result<Routes, AllocError> {
        match router_of(alloc) {
            Ok(router) => Ok(Routes { router }),
            Err(_) => Err(AllocError),
        }
    }

    /// What the path is of.
    pub(crate) fn kind(&self, path: &str) -> Option<Kind>
        ensures { result ≡ kind_at path.now }
    {
        match self.router.at(path) {
            Ok(found) => Some(*found.value),
            Err(_) => None,
        }
    }
}
