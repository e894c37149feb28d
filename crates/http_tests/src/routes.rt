// Routes of targets, and tokens.
use crate::written::{or_dash, put_all};
use http_routes::{Route, RouteRequest, Routes, is_token};
use std::alloc::{AllocError, Global};
use test_rows::first_word;

/// Adds the route of a method and a target, where there is the account `a1`.
pub(crate) fn put_route(alloc: Global, text: &str, out: &mut String) -> Result<(), AllocError> {
    let (method, target) = first_word(text);
    let (path, query) = target.split_once('?').unwrap_or((target, ""));
    let request = RouteRequest {
        method: method.as_bytes(),
        path,
        query,
    };
    match Routes::new(alloc)?.route(alloc, b"a1", request)? {
        Route::Download { blob, name, media } => {
            let (blob, name) = (blob.as_slice(), name.as_slice());
            put_all(out, "download", &[blob, name, or_dash(&media)])?
        }
        other => write!(out, "{other:?}")?,
    }
    out.push('\n')
}

/// Adds whether what is sent is the token.
pub(crate) fn put_token(text: &str, out: &mut String) -> Result<(), AllocError> {
    let (sent, token) = first_word(text);
    writeln!(out, "{}", is_token(sent.as_bytes(), token.as_bytes()))
}
