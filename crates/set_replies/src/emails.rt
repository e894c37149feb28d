// What a reply says of Emails.
ghost use Rattle.std.specs.Prelude.{◌≡◌, IfOk};
ghost use Rattle.std.specs.Option.{option_copied};
ghost use Rattle.serde_json.specs.View.{view};
ghost use Rattle.set_replies.specs.Emails as spec;

use email_objects::keywords;
use jmap_arguments::{EMAIL_LETTER, THREAD_LETTER, id_value};
use mail_maps::EmailRow;
use octets::Names;
use serde_json::{Value, json};
use std::alloc::{AllocError, Global};

/// What blob ids of whole messages begin with.
const BLOB_LETTER: char = 'r';

/// An Email that was made, with what a client can't know of it.
pub(crate) fn made_value(alloc: Global, size: u64, row: &EmailRow) -> Result<Value, AllocError>
    ensures { IfOk result (λ value. view value ≡ spec.made_data size (row.now.number, row.now)) }
{
    let id = id_value(alloc, EMAIL_LETTER, row.number)?;
    let thread = id_value(alloc, THREAD_LETTER, row.thread)?;
    let blob = id_value(alloc, BLOB_LETTER, row.number)?;
    json!(in alloc; {
        "blobId": blob,
        "id": id,
        "size": size,
        "threadId": thread,
    })
}

/// The keywords that an Email has, where they aren't those that were asked.
pub(crate) fn keywords_if_other(
    alloc: Global,
    asked: &Names,
    row: Option<&EmailRow>,
) -> Result<Value, AllocError>
    ensures { IfOk result (λ value. view value ≡ spec.came_out asked.now (option_copied row.entry)) }
{
    let Some(row) = row else {
        return Ok(Value::Null);
    };
    if *asked == row.keywords {
        return Ok(Value::Null);
    }
    let keywords = keywords(alloc, Some(row))?;
    json!(in alloc; { "keywords": keywords })
}
