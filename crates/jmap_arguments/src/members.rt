// The members of answers.
ghost use Rattle.std.specs.Prelude.{◌≡◌, OnOk};
ghost use Rattle.serde_json.specs.Data.{put as put_data, string};
ghost use Rattle.serde_json.specs.View.{members_view};

use serde_json::{Map, Value, put};
use std::alloc::{AllocError, Global};

/// Puts a copy of the text at the key, in place of what is there.
pub fn put_text(
    members: &mut Map<String, Value>,
    alloc: Global,
    key: &str,
    text: &str,
) -> Result<(), AllocError>
    ensures { OnOk result (members_view members.new.entries ≡ put_data key.now (string text.now) (members_view members.old.entries)) }
{
    put(members, alloc, key, Value::try_from_str(alloc, text)?)
}
