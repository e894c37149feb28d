// The Session and its state.
ghost use Rattle.std.specs.Prelude.{◌≡◌, ◌++◌, map, IfOk, string_bytes};
ghost use Rattle.serde_json.specs.Data.{array, string};
ghost use Rattle.serde_json.specs.View.{view, items_of};
ghost use Rattle.jmap_core.specs.Session.{session_state_text, core_limits, email_orders, mail_limits, account_data, accounts_data, capabilities_data, primary_accounts_data, session_data};
ghost use Rattle.jmap_core.specs.Session.{api_path, download_path, events_path, upload_path};

use crate::MAX_CALLS_IN_REQUEST;
use jmap_arguments::{ACCOUNT_ID, MAX_OBJECTS_IN_GET};
use serde_json::{Map, Value, json, put};
use std::alloc::{AllocError, Global};

/// The most octets of a request's body, as the Session tells it (RFC 8620 section 2). The door has the same limit.
pub const MAX_SIZE_REQUEST: u64 = 10_000_000;

/// The most octets of an upload, as the Session tells it. The store of uploads has the same limit.
pub const MAX_SIZE_UPLOAD: u64 = 50_000_000;

// Of what no method does yet.
const MAX_CONCURRENT_REQUESTS: u64 = 4;

const MAX_CONCURRENT_UPLOAD: u64 = 4;

const MAX_OBJECTS_IN_SET: u64 = 500;

const MAX_SIZE_ATTACHMENTS_PER_EMAIL: u64 = 50_000_000;

const MAX_SIZE_MAILBOX_NAME: u64 = 255;

const API_PATH: &str = "/jmap/api";

const DOWNLOAD_PATH: &str = "/jmap/download/{accountId}/{blobId}/{name}?accept={type}";

const EVENTS_PATH: &str = "/jmap/eventsource?types={types}&closeafter={closeafter}&ping={ping}";

const UPLOAD_PATH: &str = "/jmap/upload/{accountId}";

/// The Session's state for this user and base URL (RFC 8620 section 2): `1;`, the user's length in octets, `;`,
/// the user, `;`, the base.
pub fn session_state(alloc: Global, user: &str, base: &str) -> Result<String, AllocError>
    ensures { IfOk result (λ text. string_bytes text ≡ session_state_text user.now base.now) }
{
    format!(in alloc; "1;{};{user};{base}", user.len())
}

fn core_limits(alloc: Global) -> Result<Value, AllocError>
    ensures { IfOk result (λ value. view value ≡ core_limits) }
{
    json!(in alloc; {
        "collationAlgorithms": [],
        "maxCallsInRequest": (MAX_CALLS_IN_REQUEST as u64),
        "maxConcurrentRequests": MAX_CONCURRENT_REQUESTS,
        "maxConcurrentUpload": MAX_CONCURRENT_UPLOAD,
        "maxObjectsInGet": (MAX_OBJECTS_IN_GET as u64),
        "maxObjectsInSet": MAX_OBJECTS_IN_SET,
        "maxSizeRequest": MAX_SIZE_REQUEST,
        "maxSizeUpload": MAX_SIZE_UPLOAD,
    })
}

fn email_orders(alloc: Global) -> Result<Value, AllocError>
    ensures { IfOk result (λ value. view value ≡ array (items_of (map string email_orders))) }
{
    json!(in alloc; [
        "receivedAt", "size", "from", "to", "subject", "sentAt", "hasKeyword",
        "allInThreadHaveKeyword", "someInThreadHaveKeyword",
    ])
}

fn mail_limits(alloc: Global) -> Result<Value, AllocError>
    ensures { IfOk result (λ value. view value ≡ mail_limits) }
{
    let orders = email_orders(alloc)?;
    json!(in alloc; {
        "emailQuerySortOptions": orders,
        "maxMailboxDepth": null,
        "maxMailboxesPerEmail": 1,
        "maxSizeAttachmentsPerEmail": MAX_SIZE_ATTACHMENTS_PER_EMAIL,
        "maxSizeMailboxName": MAX_SIZE_MAILBOX_NAME,
        "mayCreateTopLevelMailbox": true,
    })
}

fn account_value(alloc: Global, user: &str) -> Result<Value, AllocError>
    ensures { IfOk result (λ value. view value ≡ account_data user.now) }
{
    let limits = mail_limits(alloc)?;
    json!(in alloc; {
        "accountCapabilities": {"urn:ietf:params:jmap:mail": limits},
        "isPersonal": true,
        "isReadOnly": false,
        "name": user,
    })
}

fn url(alloc: Global, base: &str, path: &str) -> Result<Value, AllocError>
    ensures { IfOk result (λ value. view value ≡ string (base.now ++ path.now)) }
{
    Ok(Value::String(format!(in alloc; "{base}{path}")?))
}

fn state_value(alloc: Global, user: &str, base: &str) -> Result<Value, AllocError>
    ensures { IfOk result (λ value. view value ≡ string (session_state_text user.now base.now)) }
{
    Ok(Value::String(session_state(alloc, user, base)?))
}

fn accounts(alloc: Global, user: &str) -> Result<Value, AllocError>
    ensures { IfOk result (λ value. view value ≡ accounts_data user.now) }
{
    let account = account_value(alloc, user)?;
    let mut members = Map::new(alloc);
    put(&mut members, alloc, ACCOUNT_ID, account)?;
    Ok(Value::Object(members))
}

fn capabilities(alloc: Global) -> Result<Value, AllocError>
    ensures { IfOk result (λ value. view value ≡ capabilities_data) }
{
    let limits = core_limits(alloc)?;
    json!(in alloc; {
        "urn:ietf:params:jmap:core": limits,
        "urn:ietf:params:jmap:mail": {},
    })
}

fn primary_accounts(alloc: Global) -> Result<Value, AllocError>
    ensures { IfOk result (λ value. view value ≡ primary_accounts_data) }
{
    json!(in alloc; {"urn:ietf:params:jmap:mail": ACCOUNT_ID})
}

/// The URLs under a base URL.
#[derive(Drop)]
struct Urls {
    api: Value,
    download: Value,
    events: Value,
    upload: Value,
}

fn urls_under(alloc: Global, base: &str) -> Result<Urls, AllocError>
    ensures api { IfOk result (λ urls. view urls.api ≡ string (base.now ++ api_path)) }
    ensures download { IfOk result (λ urls. view urls.download ≡ string (base.now ++ download_path)) }
    ensures events { IfOk result (λ urls. view urls.events ≡ string (base.now ++ events_path)) }
    ensures upload { IfOk result (λ urls. view urls.upload ≡ string (base.now ++ upload_path)) }
{
    Ok(Urls {
        api: url(alloc, base, API_PATH)?,
        download: url(alloc, base, DOWNLOAD_PATH)?,
        events: url(alloc, base, EVENTS_PATH)?,
        upload: url(alloc, base, UPLOAD_PATH)?,
    })
}

/// The Session of this user under this base URL (RFC 8620 section 2).
pub fn session_object(alloc: Global, user: &str, base: &str) -> Result<Value, AllocError>
    ensures { IfOk result (λ value. view value ≡ session_data user.now base.now) }
{
    let accounts = accounts(alloc, user)?;
    let capabilities = capabilities(alloc)?;
    let primary = primary_accounts(alloc)?;
    let urls = urls_under(alloc, base)?;
    let state = state_value(alloc, user, base)?;
    let name = Value::try_from_str(alloc, user)?;
    let mut session = Map::new(alloc);
    put(&mut session, alloc, "accounts", accounts)?;
    put(&mut session, alloc, "apiUrl", urls.api)?;
    put(&mut session, alloc, "capabilities", capabilities)?;
    put(&mut session, alloc, "downloadUrl", urls.download)?;
    put(&mut session, alloc, "eventSourceUrl", urls.events)?;
    put(&mut session, alloc, "primaryAccounts", primary)?;
    put(&mut session, alloc, "state", state)?;
    put(&mut session, alloc, "uploadUrl", urls.upload)?;
    put(&mut session, alloc, "username", name)?;
    Ok(Value::Object(session))
}
