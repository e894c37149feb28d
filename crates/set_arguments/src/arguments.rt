// What Email/set, Mailbox/set and Email/import ask.
ghost use Rattle.std.specs.Prelude.{◌≡◌, IfOk, map, nat_lt, option_map};
ghost use Rattle.std.specs.Option.{option_copied};
ghost use Rattle.serde_json.specs.Find.{get};
ghost use Rattle.serde_json.specs.View.{view, members_view};
ghost use Rattle.jmap_arguments.specs.Outcome.{Agrees, IsJust};
ghost use Rattle.jmap_arguments.specs.declared.method_error.MethodError.TheVariants.{Memory};
ghost use Rattle.set_arguments.specs.Arguments as spec;
ghost use Rattle.set_arguments.specs.reading.Asked.{asked_data};
ghost use Rattle.set_arguments.specs.reading.Keys.{AscendWhereThere, keyed_data};

use crate::asked::{Keyed, SetAsked};
use crate::set_method::SetMethod;
use jmap_arguments::{MethodError, check_account, has_fraction, texts_in};
use serde_json::{Map, Value};
use std::alloc::{AllocError, Global};

/// How many objects one call may create, update and destroy (RFC 8620 section 2, maxObjectsInSet).
pub const MAX_OBJECTS_IN_SET: usize = 500;

/// The objects that the members of an object are, or none where one is none.
fn objects_in<'a>(
    alloc: Global,
    members: &'a Map<String, Value>,
) -> Result<Option<Vec<Keyed<'a>>>, AllocError>
    ensures objects { IfOk result (λ o. option_map (λ v. map keyed_data v.items) o ≡ spec.objects_in (members_view members.now.entries)) }
    ensures ascend { IfOk result AscendWhereThere }
{
    let mut objects = Vec::with_capacity(alloc, members.len())?;
    for (key, value) in members.iter() {
        let Some(object) = value.as_object() else {
            return Ok(None);
        };
        objects.push(Keyed {
            key: key.as_str(),
            object,
        })?;
    }
    Ok(Some(objects))
}

/// The same of what stands at the key, where null is as if nothing stood there.
fn keyed_at<'a>(
    alloc: Global,
    arguments: &'a Value,
    key: &str,
) -> Result<Option<Vec<Keyed<'a>>>, AllocError>
    ensures objects { IfOk result (λ o. option_map (λ v. map keyed_data v.items) o ≡ spec.keyed_in (get key.now (view arguments.now))) }
    ensures ascend { IfOk result AscendWhereThere }
{
    match arguments.get(key) {
        None | Some(Value::Null) => Ok(Some(Vec::new(alloc))),
        Some(Value::Object(members)) => Ok(objects_in(alloc, members)?),
        Some(_) => Ok(None),
    }
}

/// The same, where an object has to stand at the key.
fn keyed_there<'a>(
    alloc: Global,
    arguments: &'a Value,
    key: &str,
) -> Result<Option<Vec<Keyed<'a>>>, AllocError>
    ensures objects { IfOk result (λ o. option_map (λ v. map keyed_data v.items) o ≡ spec.keyed_there (get key.now (view arguments.now))) }
    ensures ascend { IfOk result AscendWhereThere }
{
    match arguments.get(key) {
        Some(Value::Object(members)) => Ok(objects_in(alloc, members)?),
        _ => Ok(None),
    }
}

/// What is to be made: of an import its `emails`, which have to be there.
fn create_asked<'a>(
    alloc: Global,
    method: SetMethod,
    arguments: &'a Value,
) -> Result<Option<Vec<Keyed<'a>>>, AllocError>
    ensures objects { IfOk result (λ o. option_map (λ v. map keyed_data v.items) o ≡ spec.create_asked method (view arguments.now)) }
    ensures ascend { IfOk result AscendWhereThere }
{
    match method {
        SetMethod::EmailSet | SetMethod::MailboxSet => keyed_at(alloc, arguments, "create"),
        SetMethod::EmailImport => keyed_there(alloc, arguments, "emails"),
    }
}

fn update_asked<'a>(
    alloc: Global,
    method: SetMethod,
    arguments: &'a Value,
) -> Result<Option<Vec<Keyed<'a>>>, AllocError>
    ensures objects { IfOk result (λ o. option_map (λ v. map keyed_data v.items) o ≡ spec.update_asked method (view arguments.now)) }
    ensures ascend { IfOk result AscendWhereThere }
{
    match method {
        SetMethod::EmailSet | SetMethod::MailboxSet => keyed_at(alloc, arguments, "update"),
        SetMethod::EmailImport => Ok(Some(Vec::new(alloc))),
    }
}

fn texts_at<'a>(
    alloc: Global,
    arguments: &'a Value,
    key: &str,
) -> Result<Option<Vec<&'a str>>, AllocError>
    ensures { IfOk result (λ o. option_map (λ v. map (λ t. t.now) v.items) o ≡ spec.texts_or_none (get key.now (view arguments.now))) }
{
    match arguments.get(key) {
        None | Some(Value::Null) => Ok(Some(Vec::new(alloc))),
        Some(Value::Array(items)) => texts_in(alloc, items),
        Some(_) => Ok(None),
    }
}

fn destroy_asked<'a>(
    alloc: Global,
    method: SetMethod,
    arguments: &'a Value,
) -> Result<Option<Vec<&'a str>>, AllocError>
    ensures { IfOk result (λ o. option_map (λ v. map (λ t. t.now) v.items) o ≡ spec.destroy_asked method (view arguments.now)) }
{
    match method {
        SetMethod::EmailSet | SetMethod::MailboxSet => texts_at(alloc, arguments, "destroy"),
        SetMethod::EmailImport => Ok(Some(Vec::new(alloc))),
    }
}

fn state_asked<'a>(arguments: &'a Value) -> Option<Option<&'a str>>
    ensures { option_map (λ o. option_map (λ t. t.now) o) result ≡ spec.state_asked (view arguments.now) }
{
    match arguments.get("ifInState") {
        None | Some(Value::Null) => Some(None),
        Some(value) => match value.as_str() {
            None => None,
            Some(text) => Some(Some(text)),
        },
    }
}

/// A Boolean, false where nothing or null stands there.
fn truth_or_null(value: Option<&Value>) -> Option<bool>
    ensures { result ≡ spec.truth_or_null (option_map view (option_copied value.entry)) }
{
    match value {
        None | Some(Value::Null) => Some(false),
        Some(value) => value.as_bool(),
    }
}

fn removes_asked(method: SetMethod, arguments: &Value) -> Option<bool>
    ensures { result ≡ spec.removes_asked method (view arguments.now) }
{
    match method {
        SetMethod::EmailSet | SetMethod::EmailImport => Some(false),
        SetMethod::MailboxSet => truth_or_null(arguments.get("onDestroyRemoveEmails")),
    }
}

/// Whether the account that is named is the one that there is, or none where no text names one.
fn account_asked(arguments: &Value) -> Option<Result<(), MethodError>>
    ensures { result ≡ spec.account_asked (view arguments.now) }
{
    match arguments.get("accountId").and_then(Value::as_str) {
        None => None,
        Some(account) => Some(check_account(account)),
    }
}

/// Whether more objects are asked than one call may have.
fn is_too_large(asked: &SetAsked<'_>) -> bool
    ensures { result ≡ nat_lt MAX_OBJECTS_IN_SET (spec.count_asked (asked_data asked.now)) }
{
    let changed = asked.update.len().saturating_add(asked.destroy.len());
    asked.create.len().saturating_add(changed) > MAX_OBJECTS_IN_SET
}

/// The account first, then the count.
fn within_count<'a>(
    asked: SetAsked<'a>,
    account: Result<(), MethodError>,
) -> Result<SetAsked<'a>, MethodError>
    ensures { IsJust asked_data result (spec.within_count (asked_data asked.entry) account) }
{
    account?;
    if is_too_large(&asked) {
        return Err(MethodError::RequestTooLarge);
    }
    Ok(asked)
}

/// What arguments with integers alone ask.
fn asked_of<'a>(
    alloc: Global,
    method: SetMethod,
    arguments: &'a Value,
) -> Result<SetAsked<'a>, MethodError>
    ensures { Agrees Memory asked_data result (spec.asked_of method (view arguments.now)) }
{
    let account = account_asked(arguments).ok_or(MethodError::InvalidArguments)?;
    let state = state_asked(arguments).ok_or(MethodError::InvalidArguments)?;
    let destroy = destroy_asked(alloc, method, arguments)?.ok_or(MethodError::InvalidArguments)?;
    let removes = removes_asked(method, arguments).ok_or(MethodError::InvalidArguments)?;
    let create = create_asked(alloc, method, arguments)?.ok_or(MethodError::InvalidArguments)?;
    let update = update_asked(alloc, method, arguments)?.ok_or(MethodError::InvalidArguments)?;
    let asked = SetAsked {
        state,
        create,
        update,
        destroy,
        removes,
    };
    within_count(asked, account)
}

/// What a call asks (RFC 8620 section 5.3). A refusal is, in this order, `InvalidArguments` exactly where a number is no integer or an
/// argument has a wrong kind; `AccountNotFound`; and `RequestTooLarge` exactly where more than `MAX_OBJECTS_IN_SET` objects are asked.
pub fn set_asked<'a>(
    alloc: Global,
    method: SetMethod,
    arguments: &'a Value,
) -> Result<SetAsked<'a>, MethodError>
    ensures { Agrees Memory asked_data result (spec.set_asked method (view arguments.now)) }
{
    if has_fraction(arguments) {
        return Err(MethodError::InvalidArguments);
    }
    asked_of(alloc, method, arguments)
}
