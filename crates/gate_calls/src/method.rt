// The methods by their names.
ghost use Rattle.std.specs.Prelude.{◌≡◌};
ghost use Rattle.gate_calls.specs.MethodNames.{is_used, method_of, method_asked, needs_mail_by};

use jmap_arguments::{MethodError, Using};
use set_arguments::SetMethod;

/// A method that a call can ask.
#[derive(Clone, Copy, Debug, PartialEq)]
pub enum Method {
    /// RFC 8620 section 4
    CoreEcho,
    /// RFC 8621 section 2.1
    MailboxGet,
    /// RFC 8621 section 2.2
    MailboxChanges,
    /// RFC 8621 section 2.3
    MailboxQuery,
    /// RFC 8621 section 2.4
    MailboxQueryChanges,
    /// RFC 8621 section 3.1
    ThreadGet,
    /// RFC 8621 section 3.2
    ThreadChanges,
    /// RFC 8621 section 4.2
    EmailGet,
    /// RFC 8621 section 4.3
    EmailChanges,
    /// RFC 8621 section 4.4
    EmailQuery,
    /// RFC 8621 section 4.5
    EmailQueryChanges,
    /// RFC 8621 section 4.9
    EmailParse,
    /// RFC 8621 sections 2.5, 4.6 and 4.8
    Set(SetMethod),
}

fn method_of(name: &str) -> Option<Method>
    ensures { result ≡ method_of name.now }
{
    match name {
        "Core/echo" => Some(Method::CoreEcho),
        "Mailbox/get" => Some(Method::MailboxGet),
        "Mailbox/changes" => Some(Method::MailboxChanges),
        "Mailbox/query" => Some(Method::MailboxQuery),
        "Mailbox/queryChanges" => Some(Method::MailboxQueryChanges),
        "Thread/get" => Some(Method::ThreadGet),
        "Thread/changes" => Some(Method::ThreadChanges),
        "Email/get" => Some(Method::EmailGet),
        "Email/changes" => Some(Method::EmailChanges),
        "Email/query" => Some(Method::EmailQuery),
        "Email/queryChanges" => Some(Method::EmailQueryChanges),
        "Email/parse" => Some(Method::EmailParse),
        "Mailbox/set" => Some(Method::Set(SetMethod::MailboxSet)),
        "Email/set" => Some(Method::Set(SetMethod::EmailSet)),
        "Email/import" => Some(Method::Set(SetMethod::EmailImport)),
        _ => None,
    }
}

fn is_used(uses: Using, method: Method) -> bool
    ensures { result ≡ is_used uses method }
{
    match method {
        Method::CoreEcho => uses.core,
        _ => uses.mail,
    }
}

/// The method with this name, or `UnknownMethod` where there is none or its capability isn't used (RFC 8620 sections
/// 3.3 and 3.6.2).
pub fn method_named(uses: Using, name: &str) -> Result<Method, MethodError>
    ensures { result ≡ method_asked uses name.now }
{
    match method_of(name) {
        Some(method) if is_used(uses, method) => Ok(method),
        _ => Err(MethodError::UnknownMethod),
    }
}

/// Whether a call of this name needs the mail: every one but Core/echo, also one that is refused.
pub fn name_needs_mail(name: &str) -> bool
    ensures { result ≡ needs_mail_by name.now }
{
    name != "Core/echo"
}
