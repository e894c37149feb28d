// Whether requests need the mail.
ghost use Rattle.std.specs.Prelude.{◌≡◌, map};
ghost use Rattle.std.specs.List.{list_any};
ghost use Rattle.gate_calls.specs.MethodNames.{needs_mail_by};
ghost use Rattle.result_references.specs.Call.{call_data};
ghost use Rattle.gate_calls.specs.Calls.{needs_mail};

use crate::method::name_needs_mail;
use result_references::Call;

fn any_needs_mail(calls: &[Call]) -> bool
    ensures { result ≡ list_any (λ call. needs_mail_by call.name) calls.now }
{
    calls.iter().any(|call| name_needs_mail(call.name.as_str()))
}

/// Whether one of the calls needs the mail.
pub fn needs_mail(calls: &[Call]) -> bool
    ensures { result ≡ needs_mail (map call_data calls.now) }
{
    any_needs_mail(calls)
}
