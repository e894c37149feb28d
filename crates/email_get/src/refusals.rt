// The errors of methods whose bodies don't come.
ghost use Rattle.std.specs.Prelude.{◌≡◌};
ghost use Rattle.email_get.specs.Asked.{error_by};

use email_bodies::BodyError;
use jmap_arguments::MethodError;

/// What a method answers where a body isn't there.
pub(crate) fn error_of(error: BodyError) -> MethodError
    ensures { result ≡ error_by error }
{
    match error {
        BodyError::Ended => MethodError::ServerUnavailable,
        BodyError::Memory => MethodError::Memory,
    }
}
