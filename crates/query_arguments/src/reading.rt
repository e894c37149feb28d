// How a part of the arguments is read.
ghost use Rattle.std.specs.Prelude.{◌≡◌, IfOk};
ghost use Rattle.query_arguments.specs.Readings as readings;
ghost use Rattle.query_arguments.specs.Readings.{reading_map};

use std::alloc::{AllocError, Global};

/// What a part of the arguments is.
#[derive(Drop)]
pub enum Reading<T> {
    /// Of a wrong kind.
    Wrong,
    /// Of a right kind, and not supported.
    Unsupported,
    /// This.
    Means(T),
}

/// What two parts mean together: a wrong one counts before one that isn't supported.
pub(crate) fn both<A: Drop, B: Drop>(first: Reading<A>, second: Reading<B>) -> Reading<(A, B)>
    ensures { result ≡ readings.both_read (λ a b. (a, b)) first second }
{
    match first {
        Reading::Wrong => Reading::Wrong,
        Reading::Unsupported => match second {
            Reading::Wrong => Reading::Wrong,
            Reading::Unsupported => Reading::Unsupported,
            Reading::Means(_) => Reading::Unsupported,
        },
        Reading::Means(a) => match second {
            Reading::Wrong => Reading::Wrong,
            Reading::Unsupported => Reading::Unsupported,
            Reading::Means(b) => Reading::Means((a, b)),
        },
    }
}

/// What all parts of a list mean: a wrong one counts before one that isn't supported.
pub(crate) fn each_read<T: Drop>(
    alloc: Global,
    parts: Vec<Reading<T>>,
) -> Result<Reading<Vec<T>>, AllocError>
    ensures { IfOk result (λ r. reading_map (λ v. v.items) r ≡ readings.each_read parts.items) }
{
    let mut values = Vec::with_capacity(alloc, parts.len())?;
    let mut supported = true;
    for part in parts {
        match part {
            Reading::Wrong => return Ok(Reading::Wrong),
            Reading::Unsupported => supported = false,
            Reading::Means(value) => values.push(value)?,
        }
    }
    if supported {
        Ok(Reading::Means(values))
    } else {
        Ok(Reading::Unsupported)
    }
}
