// Numbers, and sets of UIDs (RFC 9051 section 9, sequence-set).
ghost use Rattle.std.specs.Prelude.{◌≡◌, ◌++◌, OnOk};
ghost use Rattle.std.specs.Fmt.{decimal};
ghost use Rattle.store_responses.specs.ResponseTexts as texts;

use imap_types::UidRange;
use std::alloc::{AllocError, Global};

/// Adds a text and the digits of a number.
pub fn push_number(out: &mut Vec<u8>, text: &[u8], number: u64) -> Result<(), AllocError>
    ensures { OnOk result (out.new.items ≡ out.old.items ++ (text.now ++ decimal number)) }
{
    let alloc: Global = *out.allocator();
    let digits = format!(in alloc; "{number}")?;
    out.extend_from_slice(text)?;
    out.extend_from_slice(digits.as_bytes())?;
    Ok(())
}

/// Adds a range: nz ":" nz.
fn push_range(out: &mut Vec<u8>, range: &UidRange) -> Result<(), AllocError>
    ensures { OnOk result (out.new.items ≡ out.old.items ++ texts.range_text range.now) }
{
    push_number(out, b"", u64::from(range.first))?;
    push_number(out, b":", u64::from(range.last))?;
    Ok(())
}

/// Adds a set: range *("," range).
pub fn push_ranges(out: &mut Vec<u8>, ranges: &[UidRange]) -> Result<(), AllocError>
    ensures { OnOk result (out.new.items ≡ out.old.items ++ texts.ranges_text ranges.now) }
{
    let [first, more @ ..] = ranges else {
        return Ok(());
    };
    push_range(out, first)?;
    for range in more {
        out.push(b',')?;
        push_range(out, range)?;
    }
    Ok(())
}
