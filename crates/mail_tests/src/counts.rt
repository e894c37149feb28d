// How much a raw value is in each form.
use header_addresses::{as_addresses, as_groups};
use header_dates::as_date;
use mail_header::{as_message_ids, as_raw, as_text, as_urls};
use octets::Names;
use std::alloc::{AllocError, Global};

/// How many addresses.
fn address_count(alloc: Global, raw: &[u8]) -> Result<Option<usize>, AllocError> {
    match as_addresses(alloc, raw)? {
        None => Ok(None),
        Some(list) => Ok(Some(list.len())),
    }
}

/// How many groups.
fn group_count(alloc: Global, raw: &[u8]) -> Result<Option<usize>, AllocError> {
    match as_groups(alloc, raw)? {
        None => Ok(None),
        Some(list) => Ok(Some(list.len())),
    }
}

/// How many ids or URLs.
fn name_count(names: Option<Names>) -> Option<usize> {
    match names {
        None => None,
        Some(names) => Some(names.len()),
    }
}

/// How much the value is in the form; 1 is a date. None without a reading.
fn count_of(alloc: Global, form: &str, raw: &[u8]) -> Result<Option<usize>, AllocError> {
    match form {
        "asRaw" => Ok(Some(as_raw(alloc, raw)?.as_slice().len())),
        "asText" => Ok(Some(as_text(alloc, raw)?.as_slice().len())),
        "asAddresses" => address_count(alloc, raw),
        "asGroupedAddresses" => group_count(alloc, raw),
        "asMessageIds" => Ok(name_count(as_message_ids(alloc, raw)?)),
        "asURLs" => Ok(name_count(as_urls(alloc, raw)?)),
        _ => Ok(as_date(alloc, raw)?.map(|_| 1)),
    }
}

/// Adds that number.
pub(crate) fn put_count(
    alloc: Global,
    form: &str,
    raw: &[u8],
    out: &mut String,
) -> Result<(), AllocError> {
    match count_of(alloc, form, raw)? {
        None => out.push('-'),
        Some(count) => write!(out, "{count}"),
    }
}
