// The addresses and groups of a raw value.
ghost use Rattle.std.specs.Prelude.{◌≡◌, ◌++◌, Option, Some, IfOk, OnOk, MatchOption, option_to_list};
ghost use Rattle.header_addresses.specs.declared.address.Address.{Address as AddressValue};
ghost use Rattle.mail_header.specs.RawForms.{raw_form};
ghost use Rattle.header_addresses.specs.Names.{IsAddressesForm, IsGroupsForm};
ghost use Rattle.loose_addresses.specs.LooseForms as loose;
ghost use Rattle.loose_addresses.specs.LooseLists as lists;
ghost use Rattle.loose_addresses.specs.Torn.{IsUntorn};

use crate::element::read_element;
use crate::elements::next_element;
use crate::torn::is_torn;
use header_addresses::{Address, Group, as_addresses, as_groups};
use header_tokens::closings::closings;
use mail_header::as_raw;
use octets::Listed;
use std::alloc::{AllocError, Global};

/// Adds the address that the element reads as, if it reads.
fn push_read(alloc: Global, addresses: &mut Vec<Address>, element: &[u8]) -> Result<(), AllocError>
    ensures { OnOk result ((a : Option AddressValue) × lists.IsElementRead element.now a × (addresses.new.items ≡ addresses.old.items ++ option_to_list a)) }
{
    if let Some(address) = read_element(alloc, element)? {
        addresses.push(address)?;
    }
    Ok(())
}

/// The addresses of a text, as far as they read.
fn addresses_in(alloc: Global, text: &[u8]) -> Result<Vec<Address>, AllocError>
    ensures { IfOk result (λ v. lists.AreLoose v.items text.now) }
{
    let closed = closings(alloc, text)?;
    let mut addresses = Vec::new(alloc);
    let mut rest = Some(text);
    while let Some(left) = rest {
        let (element, more) = next_element(left, closed.as_slice());
        push_read(alloc, &mut addresses, element)?;
        rest = more;
    }
    Ok(addresses)
}

fn some_list(addresses: Vec<Address>) -> Option<Listed<Address>>
    ensures { result ≡ loose.some_list addresses.items }
{
    if addresses.is_empty() {
        None
    } else {
        Some(Listed::from_vec(addresses))
    }
}

/// The addresses by the grammar, where this tears no encoded word.
fn whole_addresses(
    alloc: Global,
    raw: &[u8],
    text: &[u8],
) -> Result<Option<Listed<Address>>, AllocError>
    requires { text.now ≡ raw_form raw.now }
    ensures { IfOk result (λ r. MatchOption r (loose.IsNoList raw.now) (λ list. IsAddressesForm raw.now (Some list) × IsUntorn (raw_form raw.now))) }
{
    if is_torn(alloc, text)? {
        return Ok(None);
    }
    as_addresses(alloc, raw)
}

/// The groups by the grammar, where this tears no encoded word.
fn whole_groups(alloc: Global, raw: &[u8], text: &[u8]) -> Result<Option<Listed<Group>>, AllocError>
    requires { text.now ≡ raw_form raw.now }
    ensures { IfOk result (λ r. MatchOption r (loose.IsNoList raw.now) (λ list. IsGroupsForm raw.now (Some list) × IsUntorn (raw_form raw.now))) }
{
    if is_torn(alloc, text)? {
        return Ok(None);
    }
    as_groups(alloc, raw)
}

/// The addresses of a raw value (RFC 8621 section 4.1.2.3): those of its list of mailboxes and groups; where it is none, or
/// one that tears an encoded word, as far as they read. There is no reading where no address is left.
pub fn as_loose_addresses(alloc: Global, raw: &[u8]) -> Result<Option<Listed<Address>>, AllocError>
    ensures { IfOk result (λ r. loose.IsLooseAddressesForm raw.now r) }
{
    let text = as_raw(alloc, raw)?;
    match whole_addresses(alloc, raw, text.as_slice())? {
        Some(list) => Ok(Some(list)),
        None => Ok(some_list(addresses_in(alloc, text.as_slice())?)),
    }
}

/// One group without a name.
fn one_group(alloc: Global, addresses: Vec<Address>) -> Result<Option<Listed<Group>>, AllocError>
    ensures { IfOk result (λ r. r ≡ loose.one_group addresses.items) }
{
    if addresses.is_empty() {
        return Ok(None);
    }
    let mut groups = Vec::new(alloc);
    groups.push(Group {
        name: None,
        members: Listed::from_vec(addresses),
    })?;
    Ok(Some(Listed::from_vec(groups)))
}

/// The groups of a raw value (RFC 8621 section 4.1.2.4). Where it is no list of mailboxes and groups, or one that tears an
/// encoded word, its addresses are one group without a name, as far as they read.
pub fn as_loose_groups(alloc: Global, raw: &[u8]) -> Result<Option<Listed<Group>>, AllocError>
    ensures { IfOk result (λ r. loose.IsLooseGroupsForm raw.now r) }
{
    let text = as_raw(alloc, raw)?;
    match whole_groups(alloc, raw, text.as_slice())? {
        Some(list) => Ok(Some(list)),
        None => one_group(alloc, addresses_in(alloc, text.as_slice())?),
    }
}
