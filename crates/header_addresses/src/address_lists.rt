// Lists of addresses and groups (RFC 5322 section 3.4).
ghost use Rattle.std.specs.Prelude.{◌≡◌, ◌++◌, [], None, Some, false, true, MatchOption, IfOk, IfSome, IfNone, OnOk, option_to_list};
ghost use Rattle.std.specs.List.{AllZip, flat_map, list_any};
ghost use Rattle.header_addresses.specs.AddressLists as lists;
ghost use Rattle.header_addresses.specs.Names as names;
ghost use Rattle.header_addresses.specs.reading.ElementReading as reading;
ghost use Rattle.header_addresses.specs.reading.ElementView.{mailbox_view, element_view, elements_view};
ghost use Rattle.header_addresses.specs.reading.GroupBuilding as building;
ghost use Rattle.header_tokens.specs.TokenView.{tokens_view};

use crate::address::{Address, Group};
use crate::elements::{Element, Mailbox, elements};
use crate::names::{address_of, phrase_name};
use header_tokens::tokens::tokens;
use header_tokens::{Alphabet, Token};
use mail_header::as_raw;
use octets::{Bytes, Listed};
use std::alloc::{AllocError, Global};

/// Whether each group is closed, and none stands in another.
fn are_nested(elements: &[Element<'_, '_>]) -> bool
    ensures { result ≡ reading.are_nested false (elements_view elements.now) }
{
    let mut inside = false;
    for element in elements {
        match element {
            Element::Empty | Element::Member(_) => {}
            Element::Head(_) => {
                if inside {
                    return false;
                }
                inside = true;
            }
            Element::End => {
                if !inside {
                    return false;
                }
                inside = false;
            }
        }
    }
    !inside
}

fn is_addressee(element: &Element<'_, '_>) -> bool
    ensures { result ≡ reading.is_addressee (element_view element.now) }
{
    match element {
        Element::Empty | Element::End => false,
        Element::Head(_) | Element::Member(_) => true,
    }
}

fn has_addressee(elements: &[Element<'_, '_>]) -> bool
    ensures { result ≡ list_any reading.is_addressee (elements_view elements.now) }
{
    for element in elements {
        if is_addressee(element) {
            return true;
        }
    }
    false
}

/// The groups that are whole, and the name and the members of the one that isn't. A run of mailboxes outside a group
/// has no name.
#[derive(Drop)]
struct Builder {
    groups: Vec<Group>,
    name: Option<Bytes>,
    members: Vec<Address>,
}

/// A run of mailboxes outside a group, where there is one.
fn run_group(members: Vec<Address>) -> Option<Group>
    ensures { result ≡ building.group_from None members.items }
{
    if members.is_empty() {
        None
    } else {
        Some(Group {
            name: None,
            members: Listed::from_vec(members),
        })
    }
}

/// The group that is open, where there is one.
fn open_group(name: Option<Bytes>, members: Vec<Address>) -> Option<Group>
    ensures { result ≡ building.group_from name members.items }
{
    match name {
        None => run_group(members),
        Some(name) => Some(Group {
            name: Some(name),
            members: Listed::from_vec(members),
        }),
    }
}

fn push_group(groups: &mut Vec<Group>, group: Option<Group>) -> Result<(), AllocError>
    ensures { OnOk result (groups.new.items ≡ groups.old.items ++ option_to_list group) }
{
    if let Some(group) = group {
        groups.push(group)?;
    }
    Ok(())
}

/// The groups with the one that was open.
fn close(builder: Builder) -> Result<Vec<Group>, AllocError>
    ensures { IfOk result (λ v. v.items ≡ builder.groups.items ++ option_to_list (building.group_from builder.name builder.members.items)) }
{
    let Builder {
        mut groups,
        name,
        members,
    } = builder;
    push_group(&mut groups, open_group(name, members))?;
    Ok(groups)
}

fn with_member(
    alloc: Global,
    builder: Builder,
    mailbox: &Mailbox<'_, '_>,
) -> Result<Builder, AllocError>
    ensures { IfOk result (λ b. building.TakesElement builder (lists.Member (mailbox_view mailbox.now)) b) }
{
    let Builder {
        groups,
        name,
        mut members,
    } = builder;
    members.push(address_of(alloc, mailbox)?)?;
    Ok(Builder {
        groups,
        name,
        members,
    })
}

fn begin(alloc: Global, builder: Builder, phrase: &[Token<'_>]) -> Result<Builder, AllocError>
    ensures { IfOk result (λ b. building.TakesElement builder (lists.Head (tokens_view phrase.now)) b) }
{
    let groups = close(builder)?;
    let name = phrase_name(alloc, phrase)?;
    Ok(Builder {
        groups,
        name: Some(name),
        members: Vec::new(alloc),
    })
}

fn end(alloc: Global, builder: Builder) -> Result<Builder, AllocError>
    ensures { IfOk result (λ b. building.TakesElement builder lists.End b) }
{
    let groups = close(builder)?;
    Ok(Builder {
        groups,
        name: None,
        members: Vec::new(alloc),
    })
}

/// Takes in the next element.
fn take(alloc: Global, builder: Builder, element: &Element<'_, '_>) -> Result<Builder, AllocError>
    ensures { IfOk result (λ b. building.TakesElement builder (element_view element.now) b) }
{
    match element {
        Element::Empty => Ok(builder),
        Element::Member(mailbox) => with_member(alloc, builder, mailbox),
        Element::Head(phrase) => begin(alloc, builder, *phrase),
        Element::End => end(alloc, builder),
    }
}

/// The groups of the elements.
fn groups(alloc: Global, elements: &[Element<'_, '_>]) -> Result<Vec<Group>, AllocError>
    ensures { IfOk result (λ v. AllZip names.IsGroup (reading.grouped_from None [] (elements_view elements.now)) v.items) }
{
    let mut builder = Builder {
        groups: Vec::new(alloc),
        name: None,
        members: Vec::new(alloc),
    };
    for element in elements {
        builder = take(alloc, builder, element)?;
    }
    close(builder)
}

/// The elements without the empty places, where they are a list of one or more addresses.
pub(crate) fn list_of<'a, 'b>(
    alloc: Global,
    tokens: &'b [Token<'a>],
) -> Result<Option<Vec<Element<'a, 'b>>>, AllocError>
    ensures some { IfOk result (λ r. IfSome r (λ v. building.IsList (elements_view v.items) (tokens_view tokens.now))) }
    ensures none { IfOk result (λ r. IfNone r (building.IsNoList (tokens_view tokens.now))) }
{
    match elements(alloc, tokens)? {
        None => Ok(None),
        Some(found) => Ok(checked(found)),
    }
}

/// The elements, where they are a list of one or more addresses.
fn checked<'a, 'b>(elements: Vec<Element<'a, 'b>>) -> Option<Vec<Element<'a, 'b>>>
    ensures { MatchOption result (building.are_list (elements_view elements.entry.items) ≡ false) (λ v. (building.are_list (elements_view elements.entry.items) ≡ true) × (v ≡ elements.entry)) }
{
    if are_list(elements.as_slice()) {
        Some(elements)
    } else {
        None
    }
}

fn are_list(elements: &[Element<'_, '_>]) -> bool
    ensures { result ≡ building.are_list (elements_view elements.now) }
{
    are_nested(elements) && has_addressee(elements)
}

/// The addresses of a raw value (RFC 5322 section 3.4, with the obsolete forms of section 4.4): the members of the groups
/// that `as_groups` reads. There is no reading where the value isn't a list of one or more mailboxes and groups.
pub fn as_addresses(alloc: Global, raw: &[u8]) -> Result<Option<Listed<Address>>, AllocError>
    ensures { IfOk result (λ r. names.IsAddressesForm raw.now r) }
{
    match as_groups(alloc, raw)? {
        None => Ok(None),
        Some(groups) => Ok(Some(Listed::from_vec(flattened(alloc, groups.as_slice())?))),
    }
}

/// The members of the groups, those of one after those of another.
fn flattened(alloc: Global, groups: &[Group]) -> Result<Vec<Address>, AllocError>
    ensures { IfOk result (λ v. v.items ≡ flat_map names.members_in groups.now) }
{
    let mut all = Vec::new(alloc);
    for group in groups {
        push_members(&mut all, group.members.as_slice())?;
    }
    Ok(all)
}

/// Adds the members, which share their octets.
fn push_members(all: &mut Vec<Address>, members: &[Address]) -> Result<(), AllocError>
    ensures { OnOk result (all.new.items ≡ all.old.items ++ members.now) }
{
    for address in members {
        all.push(shared(address)?)?;
    }
    Ok(())
}

/// The address, with the same octets.
fn shared(address: &Address) -> Result<Address, AllocError>
    ensures { IfOk result (λ a. a ≡ address.now) }
{
    let name = match &address.name {
        None => None,
        Some(name) => Some(name.share()?),
    };
    Ok(Address {
        name,
        email: address.email.share()?,
    })
}

/// The groups of a raw value, where each run of addresses outside a group is a group without a name. There is no reading
/// where the value isn't a list of one or more mailboxes and groups.
pub fn as_groups(alloc: Global, raw: &[u8]) -> Result<Option<Listed<Group>>, AllocError>
    ensures { IfOk result (λ r. names.IsGroupsForm raw.now r) }
{
    let raw = as_raw(alloc, raw)?;
    match tokens(alloc, Alphabet::Mail, raw.as_slice())? {
        None => Ok(None),
        Some(found) => groups_in(alloc, found.as_slice()),
    }
}

fn groups_in(alloc: Global, tokens: &[Token<'_>]) -> Result<Option<Listed<Group>>, AllocError>
    ensures { IfOk result (λ r. building.GroupsIn (tokens_view tokens.now) r) }
{
    match list_of(alloc, tokens)? {
        None => Ok(None),
        Some(elements) => Ok(Some(Listed::from_vec(groups(alloc, elements.as_slice())?))),
    }
}
