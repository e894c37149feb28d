// What queries ask.

use crate::filter::Filter;
use octets::Text;

/// Which rows a query asks, and in which order (RFC 8620 section 5.5).
#[derive(Drop)]
pub struct AskedList<C, S> {
    /// The rows that are taken.
    pub filter: Filter<C>,
    /// The comparators, the first of which counts most.
    pub sort: Vec<S>,
    /// `collapseThreads`: of each Thread the first Email alone (RFC 8621 section 4.4.3).
    pub collapses: bool,
}

/// Which part of the list a query asks (RFC 8620 section 5.5).
#[derive(Debug, Drop)]
pub struct AskedPart {
    /// `position`: an index from 0 on, or from the end of the list where it is negative. It doesn't count where there is an anchor.
    pub position: i64,
    /// `anchor`: the id as it was given.
    pub anchor: Option<Text>,
    /// `anchorOffset`
    pub offset: i64,
    /// `limit`; None for all that follow.
    pub limit: Option<u64>,
}

/// What a /query asks (RFC 8620 section 5.5).
#[derive(Drop)]
pub struct AskedQuery<C, S> {
    /// The list.
    pub list: AskedList<C, S>,
    /// The part of it.
    pub part: AskedPart,
    /// `calculateTotal`: whether the length of the whole list is asked.
    pub counts: bool,
}

/// What a /queryChanges asks (RFC 8620 section 5.6). `upToId` isn't read: all changes are told.
#[derive(Drop)]
pub struct AskedQueryChanges<C, S> {
    /// The list.
    pub list: AskedList<C, S>,
    /// `sinceQueryState`, as it was given.
    pub since: Text,
    /// `maxChanges`, at least 1; None for any number.
    pub most: Option<u64>,
    /// `calculateTotal`: whether the length of the whole list is asked.
    pub counts: bool,
}
