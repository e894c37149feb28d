// Filters.

use query_lists::FilterOperator;

/// A filter of rows (RFC 8620 section 5.5), of conditions of one type. It nests no deeper than the JSON that it is read from, so that
/// what goes down it is bounded as its reader is.
#[derive(Drop)]
pub enum Filter<C> {
    /// A FilterCondition: a row is taken where each of these holds.
    Conditions(Vec<C>),
    /// A FilterOperator, and the filters that it joins.
    Joined(FilterOperator, Vec<Filter<C>>),
}
