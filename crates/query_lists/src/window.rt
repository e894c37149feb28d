// The part of a query's list that is asked.
ghost use Rattle.std.specs.Prelude.{◌≡◌, ◌==◌, ◌<◌, ◌^◌, IfSome, length, position, take, drop, option_map};
ghost use Rattle.query_lists.specs.Windows as windows;

/// Where a window begins (RFC 8620 section 5.5).
#[derive(Clone, Copy, Debug, PartialEq, Eq)]
pub enum WindowStart {
    /// At this index, counted from 0, or from the end of the list where it is negative.
    Position(i64),
    /// So many places behind an id of the list, or before it where the offset is negative.
    Anchor {
        /// The number whose id is the anchor.
        number: u64,
        /// How many places behind it.
        offset: i64,
    },
}

/// Which part of a list is asked (RFC 8620 section 5.5).
#[derive(Clone, Copy, Debug, PartialEq, Eq)]
pub struct WindowAsked {
    /// Where it begins.
    pub start: WindowStart,
    /// How many ids it has at most; None for all that follow.
    pub limit: Option<u64>,
}

/// A part of a list.
#[derive(Clone, Copy, Debug)]
pub struct Window<'a> {
    /// The index in the list of its first id, counted from 0. It may lie behind the list, and no id is there then.
    pub start: u64,
    /// The numbers whose ids are asked, in the order of the list.
    pub numbers: &'a [u64],
}

/// An index shifted by an offset, towards the front no further than to it.
fn shifted(index: usize, offset: i64) -> u64
    requires { index < 2 ^ 63 }
    ensures { result ≡ windows.shifted index offset }
{
    let by = offset.unsigned_abs();
    if offset < 0 {
        (index as u64).saturating_sub(by)
    } else {
        index as u64 + by
    }
}

/// The index that a position names in a list of this length.
fn index_named(len: usize, position: i64) -> u64
    requires { len < 2 ^ 63 }
    ensures { result ≡ windows.index_named len position }
{
    if position < 0 {
        shifted(len, position)
    } else {
        shifted(0, position)
    }
}

/// The index of a number in a list.
fn index_of(list: &[u64], number: u64) -> Option<usize>
    ensures value { result ≡ position (λ other. other == number) list.now }
    ensures within { IfSome result (λ index. index < length list.now) }
{
    list.iter().position(|other| *other == number)
}

/// The index of the anchor, shifted by the offset. None where the anchor isn't in the list.
fn index_by_anchor(list: &[u64], number: u64, offset: i64) -> Option<u64>
    ensures { result ≡ windows.index_by_anchor list.now number offset }
{
    match index_of(list, number) {
        None => None,
        Some(index) => Some(shifted(index, offset)),
    }
}

/// The index of the first id that is asked. None where the anchor isn't in the list.
fn start_of(list: &[u64], start: WindowStart) -> Option<u64>
    ensures { result ≡ windows.start_of list.now start }
{
    match start {
        WindowStart::Position(position) => Some(index_named(list.len(), position)),
        WindowStart::Anchor { number, offset } => index_by_anchor(list, number, offset),
    }
}

/// What follows an index.
fn behind(list: &[u64], index: u64) -> &[u64]
    ensures { result.now ≡ drop index list.now }
{
    if index <= list.len() as u64 {
        return list.split_at(index as usize).1;
    }
    &[]
}

/// The first of the numbers, this many.
fn first(numbers: &[u64], count: u64) -> &[u64]
    ensures { result.now ≡ take count numbers.now }
{
    if count <= numbers.len() as u64 {
        return numbers.split_at(count as usize).0;
    }
    numbers
}

/// No more of the numbers than the limit.
fn at_most(numbers: &[u64], limit: Option<u64>) -> &[u64]
    ensures { result.now ≡ windows.at_most limit numbers.now }
{
    match limit {
        None => numbers,
        Some(limit) => first(numbers, limit),
    }
}

/// The part of a list that is asked (RFC 8620 section 5.5). None exactly where the anchor isn't in the list. It takes no memory.
pub fn window_of(list: &[u64], asked: WindowAsked) -> Option<Window<'_>>
    ensures { option_map (λ w. record { start = w.start; numbers = w.numbers.now }) result ≡ windows.window_of list.now asked }
{
    match start_of(list, asked.start) {
        None => None,
        Some(start) => {
            let numbers = at_most(behind(list, start), asked.limit);
            Some(Window { start, numbers })
        }
    }
}
