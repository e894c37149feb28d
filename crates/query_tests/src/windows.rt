// Windows of lists, as they are asked, and beside another way to find them.
use crate::mail::number;
use query_lists::{GroupedRow, WindowAsked, WindowStart, first_of_each, window_of};
use std::alloc::{AllocError, Global};
use test_rows::first_word;

/// The numbers of a line, between spaces.
fn numbers_of(alloc: Global, words: &str) -> Result<Vec<u64>, AllocError> {
    let mut numbers = Vec::new(alloc);
    for word in words.split_whitespace() {
        numbers.push(number(word))?;
    }
    Ok(numbers)
}

fn put_numbers(numbers: &[u64], out: &mut String) -> Result<(), AllocError> {
    for number in numbers {
        write!(out, " {number}")?;
    }
    Ok(())
}

/// Adds the window's first index and its numbers, or `-` where there is none.
fn put_window(list: &[u64], asked: WindowAsked, out: &mut String) -> Result<(), AllocError> {
    match window_of(list, asked) {
        None => out.push_str(" -"),
        Some(window) => {
            write!(out, " {}:", window.start)?;
            put_numbers(window.numbers, out)
        }
    }
}

/// Adds the window that begins at a position: the position, the limit or `-`, and the list.
pub(crate) fn put_by_position(
    alloc: Global,
    line: &str,
    out: &mut String,
) -> Result<(), AllocError> {
    let (position, rest) = first_word(line);
    let (limit, list) = first_word(rest);
    let start = WindowStart::Position(position.parse::<i64>().unwrap_or(0));
    let limit = limit.parse::<u64>().ok();
    put_window(&numbers_of(alloc, list)?, WindowAsked { start, limit }, out)
}

/// Adds the window that begins by an anchor: the anchor, the offset, the limit or `-`, and the list.
pub(crate) fn put_by_anchor(alloc: Global, line: &str, out: &mut String) -> Result<(), AllocError> {
    let (anchor, rest) = first_word(line);
    let (offset, rest) = first_word(rest);
    let (limit, list) = first_word(rest);
    let start = WindowStart::Anchor {
        number: number(anchor),
        offset: offset.parse::<i64>().unwrap_or(0),
    };
    let limit = limit.parse::<u64>().ok();
    put_window(&numbers_of(alloc, list)?, WindowAsked { start, limit }, out)
}

/// Whether the numbers are those at the indices from this one on, at most so many: each index is asked in turn.
fn is_part(list: &[u64], numbers: &[u64], start: i64, limit: i64) -> bool {
    let mut rest = numbers;
    let mut index: i64 = 0;
    for number in list {
        if start <= index && index < start.saturating_add(limit) {
            match rest {
                [first, more @ ..] if *first == *number => rest = more,
                _ => return false,
            }
        }
        index = index.saturating_add(1);
    }
    rest.is_empty()
}

/// How many windows were asked, and how many of them are right.
#[derive(Clone, Copy)]
struct Sweep {
    asked: u64,
    right: u64,
}

/// Asks a window, which is to begin at this index, or at the front where it is negative.
fn ask(list: &[u64], start: WindowStart, limit: Option<u64>, from: i64, sweep: Sweep) -> Sweep {
    let from = from.max(0);
    let most = limit.map_or(8, |limit| limit.min(8) as i64);
    let is_right = match window_of(list, WindowAsked { start, limit }) {
        None => false,
        Some(window) => {
            window.start == from.unsigned_abs() && is_part(list, window.numbers, from, most)
        }
    };
    Sweep {
        asked: sweep.asked.saturating_add(1),
        right: sweep.right.saturating_add(u64::from(is_right)),
    }
}

/// The same with each limit from 0 to 7, and without one.
fn ask_limits(list: &[u64], start: WindowStart, from: i64, sweep: Sweep) -> Sweep {
    let mut sweep = sweep;
    for limit in 0..8 {
        sweep = ask(list, start, Some(limit), from, sweep);
    }
    ask(list, start, None, from, sweep)
}

/// Each position from -7 to 7, in a list of five.
fn ask_positions(list: &[u64], sweep: Sweep) -> Sweep {
    let mut sweep = sweep;
    for position in -7_i64..8 {
        let from = match position < 0 {
            true => position.saturating_add(5),
            false => position,
        };
        sweep = ask_limits(list, WindowStart::Position(position), from, sweep);
    }
    sweep
}

/// Each offset from -7 to 7 from the anchor at the index.
fn ask_offsets(list: &[u64], number: u64, index: i64, sweep: Sweep) -> Sweep {
    let mut sweep = sweep;
    for offset in -7_i64..8 {
        let start = WindowStart::Anchor { number, offset };
        sweep = ask_limits(list, start, index.saturating_add(offset), sweep);
    }
    sweep
}

/// Each anchor.
fn ask_anchors(list: &[u64], sweep: Sweep) -> Sweep {
    let mut sweep = sweep;
    let mut index: i64 = 0;
    for number in list {
        sweep = ask_offsets(list, *number, index, sweep);
        index = index.saturating_add(1);
    }
    sweep
}

/// Adds how many windows of a list of five are right, of how many: by each position and by each anchor and offset.
pub(crate) fn put_sweep(alloc: Global, line: &str, out: &mut String) -> Result<(), AllocError> {
    let list = numbers_of(alloc, line)?;
    let none = Sweep { asked: 0, right: 0 };
    let sweep = ask_anchors(&list, ask_positions(&list, none));
    write!(out, " {} of {}", sweep.right, sweep.asked)
}

/// Adds the first number of each group, of rows `NUMBER:GROUP`.
pub(crate) fn put_groups(alloc: Global, line: &str, out: &mut String) -> Result<(), AllocError> {
    let mut rows = Vec::new(alloc);
    for row in line.split_whitespace() {
        let (first, group) = row.split_once(':').unwrap_or((row, ""));
        rows.push(GroupedRow {
            number: number(first),
            group: number(group),
        })?;
    }
    for row in &first_of_each(alloc, &rows)? {
        write!(out, " {}", row.number)?;
    }
    Ok(())
}
