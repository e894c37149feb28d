// The parts of a multipart's body (RFC 2046 section 5.1.1).
ghost use Rattle.std.specs.Prelude.{◌≡◌, ◌≤◌, ◌<◌, ◌+◌, IfOk, OnOk, IfSome, MatchOption, None, Some, ◌++◌, length, ℕ, List};
ghost use Rattle.mime_tree.specs.reading.LineReading as reading;
ghost use Rattle.mime_tree.specs.Splits as splits;
ghost use Rattle.mime_tree.specs.Splits.{ending};
ghost use Rattle.mime_tree.specs.reading.Bounds.{IsSplitBody};

use mail_header::lines::without_end;
use memchr::memchr;
use octets::Listed;
use std::alloc::{AllocError, Global};
use text_words::{White, are_all};

/// What a line is to a multipart.
#[derive(Clone, Copy, PartialEq, Eq, Debug)]
pub enum Mark {
    /// Any other line.
    Plain,
    /// A delimiter line, after which a part begins.
    Opens,
    /// A closing line, after which no part stands.
    Closes,
}

/// Where a part stands, in octets.
#[derive(Clone, Copy, PartialEq, Eq, Debug)]
pub struct Piece {
    /// Where it begins, from the front of the octets in which it stands.
    pub start: usize,
    /// The place after its last octet. The line end before a delimiter line isn't of the part.
    pub end: usize,
}

/// How many octets the first line has, with its end.
fn line_len(bytes: &[u8]) -> usize
    ensures value { result ≡ reading.line_len bytes.now }
    ensures within { result ≤ length bytes.now }
{
    match memchr(b'\n', bytes) {
        None => bytes.len(),
        Some(at) => at + 1,
    }
}

/// What the line is, by what stands after the boundary.
fn rest_mark(rest: &[u8]) -> Mark
    ensures { result ≡ reading.rest_mark (Some rest.now) }
{
    if are_all(&White, rest) {
        return Mark::Opens;
    }
    match rest.strip_prefix(b"--") {
        None => Mark::Plain,
        Some(end) => {
            if are_all(&White, end) {
                Mark::Closes
            } else {
                Mark::Plain
            }
        }
    }
}

/// What the line is to a multipart with this boundary.
#[tactic(auto, unfolding(crate::specs::reading::LineReading::line_mark))]
fn mark_of(line: &[u8], boundary: &[u8]) -> Mark
    ensures { result ≡ reading.line_mark boundary.now line.now }
{
    match line.strip_prefix(b"--") {
        None => Mark::Plain,
        Some(behind) => match behind.strip_prefix(boundary) {
            None => Mark::Plain,
            Some(rest) => rest_mark(rest),
        },
    }
}

/// Where the line end before a delimiter line begins, in a part's octets.
#[tactic(auto, unfolding(crate::specs::Splits::before), using(crate::proofs::LineLemmas::without_end_within))]
fn before(bytes: &[u8], start: usize, at: usize) -> usize
    requires ordered { start ≤ at }
    requires within { at ≤ length bytes.now }
    ensures { result ≡ splits.before bytes.now start at }
{
    let text = &bytes[start..at];
    start + without_end(text).len()
}

/// Ends a part, where there is one, at a delimiter line.
fn end_part(
    pieces: &mut Vec<Piece>,
    bytes: &[u8],
    begun: Option<usize>,
    at: usize,
) -> Result<(), AllocError>
    requires ordered { IfSome begun (λ start. start ≤ at) }
    requires within { at ≤ length bytes.now }
    ensures { OnOk result (pieces.new.items ≡ pieces.old.items ++ ending begun bytes.now at) }
{
    match begun {
        None => Ok(()),
        Some(start) => {
            let end = before(bytes, start, at);
            pieces.push(Piece { start, end })?;
            Ok(())
        }
    }
}

/// How a multipart's body is split.
#[derive(Drop)]
pub enum SplitBody {
    /// No delimiter line comes.
    Undelimited,
    /// Where the parts stand in the body; no part where the closing line comes first.
    Pieces(Listed<Piece>),
    /// There are more parts than are wanted.
    TooMany,
}

/// Where the parts of a multipart's body stand in it, if they are no more than `most`. Of more than these none is kept.
pub fn split(
    alloc: Global,
    bytes: &[u8],
    boundary: &[u8],
    most: usize,
) -> Result<SplitBody, AllocError>
    ensures { IfOk result (λ parts. IsSplitBody most (Some boundary.now) bytes.now parts) }
{
    let mut pieces = Vec::new(alloc);
    let mut begun: Option<usize> = None;
    let mut at = 0;
    while at < bytes.len() {
        let (_, rest) = bytes.split_at(at);
        let len = line_len(rest);
        let (line, _) = rest.split_at(len);
        match mark_of(line, boundary) {
            Mark::Plain => {}
            Mark::Opens => {
                end_part(&mut pieces, bytes, begun, at)?;
                if pieces.len() >= most {
                    return Ok(SplitBody::TooMany);
                }
                begun = Some(at + len);
            }
            Mark::Closes => {
                end_part(&mut pieces, bytes, begun, at)?;
                return Ok(SplitBody::Pieces(Listed::from_vec(pieces)));
            }
        }
        at += len;
    }
    match begun {
        None => Ok(SplitBody::Undelimited),
        Some(start) => {
            pieces.push(Piece { start, end: at })?;
            Ok(SplitBody::Pieces(Listed::from_vec(pieces)))
        }
    }
}
