// Text with literals.
ghost use Rattle.std.specs.Prelude.{◌≡◌, IsTrue};
ghost use Rattle.imap_keywords.specs.Counts as counts;
ghost use Rattle.imap_automaton.specs.FreeRules as rules;
ghost use Rattle.imap_automaton.specs.Fits.{FreeFits};
ghost use Rattle.imap_keywords.specs.Counts.{PendFits};

use crate::sym::{Free, Line, Sym};
use imap_keywords::{CR, LF, MAX_LITERAL_OCTETS, Pending, Phrase, is_text, pend};
use pushdown::Move;

fn free_end(pending: Pending) -> Move<Sym>
    ensures { result ≡ rules.free_end pending }
{
    match pending {
        Pending::Closed(v) => {
            if v <= MAX_LITERAL_OCTETS {
                Move::Two(
                    Sym::Free(Free::Break(v)),
                    Sym::Free(Free::Text(Pending::Nothing)),
                )
            } else {
                Move::Fail
            }
        }
        _ => Move::One(Sym::Line(Line::Fixed(Phrase::Crlf, 1))),
    }
}

/// Text with literals, by what stands of the count of one: what an octet does.
pub fn text_rule(pending: Pending, c: u16) -> Move<Sym>
    requires { IsTrue (PendFits pending) }
    ensures { result ≡ rules.text_rule pending c }
{
    if c == CR {
        free_end(pending)
    } else if is_text(c) {
        Move::One(Sym::Free(Free::Text(pend(pending, c))))
    } else {
        Move::Fail
    }
}

fn break_rule(n: u32, c: u16) -> Move<Sym>
    ensures { result ≡ rules.free_rule (Free.Break n) c }
{
    if c != LF {
        Move::Fail
    } else if n == 0 {
        Move::End
    } else {
        Move::One(Sym::Free(Free::Octets(n)))
    }
}

fn octets_rule(n: u32, c: u16) -> Move<Sym>
    ensures { result ≡ rules.free_rule (Free.Octets n) c }
{
    if 256 <= c && c < 512 && 0 < n {
        if n == 1 {
            Move::End
        } else {
            Move::One(Sym::Free(Free::Octets(n - 1)))
        }
    } else {
        Move::Fail
    }
}

/// Text with literals: what an octet does.
#[inline(never)]
pub fn free_rule(free: &Free, c: u16) -> Move<Sym>
    requires { IsTrue (FreeFits free.now) }
    ensures { result ≡ rules.free_rule free.now c }
{
    match free {
        Free::Text(pending) => text_rule(*pending, c),
        Free::Break(n) => break_rule(*n, c),
        Free::Octets(n) => octets_rule(*n, c),
    }
}
