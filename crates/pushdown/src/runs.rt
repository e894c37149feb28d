// Octets that are taken at once: runs that one symbol takes, and those that turn a symbol into others.
ghost use Rattle.std.specs.Prelude.{◌≡◌, ◌≤◌, ◌<◌, true, false, Some, length, take};
ghost use Rattle.pushdown.specs.Flow.{CanStep, Ready};
ghost use Rattle.pushdown.specs.Run.{step, run};
ghost use Rattle.pushdown.specs.Symbols.{symbols_of};

use crate::moves::Move;
use crate::stack::Stack;
use crate::symbol::Symbol;

/// Takes a run of octets at the front that the first symbol takes by itself: how many they are.
fn advance_run<S: Symbol>(stack: &mut Stack<S>, octets: &[u8]) -> usize
    requires { CanStep S.automaton (symbols_of stack.old) }
    ensures within { result ≤ length octets.now }
    ensures run { run S.automaton (Some (symbols_of stack.old)) (take result octets.now) ≡ Some (symbols_of stack.new) }
    ensures number { length (symbols_of stack.new) ≡ length (symbols_of stack.old) }
{
    let Some(symbol) = stack.first() else {
        return 0;
    };
    let (next, count) = symbol.run_of(octets);
    if 0 < count {
        stack.put(next);
    }
    count
}

/// Takes an octet, unless no text goes on so or it ends the last symbol. Where it isn't taken, nothing is changed.
fn advance_within<S: Symbol>(stack: &mut Stack<S>, c: u16) -> bool
    requires { Ready S.automaton (symbols_of stack.old) }
    ensures taken { result ≡ true → step S.automaton (symbols_of stack.old) c ≡ Some (symbols_of stack.new) }
    ensures left { result ≡ false → symbols_of stack.new ≡ symbols_of stack.old }
    ensures some { result ≡ true → 0 < length (symbols_of stack.new) }
{
    S::lawful();
    let Some(symbol) = stack.first() else {
        return false;
    };
    match symbol.rule(c) {
        Move::Fail => false,
        Move::Yield => {
            stack.pop();
            if advance_within(stack, c) {
                true
            } else {
                stack.push(symbol);
                false
            }
        }
        Move::End => stack.end_first(),
        Move::One(a) => {
            stack.put(a);
            true
        }
        Move::Two(a, b) => {
            stack.put(b);
            stack.push(a);
            true
        }
    }
}

/// Takes octets at the front, all outside literals, up to one that ends the text or that no text has there: how many they
/// are. What they leave is for `advance`.
pub fn advance_through<S: Symbol>(stack: &mut Stack<S>, octets: &[u8]) -> usize
    requires { Ready S.automaton (symbols_of stack.old) }
    ensures within { result ≤ length octets.now }
    ensures run { run S.automaton (Some (symbols_of stack.old)) (take result octets.now) ≡ Some (symbols_of stack.new) }
    ensures some { 0 < length (symbols_of stack.old) → 0 < length (symbols_of stack.new) }
{
    S::lawful();
    let mut count: usize = 0;
    while count < octets.len() {
        let (_, rest) = octets.split_at(count);
        count += advance_run(stack, rest);
        if octets.len() <= count {
            return count;
        }
        if !advance_within(stack, octets[count] as u16) {
            return count;
        }
        count += 1;
    }
    count
}
