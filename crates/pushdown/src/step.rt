// One octet at a stack of symbols.
ghost use Rattle.std.specs.Prelude.{◌≡◌, Some, None, if◌then◌else◌};
ghost use Rattle.pushdown.specs.Run.{step};
ghost use Rattle.pushdown.specs.Flow.{CanStep};
ghost use Rattle.pushdown.specs.Symbols.{symbols_of};

use crate::moves::Move;
use crate::stack::Stack;
use crate::symbol::Symbol;

/// Takes an octet, 256 above itself within a literal. The symbols are then those that read what follows it; where the
/// answer is false, no text goes on so and the stack is of no further use.
pub fn advance<S: Symbol>(stack: &mut Stack<S>, c: u16) -> bool
    requires { CanStep S.automaton (symbols_of stack.old) }
    ensures { step S.automaton (symbols_of stack.old) c ≡ (if result then Some (symbols_of stack.new) else None) }
{
    S::lawful();
    while let Some(symbol) = stack.pop() {
        match symbol.rule(c) {
            Move::Fail => return false,
            Move::Yield => {}
            Move::End => return true,
            Move::One(a) => {
                stack.push(a);
                return true;
            }
            Move::Two(a, b) => {
                stack.push(b);
                stack.push(a);
                return true;
            }
        }
    }
    false
}
