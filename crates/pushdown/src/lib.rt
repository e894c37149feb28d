//! A pushdown automaton that reads texts octet by octet in fixed memory, whatever the grammar: a grammar is a trait of
//! symbols, whose laws say that the rules are those of its language.
#![tactic(auto)]

// What a grammar gives.
mod moves;
mod symbol;

// Octets at a stack.
mod runs;
mod stack;
mod step;

// Scanning.
mod answer;
mod scanner;

pub use answer::Answer;
pub use moves::Move;
pub use runs::advance_through;
pub use scanner::{Scanner, marked_by, one_answer, skip_inside};
pub use stack::Stack;
pub use step::advance;
pub use symbol::Symbol;
