// The stack of symbols.
use crate::symbol::Symbol;
use std::alloc::AllocError;

/// As many symbols as a stack holds.
pub const ROOM: usize = 5;

/// Symbols, of which the first `count` stand; `first` is read first. They are fields and no array: a call from generic
/// code would owe that an array of symbols of any type has a size below 2^63.
pub struct Stack<S: Copy> {
    first: S,
    second: S,
    third: S,
    fourth: S,
    fifth: S,
    count: usize,
    ghost in_room: { count ≤ 5 },
}

ghost use Rattle.std.specs.Prelude.{◌≤◌};

impl<S: Copy> Clone for Stack<S> {
    fn clone(&self) -> Result<Stack<S>, AllocError> {
        Ok(*self)
    }
}

impl<S: Copy> Copy for Stack<S> {}

impl<S: Copy> Stack<S> {
    ghost use Rattle.std.specs.Prelude.{◌≡◌, ◌<◌, true, false, drop, List, [], ◌∷◌, length, MatchOption, IsTrue, ◌↔◌};
    ghost use Rattle.pushdown.specs.Symbols.{symbols_of};

    /// A stack of one symbol.
    pub fn of(symbol: S) -> Stack<S>
        ensures { symbols_of result ≡ symbol ∷ [] }
    {
        Stack {
            first: symbol,
            second: symbol,
            third: symbol,
            fourth: symbol,
            fifth: symbol,
            count: 1,
        }
    }

    /// Puts a symbol before the others.
    pub fn push(&mut self, symbol: S)
        requires { length (symbols_of self.old) < 5 }
        ensures { symbols_of self.new ≡ symbol ∷ symbols_of self.old }
    {
        self.fifth = self.fourth;
        self.fourth = self.third;
        self.third = self.second;
        self.second = self.first;
        self.first = symbol;
        self.count += 1;
    }

    /// Takes the first symbol off.
    pub fn pop(&mut self) -> Option<S>
        ensures { MatchOption result ((symbols_of self.old ≡ []) × (symbols_of self.new ≡ [])) (λ s. symbols_of self.old ≡ s ∷ symbols_of self.new) }
    {
        if self.count == 0 {
            return None;
        }
        let symbol = self.first;
        self.first = self.second;
        self.second = self.third;
        self.third = self.fourth;
        self.fourth = self.fifth;
        self.count -= 1;
        Some(symbol)
    }

    /// Takes the first symbol off, where another stands after it: whether one does.
    pub fn end_first(&mut self) -> bool
        ensures ended { result ≡ true → symbols_of self.new ≡ drop 1 (symbols_of self.old) }
        ensures some { result ≡ true → 0 < length (symbols_of self.new) }
        ensures left { result ≡ false → symbols_of self.new ≡ symbols_of self.old }
    {
        if self.count < 2 {
            return false;
        }
        self.first = self.second;
        self.second = self.third;
        self.third = self.fourth;
        self.fourth = self.fifth;
        self.count -= 1;
        true
    }

    /// The symbol that is read first.
    pub fn first(&self) -> Option<S>
        ensures { MatchOption result (symbols_of self.now ≡ []) (λ s. symbols_of self.now ≡ s ∷ drop 1 (symbols_of self.now)) }
    {
        if self.count == 0 {
            None
        } else {
            Some(self.first)
        }
    }

    /// Puts a symbol in the place of the first.
    pub fn put(&mut self, symbol: S)
        requires { 0 < length (symbols_of self.old) }
        ensures { symbols_of self.new ≡ symbol ∷ drop 1 (symbols_of self.old) }
    {
        self.first = symbol;
    }

    /// Whether no symbol is left.
    pub fn is_empty(&self) -> bool
        ensures { IsTrue result ↔ (symbols_of self.now ≡ []) }
    {
        self.count == 0
    }
}

impl<S: Symbol> Stack<S> {
    ghost use Rattle.std.specs.Prelude.{◌≡◌, ◌<◌};
    ghost use Rattle.pushdown.specs.Symbols.{symbols_of};
    ghost use Rattle.pushdown.specs.Run.{inside_left, inside_top, skipped};

    /// How many octets of the literal at hand are still to come; 0 outside literals.
    pub fn inside_left(&self) -> u32
        ensures { result ≡ inside_left S.automaton (symbols_of self.now) }
    {
        match self.first() {
            Some(symbol) => symbol.octets_left(),
            None => 0,
        }
    }

    /// Whether the next octet stands within a literal.
    pub fn is_inside(&self) -> bool
        ensures { result ≡ inside_top S.automaton (symbols_of self.now) }
    {
        match self.first() {
            Some(symbol) => 0 < symbol.octets_left(),
            None => false,
        }
    }

    /// Takes n octets of the literal at hand, and not its last.
    pub fn skip(&mut self, count: u32)
        requires { count < inside_left S.automaton (symbols_of self.old) }
        ensures { symbols_of self.new ≡ skipped S.automaton count (symbols_of self.old) }
    {
        if let Some(symbol) = self.first() {
            self.put(symbol.with_octets_left(symbol.octets_left() - count));
        }
    }
}
