// Where a text of a grammar ends.
use crate::answer::Answer;
use crate::runs::advance_through;
use crate::stack::Stack;
use crate::step::advance;
use crate::symbol::Symbol;

/// Finds the end of one text, which comes in pieces.
#[derive(Clone, Copy)]
pub struct Scanner<S: Copy> {
    stack: Stack<S>,
    outside: u32,
    taken: usize,
}

ghost use Rattle.std.specs.Prelude.{◌≡◌, ◌≤◌, ◌+◌, ◌-◌, if◌then◌else◌, drop, length, min};
ghost use Rattle.pushdown.specs.Run.{inside_left, skipped};
ghost use Rattle.pushdown.specs.Symbols.{symbols_of};

/// What an octet counts against the limit.
fn cost_of(inside: bool) -> u32
    ensures { result ≡ (if inside then 0 else 1) }
{
    if inside { 0 } else { 1 }
}

/// The octet, 256 above itself within a literal.
pub fn marked_by(inside: bool, octet: u8) -> u16
    ensures { result ≡ (if inside then octet + 256 else octet) }
{
    if inside {
        octet as u16 + 256
    } else {
        octet as u16
    }
}

/// Takes the octets of the literal at hand, but for its last: what follows them.
pub fn skip_inside<'a, S: Symbol>(stack: &mut Stack<S>, octets: &'a [u8]) -> &'a [u8]
    ensures rest { result.now ≡ drop (inside_left S.automaton (symbols_of stack.old) - 1) octets.now }
    ensures symbols { symbols_of stack.new ≡ skipped S.automaton (min (inside_left S.automaton (symbols_of stack.old) - 1) (length octets.now)) (symbols_of stack.old) }
{
    S::lawful();
    let left = stack.inside_left();
    if left <= 1 {
        return octets;
    }
    let count = octets.len().min(left as usize - 1);
    let (_, rest) = octets.split_at(count);
    stack.skip(count as u32);
    rest
}

impl<S: Symbol> Scanner<S> {
    ghost use Rattle.std.specs.Prelude.{List, [], ◌∷◌, ◌++◌, ℕ};
    ghost use Rattle.pushdown.specs.declared.answer.Answer.TheVariants.{NeedMore};
    ghost use Rattle.pushdown.specs.Answers.{AnswerOf};
    ghost use Rattle.pushdown.specs.Fed.{Fed, FedUpTo, TakesOctet};

    /// A scanner that was fed nothing.
    pub fn new() -> Scanner<S>
        ensures { Fed S.automaton result [] }
    {
        S::lawful();
        Scanner {
            stack: Stack::of(S::start()),
            outside: 0,
            taken: 0,
        }
    }

    /// Takes one octet more.
    fn take(&mut self, octet: u8) -> Answer
        requires { (b : List ℕ) × Fed S.automaton self.old b }
        ensures { (b : List ℕ) → Fed S.automaton self.old b → TakesOctet S.automaton self.new b octet result }
    {
        S::lawful();
        let inside = self.stack.is_inside();
        let cost = cost_of(inside);
        let limit = S::limit();
        if limit - self.outside < cost {
            return Answer::Bad(self.taken);
        }
        let marked = marked_by(inside, octet);
        if !advance(&mut self.stack, marked) {
            return Answer::Bad(self.taken);
        }
        self.outside += cost;
        self.taken += 1;
        if self.stack.is_empty() {
            Answer::Whole(self.taken)
        } else {
            Answer::NeedMore
        }
    }

    /// Takes the octets of the literal at hand, but for its last: what follows them.
    fn skip<'a>(&mut self, octets: &'a [u8]) -> &'a [u8]
        requires { (b : List ℕ) × Fed S.automaton self.old b }
        ensures fed { (b : List ℕ) → Fed S.automaton self.old b → FedUpTo S.automaton self.new b octets.now result.now }
        ensures rest { result.now ≡ drop (inside_left S.automaton (symbols_of self.old.stack) - 1) octets.now }
    {
        S::lawful();
        let rest = skip_inside(&mut self.stack, octets);
        self.taken += octets.len() - rest.len();
        rest
    }

    /// Takes octets that stand outside literals, as many as may be taken at once: what follows them.
    fn take_many<'a>(&mut self, octets: &'a [u8]) -> &'a [u8]
        requires { (b : List ℕ) × Fed S.automaton self.old b }
        ensures fed { (b : List ℕ) → Fed S.automaton self.old b → FedUpTo S.automaton self.new b octets.now result.now }
        ensures most { length result.now ≤ length octets.now }
    {
        S::lawful();
        let limit = S::limit();
        let most = ((limit - self.outside) as usize).min(octets.len());
        let (front, _) = octets.split_at(most);
        let count = advance_through(&mut self.stack, front);
        self.outside += count as u32;
        self.taken += count;
        let (_, rest) = octets.split_at(count);
        rest
    }

    /// Takes the next piece. The answer is that for all pieces joined, and its places count from the first piece. After
    /// another answer than NeedMore the scanner is to be made anew.
    pub fn feed(&mut self, piece: &[u8]) -> Answer
        requires { (b : List ℕ) × Fed S.automaton self.old b }
        ensures answer { (b : List ℕ) → Fed S.automaton self.old b → AnswerOf S.automaton (b ++ piece.now) result }
        ensures more { (b : List ℕ) → Fed S.automaton self.old b → result ≡ NeedMore → Fed S.automaton self.new (b ++ piece.now) }
    {
        S::lawful();
        let mut rest = piece;
        'feeding: loop {
            let skipped = self.skip(rest);
            let octets = self.take_many(skipped);
            let Some((octet, after)) = octets.split_first() else {
                return Answer::NeedMore;
            };
            let answer = self.take(*octet);
            match answer {
                Answer::NeedMore => {}
                _ => return answer,
            }
            rest = after;
        }
    }
}

ghost use Rattle.std.specs.Prelude.{List, ℕ};
ghost use Rattle.pushdown.specs.Answers as answers;
ghost use Rattle.pushdown.specs.declared.answer.Answer.{Answer};

/// No octets have two answers, so each of them comes exactly where it is right.
pub fn one_answer<S: Symbol>()
    ensures { (b : List ℕ) (p q : Answer) → answers.AnswerOf S.automaton b p → answers.AnswerOf S.automaton b q → p ≡ q }
{
    S::lawful();
}
