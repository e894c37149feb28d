// Where a response ends (RFC 9051 section 9).
use crate::answer::Scan;
use imap_automaton::Sym;
use pushdown::Answer;

/// Finds the end of one response, which comes in pieces.
#[derive(Clone, Copy)]
pub struct Scanner {
    scanner: pushdown::Scanner<Sym>,
}

// A few hundred octets, however deep values are nested and however long literals are.
const _: () = prove!(size_of::<Scanner>() <= 256);

ghost use Rattle.std.specs.Prelude.{◌≡◌};
ghost use Rattle.imap_grammar.specs.Fed.{scan_of};

/// What the automaton's answer says of responses.
fn scan_of(answer: Answer) -> Scan
    ensures { result ≡ scan_of answer }
{
    match answer {
        Answer::Whole(n) => Scan::Whole(n),
        Answer::NeedMore => Scan::NeedMore,
        Answer::Bad(at) => Scan::Bad(at),
    }
}

impl Scanner {
    ghost use Rattle.std.specs.Prelude.{List, [], ◌++◌, ℕ};
    ghost use Rattle.imap_grammar.specs.declared.answer.Scan.TheVariants.{NeedMore};
    ghost use Rattle.imap_grammar.specs.Scan.{ScanOf};
    ghost use Rattle.imap_grammar.specs.Fed.{IsScannerFed};

    /// A scanner that was fed nothing.
    pub fn new() -> Scanner
        ensures { IsScannerFed result [] }
    {
        Scanner {
            scanner: pushdown::Scanner::new(),
        }
    }

    /// Takes the next piece. The answer is that for all pieces joined, and its places count from the first piece. After
    /// another answer than NeedMore the scanner is to be made anew.
    pub fn feed(&mut self, piece: &[u8]) -> Scan
        requires { (b : List ℕ) × IsScannerFed self.old b }
        ensures scan { (b : List ℕ) → IsScannerFed self.old b → ScanOf (b ++ piece.now) result }
        ensures more { (b : List ℕ) → IsScannerFed self.old b → result ≡ NeedMore → IsScannerFed self.new (b ++ piece.now) }
    {
        scan_of(self.scanner.feed(piece))
    }
}

ghost use Rattle.std.specs.Prelude.{List, ℕ};
ghost use Rattle.imap_grammar.specs.Scan as scans;
ghost use Rattle.imap_grammar.specs.declared.answer.Scan.{Scan};

/// What the octets are: a response at their front, the beginning of one, or neither.
pub fn scan(bytes: &[u8]) -> Scan
    ensures { scans.ScanOf bytes.now result }
{
    Scanner::new().feed(bytes)
}

/// No octets have two answers, so each of them comes exactly where it is right.
pub fn one_answer()
    ensures { (b : List ℕ) (p q : Scan) → scans.ScanOf b p → scans.ScanOf b q → p ≡ q }
{}
