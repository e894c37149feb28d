// Laws of headers.
ghost use Rattle.std.specs.Prelude.{◌≡◌, ℕ, List};
ghost use Rattle.mail_header.specs.Bracketed.{HasPieces};
ghost use Rattle.mail_header.specs.Fields.{IsHeader, NameAndRaw};

/// No octets have two headers.
pub fn one_header()
    ensures fields { (f g : List NameAndRaw) (m n : ℕ) (b : List ℕ) → IsHeader f m b → IsHeader g n b → f ≡ g }
    ensures end { (f g : List NameAndRaw) (m n : ℕ) (b : List ℕ) → IsHeader f m b → IsHeader g n b → m ≡ n }
{}

/// No text has two lists of pieces in angle brackets.
pub fn one_list_of_pieces()
    ensures { (m n : List (List ℕ)) (b : List ℕ) → HasPieces m b → HasPieces n b → m ≡ n }
{}
