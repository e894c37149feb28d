// Laws of encoded words and of bodies.
ghost use Rattle.std.specs.Prelude.{◌≡◌, Bool, false, ℕ, List};
ghost use Rattle.text_words.specs.Cuts.{IsRun};
ghost use Rattle.text_words.specs.Octets.{is_white};
ghost use Rattle.std.specs.List.{filter};
ghost use Rattle.header_words.specs.EncodedWords.{IsText, IsTextBetween, is_printed};
ghost use Rattle.header_words.specs.declared.encoded_word.Edges.{Edges};
ghost use Rattle.header_words.specs.Transfer.{IsBody};
ghost use Rattle.header_words.specs.WordList.{AreWords, joined, IsWritten};
ghost use Rattle.header_words.specs.declared.transfer.Encoding.{Encoding};

/// No value has two texts.
pub fn one_text()
    ensures { (value s t : List ℕ) → IsText false value s → IsText false value t → s ≡ t }
{}

/// No value has two texts between edges of a kind.
pub fn one_text_between()
    ensures { (edges : Edges) (value s t : List ℕ) → IsTextBetween edges false value s → IsTextBetween edges false value t → s ≡ t }
{}

/// No body spells two lists of octets.
pub fn one_body()
    ensures octets { (e : Encoding) (s t b : List ℕ) (p q : Bool) → IsBody e s p b → IsBody e t q b → s ≡ t }
    ensures problem { (e : Encoding) (s t b : List ℕ) (p q : Bool) → IsBody e s p b → IsBody e t q b → p ≡ q }
{}

/// No text is written as two values.
pub fn one_writing()
    ensures { (text s t : List ℕ) → IsWritten text s → IsWritten text t → s ≡ t }
{}

/// What a text is written as reads as the text without its control characters, also with other white space between the
/// words, as in a line that is unfolded.
pub fn reads_back()
    ensures written { (text value : List ℕ) → IsWritten text value → IsText false value (filter is_printed text) }
    ensures joined { (between text : List ℕ) (words : List (List ℕ)) → IsRun is_white between → AreWords words text → IsText false (joined between words) (filter is_printed text) }
{}
