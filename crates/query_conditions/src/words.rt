// Words in texts.
ghost use Rattle.std.specs.Prelude.{◌↔◌, IsTrue};
ghost use Rattle.query_conditions.specs.Words.{HasWord, HasWords};

use octets::Names;
use text_words::same_text;

/// Whether a part of the text is the word, where A to Z count as a to z. It takes no memory, and of a text and a word no more
/// steps than the product of their lengths.
pub fn has_word(word: &[u8], text: &[u8]) -> bool
    ensures { IsTrue result ↔ HasWord word.now text.now }
{
    if text.len() < word.len() {
        return false;
    }
    for at in 0..text.len() - word.len() + 1 {
        if same_text(&text[at..at + word.len()], word) {
            return true;
        }
    }
    false
}

/// Whether each of the words stands in the text. It takes no memory.
pub fn has_words(words: &Names, text: &[u8]) -> bool
    ensures { IsTrue result ↔ HasWords words.now text.now }
{
    for word in words.as_slice() {
        if !has_word(word.as_slice(), text) {
            return false;
        }
    }
    true
}
