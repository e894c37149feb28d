// The classes of tokens by which a list of addresses is cut.
ghost use Rattle.std.specs.Prelude.{◌≡◌, Bool, false};
ghost use Rattle.std.specs.List.{list_all};
ghost use Rattle.text_words.specs.Cuts.{front, back};
ghost use Rattle.header_tokens.specs.Tokens.{Spelled};
ghost use Rattle.header_tokens.specs.Kinds as kinds;
ghost use Rattle.header_addresses.specs.Mailboxes as mailboxes;
ghost use Rattle.header_addresses.specs.AddressLists as lists;
ghost use Rattle.header_addresses.specs.reading.ElementReading as reading;
ghost use Rattle.header_tokens.specs.TokenView.{token_view, tokens_view};

use header_tokens::{Kind, Token, has_mark, is_atom, is_gap, is_word};
use text_words::{Class, are_all, cut};

/// A class of tokens.
pub(crate) trait TokenClass {
    ghost test: { Spelled → Bool };

    /// Whether the token is in the class.
    fn has_token(&self, token: &Token<'_>) -> bool
        ensures { result ≡ test (token_view token.now) };
}

/// A class of tokens as one of what they spell.
#[derive(Clone, Copy)]
struct Spelling<'c, C> {
    class: &'c C,
}

impl<'c, 'a, C: TokenClass> Class<Token<'a>> for Spelling<'c, C> {
    ghost test = { λ t. C.test (token_view t) };

    fn has(&self, item: &Token<'a>) -> bool {
        self.class.has_token(item)
    }
}

/// What stands before the first token outside the class, and that token with all after it.
pub(crate) fn cut_tokens<'a, 'b, C: TokenClass>(
    class: &C,
    tokens: &'b [Token<'a>],
) -> (&'b [Token<'a>], &'b [Token<'a>])
    ensures front { tokens_view result.0.now ≡ front C.test (tokens_view tokens.now) }
    ensures back { tokens_view result.1.now ≡ back C.test (tokens_view tokens.now) }
{
    cut(&Spelling { class }, tokens)
}

/// Whether each token is in the class.
pub(crate) fn are_tokens<'a, C: TokenClass>(class: &C, tokens: &[Token<'a>]) -> bool
    ensures { result ≡ list_all C.test (tokens_view tokens.now) }
{
    are_all(&Spelling { class }, tokens)
}

/// White space and comments.
pub(crate) struct Gap;

impl TokenClass for Gap {
    ghost test = { kinds.is_gap };

    fn has_token(&self, token: &Token<'_>) -> bool {
        is_gap(token)
    }
}

/// Words, dots and gaps.
pub(crate) struct PhrasePart;

impl TokenClass for PhrasePart {
    ghost test = { mailboxes.is_phrase_part };

    fn has_token(&self, token: &Token<'_>) -> bool {
        is_word(token) || has_mark(b'.', token) || is_gap(token)
    }
}

/// Atoms.
pub(crate) struct Atom;

impl TokenClass for Atom {
    ghost test = { kinds.is_atom };

    fn has_token(&self, token: &Token<'_>) -> bool {
        is_atom(token)
    }
}

/// Atoms and quoted texts.
pub(crate) struct Word;

impl TokenClass for Word {
    ghost test = { kinds.is_word };

    fn has_token(&self, token: &Token<'_>) -> bool {
        is_word(token)
    }
}

/// All but `@`.
pub(crate) struct NoAt;

impl TokenClass for NoAt {
    ghost test = { mailboxes.is_no_at };

    fn has_token(&self, token: &Token<'_>) -> bool {
        !has_mark(b'@', token)
    }
}

/// All but `:`.
pub(crate) struct NoColon;

impl TokenClass for NoColon {
    ghost test = { mailboxes.is_no_colon };

    fn has_token(&self, token: &Token<'_>) -> bool {
        !has_mark(b':', token)
    }
}

/// All but `,`.
pub(crate) struct NoComma;

impl TokenClass for NoComma {
    ghost test = { lists.is_no_comma };

    fn has_token(&self, token: &Token<'_>) -> bool {
        !has_mark(b',', token)
    }
}

/// All but `>`.
pub(crate) struct NoGreater;

impl TokenClass for NoGreater {
    ghost test = { reading.is_no_greater };

    fn has_token(&self, token: &Token<'_>) -> bool {
        !has_mark(b'>', token)
    }
}

/// All but `,` and `;`.
pub(crate) struct NoSeparator;

impl TokenClass for NoSeparator {
    ghost test = { lists.is_no_separator };

    fn has_token(&self, token: &Token<'_>) -> bool {
        !(has_mark(b',', token) || has_mark(b';', token))
    }
}

/// What may stand outside angle brackets in a mailbox or a phrase.
pub(crate) struct Plain;

impl TokenClass for Plain {
    ghost test = { reading.is_plain_token };

    fn has_token(&self, token: &Token<'_>) -> bool {
        !(has_mark(b'<', token)
            || has_mark(b'>', token)
            || has_mark(b',', token)
            || has_mark(b':', token)
            || has_mark(b';', token))
    }
}

/// A domain literal (RFC 5322 section 3.4.1).
pub(crate) fn is_literal(token: &Token<'_>) -> bool
    ensures { result ≡ mailboxes.is_literal (token_view token.now) }
{
    match token.kind {
        Kind::Literal => has_no_opener(behind_first(token.text)),
        Kind::Atom | Kind::Quoted | Kind::Space | Kind::Comment | Kind::Mark => false,
    }
}

fn behind_first(text: &[u8]) -> &[u8]
    ensures { result.now ≡ mailboxes.behind_first text.now }
{
    match text {
        [] => text,
        [_first, rest @ ..] => rest,
    }
}

/// Whether no `[` stands in the text but after a backslash.
fn has_no_opener(text: &[u8]) -> bool
    ensures { result ≡ mailboxes.has_no_opener false text.now }
{
    let mut escaped = false;
    for octet in text {
        if is_bare(b'[', escaped, *octet) {
            return false;
        }
        escaped = is_bare(b'\\', escaped, *octet);
    }
    true
}

/// Whether the octet is this sign, and no backslash stands directly before it.
fn is_bare(sign: u8, escaped: bool, octet: u8) -> bool
    ensures { result ≡ mailboxes.is_bare sign escaped octet }
{
    !escaped && octet == sign
}
