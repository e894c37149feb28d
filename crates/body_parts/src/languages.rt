// The languages of parts.
ghost use Rattle.std.specs.Prelude.{◌≡◌, ◌++◌, ◌∷◌, [], IfOk, OnOk, Some, map};
ghost use Rattle.serde_json.specs.View.{view};
ghost use Rattle.json_texts.specs.Texts.{text_data};
ghost use Rattle.header_tokens.specs.TokenView.{token_view};
ghost use Rattle.header_tokens.specs.declared.token.Alphabet.TheVariants as alphabet;
ghost use Rattle.header_tokens.specs.reading.LexemeReading.{lexemes_in};
ghost use Rattle.body_parts.specs.Languages as languages;

use header_tokens::{Alphabet, Token, next_lexeme};
use json_texts::text_value;
use mime_fields::is_token;
use octets::Bytes;
use serde_json::Value;
use std::alloc::{AllocError, Global};

/// Adds a language tag, where the lexeme is one.
fn push_tag(values: &mut Vec<Value>, alloc: Global, lexeme: &Token<'_>) -> Result<(), AllocError>
    ensures { OnOk result (map view values.new.items ≡ map view values.old.items ++ map text_data (languages.tags (token_view lexeme.now ∷ []))) }
{
    if is_token(lexeme) {
        values.push(text_value(alloc, lexeme.text)?)?;
    }
    Ok(())
}

/// The language tags in a Content-Language.
fn tag_values(alloc: Global, text: &[u8]) -> Result<Vec<Value>, AllocError>
    ensures { IfOk result (λ v. map view v.items ≡ map text_data (languages.tags (lexemes_in alphabet.Mime text.now))) }
{
    let mut values = Vec::new(alloc);
    let mut rest = text;
    'tags: while let Some((lexeme, more)) = next_lexeme(Alphabet::Mime, rest) {
        push_tag(&mut values, alloc, &lexeme)?;
        rest = more;
    }
    Ok(values)
}

/// The language tags in a Content-Language as a list.
fn tags_value(alloc: Global, text: &[u8]) -> Result<Value, AllocError>
    ensures { IfOk result (λ v. languages.IsLanguage (Some text.now) (view v)) }
{
    let tags = tag_values(alloc, text)?;
    Ok(Value::Array(tags))
}

/// The language tags in a Content-Language, or null where there is none.
pub(crate) fn language_value(alloc: Global, language: &Option<Bytes>) -> Result<Value, AllocError>
    ensures { IfOk result (λ v. languages.IsLanguage language.now (view v)) }
{
    match language {
        None => Ok(Value::Null),
        Some(text) => tags_value(alloc, text.as_slice()),
    }
}
