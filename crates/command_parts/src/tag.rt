// Tags (RFC 9051 section 2.2.1).
ghost use Rattle.std.specs.Prelude.{◌≡◌};
ghost use Rattle.command_parts.specs.reading.Lexemes as reading;
ghost use Rattle.command_parts.specs.reading.Steps.{ReadingGives};

use crate::lexeme::{Lexeme, LexemeStep, read_lexeme};
use crate::no_command::NoCommand;
use imap_keywords::is_alnum;
use imap_values::before;

/// Letters and digits of a tag.
const MAX_TAG_OCTETS: u8 = 32;

/// A tag, as far as it was read.
#[derive(Clone, Copy)]
pub struct TagOctets {
    /// Its octets so far.
    count: u8,
}

fn advance(tag: TagOctets, c: u8) -> LexemeStep<TagOctets>
    ensures { result ≡ reading.tag_advance tag c }
{
    if is_alnum(c as u16) {
        if tag.count < MAX_TAG_OCTETS {
            LexemeStep::On(TagOctets {
                count: tag.count + 1,
            })
        } else {
            LexemeStep::Fail
        }
    } else if c == b' ' && 0 < tag.count {
        LexemeStep::End(tag)
    } else {
        LexemeStep::Fail
    }
}

impl Lexeme for TagOctets {
    ghost advance_of = { reading.tag_advance };

    fn advance(&self, c: u8) -> LexemeStep<TagOctets> {
        advance(*self, c)
    }
}

/// The tag at the front, and what follows the space behind it: 1 to 32 letters and digits, and SP.
#[tactic(auto, unfolding(crate::specs::reading::Lexemes::tag_at))]
pub fn read_tag(bytes: &[u8]) -> Result<(&[u8], &[u8]), NoCommand>
    ensures { ReadingGives (λ x. (x.0.now, x.1.now)) result (reading.tag_at bytes.now) }
{
    let (tag, rest) = read_lexeme(TagOctets { count: 0 }, bytes)?;
    Ok((before(bytes, tag.count as usize), rest))
}
