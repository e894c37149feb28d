// What the texts of responses spell (RFC 9051 section 9).
ghost use Rattle.imap_types.specs.declared.response.Response.{Response};
ghost use Rattle.imap_types.specs.Spells.{IsSpelling};
ghost use Rattle.store_responses.specs.ResponseTexts.{text_of_response};
ghost use Rattle.store_responses.specs.Sendable.{IsSendable};

/// The text of a response that may be sent spells that response.
pub fn text_spells_response()
    ensures { (r : Response) → IsSendable r → IsSpelling r (text_of_response r) }
{}
