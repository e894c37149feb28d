// The texts of commands (RFC 9051 section 6, RFC 6154 section 2, RFC 7162 section 3.2).
ghost use Rattle.std.specs.Prelude.{◌≡◌, ◌++◌, ◌∷◌, [], ℕ, List, Some, IfOk, OnOk, codes};
ghost use Rattle.std.specs.List.{list_all};
ghost use Rattle.imap_types.specs.Commands as texts;
ghost use Rattle.imap_types.specs.Commands.{Plain, Literal};
ghost use Rattle.imap_types.specs.Texts.{crlf};
ghost use Rattle.imap_types.specs.declared.command.Command.TheVariants.{Login};
ghost use Rattle.imap_commands.specs.reading.Written.{AddsPart};

use crate::piece::Piece;
use imap_types::Command;
use imap_values::push_date;
use octets::{Bytes, Names};
use std::alloc::{AllocError, Global};

/// Adds the text in quotes, with `\` before each `"` and `\`: quoted (section 4.3).
fn push_quoted(out: &mut Vec<u8>, text: &[u8]) -> Result<(), AllocError>
    ensures { OnOk result (out.new.items ≡ out.old.items ++ texts.quoted text.now) }
{
    out.push(b'"')?;
    for octet in text {
        if *octet == b'"' || *octet == b'\\' {
            out.push(b'\\')?;
        }
        out.push(*octet)?;
    }
    out.push(b'"')?;
    Ok(())
}

/// The words, and the name in quotes after them, as CREATE and DELETE have it (sections 6.3.4 and 6.3.5).
fn named(alloc: Global, words: &[u8], name: &[u8]) -> Result<Vec<u8>, AllocError>
    ensures { IfOk result (λ out. out.items ≡ words.now ++ texts.quoted name.now) }
{
    let mut out = words.to_vec(alloc)?;
    push_quoted(&mut out, name)?;
    Ok(out)
}

/// A system flag as it is written. Other flags stay as they are.
fn flag_text(flag: &[u8]) -> &[u8]
    ensures { result.now ≡ texts.flag_text flag.now }
{
    if flag == b"\\seen".as_slice() {
        b"\\Seen"
    } else if flag == b"\\answered".as_slice() {
        b"\\Answered"
    } else if flag == b"\\flagged".as_slice() {
        b"\\Flagged"
    } else if flag == b"\\draft".as_slice() {
        b"\\Draft"
    } else if flag == b"\\deleted".as_slice() {
        b"\\Deleted"
    } else {
        flag
    }
}

/// Adds the flags with a space between two.
fn push_flags(out: &mut Vec<u8>, flags: &[Bytes]) -> Result<(), AllocError>
    ensures { OnOk result (out.new.items ≡ out.old.items ++ texts.flags_inside flags.now) }
{
    let [first, more @ ..] = flags else {
        return Ok(());
    };
    out.extend_from_slice(flag_text(first.as_slice()))?;
    for flag in more {
        out.push(b' ')?;
        out.extend_from_slice(flag_text(flag.as_slice()))?;
    }
    Ok(())
}

/// SELECT of a folder that is known up to a mod-sequence: "SELECT" SP quoted SP "(QRESYNC (" nz SP long "))" (RFC 7162
/// section 3.2.5).
fn select_known(
    alloc: Global,
    name: &[u8],
    validity: u32,
    modseq: u64,
) -> Result<Vec<u8>, AllocError>
    ensures { IfOk result (λ out. out.items ≡ texts.select_words name.now (Some (validity, modseq))) }
{
    let mut out = named(alloc, b"SELECT ", name)?;
    let known = format!(in alloc; " (QRESYNC ({validity} {modseq}))")?;
    out.extend_from_slice(known.as_bytes())?;
    Ok(out)
}

/// SELECT, of a folder that is known or not (section 6.3.2).
fn select(alloc: Global, name: &[u8], known: Option<(u32, u64)>) -> Result<Vec<u8>, AllocError>
    ensures { IfOk result (λ out. out.items ≡ texts.select_words name.now known) }
{
    match known {
        None => named(alloc, b"SELECT ", name),
        Some((validity, modseq)) => select_known(alloc, name, validity, modseq),
    }
}

/// Every folder: "LIST" SP %x22.22 SP %x22 "*" %x22 SP "RETURN" SP "(SUBSCRIBED)", with the special uses too where they are asked
/// (RFC 9051 section 6.3.9, RFC 6154 section 2).
fn list(special_use: bool) -> &'static [u8]
    ensures { result.now ≡ texts.list_words special_use }
{
    if special_use {
        b"LIST \"\" \"*\" RETURN (SUBSCRIBED SPECIAL-USE)"
    } else {
        b"LIST \"\" \"*\" RETURN (SUBSCRIBED)"
    }
}

/// What a header fetch asks for.
fn header_items(modseq: bool) -> &'static [u8]
    ensures { result.now ≡ texts.header_items modseq }
{
    if modseq {
        b" (UID FLAGS MODSEQ INTERNALDATE RFC822.SIZE BODY.PEEK[HEADER]<0.32768>)"
    } else {
        b" (UID FLAGS INTERNALDATE RFC822.SIZE BODY.PEEK[HEADER]<0.32768>)"
    }
}

/// The headers of a range of UIDs: "UID FETCH" SP nz ":" nz SP items (sections 6.4.5 and 6.4.9).
fn fetch_slice(alloc: Global, from: u32, to: u32, modseq: bool) -> Result<Vec<u8>, AllocError>
    ensures { IfOk result (λ out. out.items ≡ texts.fetch_slice_words from to modseq) }
{
    let mut out = format!(in alloc; "UID FETCH {from}:{to}")?.into_bytes();
    out.extend_from_slice(header_items(modseq))?;
    Ok(out)
}

/// The headers from a UID on: "UID FETCH" SP nz ":*" SP items. The last message is among them, whatever its UID.
fn fetch_new(alloc: Global, from: u32, modseq: bool) -> Result<Vec<u8>, AllocError>
    ensures { IfOk result (λ out. out.items ≡ texts.fetch_new_words from modseq) }
{
    let mut out = format!(in alloc; "UID FETCH {from}:*")?.into_bytes();
    out.extend_from_slice(header_items(modseq))?;
    Ok(out)
}

/// Flags added to a message or taken from it: "UID STORE" SP nz SP ("+" / "-") "FLAGS" SP flags (sections 6.4.6 and
/// 6.4.9).
fn store(alloc: Global, uid: u32, add: bool, flags: &Names) -> Result<Vec<u8>, AllocError>
    ensures { IfOk result (λ out. out.items ≡ texts.store_words uid add flags.now) }
{
    let sign = if add { '+' } else { '-' };
    let mut out = format!(in alloc; "UID STORE {uid} {sign}FLAGS (")?.into_bytes();
    push_flags(&mut out, flags.as_slice())?;
    out.push(b')')?;
    Ok(out)
}

/// A message moved to a folder: "UID MOVE" SP nz SP quoted (section 6.4.8).
fn move_to(alloc: Global, uid: u32, name: &[u8]) -> Result<Vec<u8>, AllocError>
    ensures { IfOk result (λ out. out.items ≡ texts.move_words uid name.now) }
{
    let mut out = format!(in alloc; "UID MOVE {uid} ")?.into_bytes();
    push_quoted(&mut out, name)?;
    Ok(out)
}

/// A folder renamed: "RENAME" SP quoted SP quoted (section 6.3.6).
fn rename(alloc: Global, from: &[u8], to: &[u8]) -> Result<Vec<u8>, AllocError>
    ensures { IfOk result (λ out. out.items ≡ texts.rename_words from.now to.now) }
{
    let mut out = named(alloc, b"RENAME ", from)?;
    out.push(b' ')?;
    push_quoted(&mut out, to)?;
    Ok(out)
}

/// A folder subscribed to or no longer: ("SUBSCRIBE" / "UNSUBSCRIBE") SP quoted (sections 6.3.7 and 6.3.8).
fn subscribe(alloc: Global, name: &[u8], on: bool) -> Result<Vec<u8>, AllocError>
    ensures { IfOk result (λ out. out.items ≡ texts.subscribe_words name.now on) }
{
    if on {
        named(alloc, b"SUBSCRIBE ", name)
    } else {
        named(alloc, b"UNSUBSCRIBE ", name)
    }
}

/// A message that is marked as deleted removed: "UID EXPUNGE" SP nz (section 6.4.9).
fn expunge(alloc: Global, uid: u32) -> Result<Vec<u8>, AllocError>
    ensures { IfOk result (λ out. out.items ≡ texts.expunge_words uid) }
{
    Ok(format!(in alloc; "UID EXPUNGE {uid}")?.into_bytes())
}

/// A whole message, up to 50,000,000 octets: "UID FETCH" SP nz SP "(UID BODY.PEEK[]<0.50000000>)".
fn fetch_body(alloc: Global, uid: u32) -> Result<Vec<u8>, AllocError>
    ensures { IfOk result (λ out. out.items ≡ texts.fetch_body_words uid) }
{
    Ok(format!(in alloc; "UID FETCH {uid} (UID BODY.PEEK[]<0.50000000>)")?.into_bytes())
}

/// What follows the tag and its space, in a command without literals.
fn words(alloc: Global, command: &Command) -> Result<Vec<u8>, AllocError>
    ensures { IfOk result (λ out. out.items ≡ texts.words_of command.now) }
{
    match command {
        Command::Capability => b"CAPABILITY".to_vec(alloc),
        Command::Login { .. } => Ok(Vec::new(alloc)),
        Command::Enable => b"ENABLE QRESYNC IMAP4rev2".to_vec(alloc),
        Command::List { special_use } => list(*special_use).to_vec(alloc),
        Command::Select { name, known } => select(alloc, name.as_slice(), *known),
        Command::Unselect => b"UNSELECT".to_vec(alloc),
        Command::FetchFlags => b"UID FETCH 1:* (UID FLAGS)".to_vec(alloc),
        Command::FetchSlice { from, to, modseq } => fetch_slice(alloc, *from, *to, *modseq),
        Command::FetchNew { from, modseq } => fetch_new(alloc, *from, *modseq),
        Command::FetchBody { uid } => fetch_body(alloc, *uid),
        Command::Store { uid, add, flags } => store(alloc, *uid, *add, flags),
        Command::Move { uid, name } => move_to(alloc, *uid, name.as_slice()),
        Command::Expunge { uid } => expunge(alloc, *uid),
        Command::Append { .. } => Ok(Vec::new(alloc)),
        Command::Create { name } => named(alloc, b"CREATE ", name.as_slice()),
        Command::Delete { name } => named(alloc, b"DELETE ", name.as_slice()),
        Command::Rename { from, to } => rename(alloc, from.as_slice(), to.as_slice()),
        Command::Subscribe { name, on } => subscribe(alloc, name.as_slice(), *on),
    }
}

/// The command's text under the tag of this number, where it has no literal.
fn text_of(alloc: Global, command: &Command, tag: u64) -> Result<Vec<u8>, AllocError>
    ensures { IfOk result (λ text. text.items ≡ texts.tag_of tag ++ 32 ∷ texts.words_of command.now ++ crlf) }
{
    let words = words(alloc, command)?;
    let mut out = format!(in alloc; "a{tag} ")?.into_bytes();
    out.extend_from_slice(&words)?;
    out.extend_from_slice(b"\r\n")?;
    Ok(out)
}

/// Whether the text may stand in quotes: printable ASCII, with the space.
fn is_printable(text: &[u8]) -> bool
    ensures { result ≡ list_all texts.is_printable text.now }
{
    for octet in text {
        if *octet < b' ' || b'~' < *octet {
            return false;
        }
    }
    true
}

/// Ends the piece with the head of a literal, whose octets begin the next one: "{" number "}" CRLF (section 4.3).
fn push_literal<'a>(
    alloc: Global,
    done: &mut Vec<Piece<'a>>,
    piece: Piece<'a>,
    text: &'a [u8],
) -> Result<Piece<'a>, AllocError>
    ensures { IfOk result (λ next. AddsPart (Literal text.now) done.old.items piece.entry done.new.items next) }
{
    let mut piece = piece;
    let head = format!(in alloc; "{{{}}}\r\n", text.len())?;
    piece.push(head.as_bytes())?;
    done.push(piece)?;
    Ok(Piece::of_literal(alloc, text))
}

/// The text in quotes.
fn quoted(alloc: Global, text: &[u8]) -> Result<Vec<u8>, AllocError>
    ensures { IfOk result (λ out. out.items ≡ texts.quoted text.now) }
{
    let mut out = Vec::new(alloc);
    push_quoted(&mut out, text)?;
    Ok(out)
}

/// A user or a password: in quotes where it is printable, else as a literal.
fn push_credential<'a>(
    alloc: Global,
    done: &mut Vec<Piece<'a>>,
    piece: Piece<'a>,
    text: &'a [u8],
) -> Result<Piece<'a>, AllocError>
    ensures { IfOk result (λ next. AddsPart (texts.credential text.now) done.old.items piece.entry done.new.items next) }
{
    if !is_printable(text) {
        return push_literal(alloc, done, piece, text);
    }
    let mut piece = piece;
    let quoted = quoted(alloc, text)?;
    piece.push(&quoted)?;
    Ok(piece)
}

/// The tag of this number, and the word of a LOGIN.
fn login_words(alloc: Global, tag: u64) -> Result<Vec<u8>, AllocError>
    ensures { IfOk result (λ out. out.items ≡ texts.tag_of tag ++ codes " LOGIN ") }
{
    Ok(format!(in alloc; "a{tag} LOGIN ")?.into_bytes())
}

/// The pieces of a LOGIN (RFC 9051 section 6.2.3).
fn login<'a>(
    alloc: Global,
    user: &'a [u8],
    password: &'a [u8],
    tag: u64,
) -> Result<Vec<Piece<'a>>, AllocError>
    ensures { IfOk result (λ pieces. pieces.items ≡ texts.command_pieces (Login user.now password.now) tag) }
{
    let mut done = Vec::new(alloc);
    let piece = Piece::of_text(login_words(alloc, tag)?);
    let mut piece = push_credential(alloc, &mut done, piece, user)?;
    piece.push(b" ")?;
    let mut piece = push_credential(alloc, &mut done, piece, password)?;
    piece.push(b"\r\n")?;
    done.push(piece)?;
    Ok(done)
}

/// What stands before the message of an APPEND: "APPEND" SP quoted SP flags SP date-time SP (section 6.3.12).
fn append_words(alloc: Global, name: &[u8], flags: &Names, date: i64) -> Result<Vec<u8>, AllocError>
    ensures { IfOk result (λ out. out.items ≡ texts.append_words name.now flags.now date) }
{
    let mut out = named(alloc, b"APPEND ", name)?;
    out.extend_from_slice(b" (")?;
    push_flags(&mut out, flags.as_slice())?;
    out.extend_from_slice(b") ")?;
    push_date(&mut out, date)?;
    out.push(b' ')?;
    Ok(out)
}

/// The tag of this number, and the words.
fn tagged_words(alloc: Global, words: &[u8], tag: u64) -> Result<Vec<u8>, AllocError>
    ensures { IfOk result (λ out. out.items ≡ texts.tag_of tag ++ 32 ∷ words.now) }
{
    let mut out = format!(in alloc; "a{tag} ")?.into_bytes();
    out.extend_from_slice(words)?;
    Ok(out)
}

/// The pieces of an APPEND (RFC 9051 section 6.3.12).
fn append<'a>(
    alloc: Global,
    words: &[u8],
    message: &'a [u8],
    tag: u64,
) -> Result<Vec<Piece<'a>>, AllocError>
    ensures { IfOk result (λ pieces. pieces.items ≡ texts.put_before (texts.tag_of tag ++ 32 ∷ []) (texts.pieces_of (Plain words.now ∷ Literal message.now ∷ []))) }
{
    let mut done = Vec::new(alloc);
    let piece = Piece::of_text(tagged_words(alloc, words, tag)?);
    let mut piece = push_literal(alloc, &mut done, piece, message)?;
    piece.push(b"\r\n")?;
    done.push(piece)?;
    Ok(done)
}

/// The pieces of the command's text under the tag of this number, each but the first to be sent after a continuation
/// (RFC 9051 section 6). What they have of the command's literals is the command's own.
pub fn write_command<'a>(
    alloc: Global,
    command: &'a Command,
    tag: u64,
) -> Result<Vec<Piece<'a>>, AllocError>
    ensures { IfOk result (λ pieces. pieces.items ≡ texts.command_pieces command.now tag) }
{
    if let Command::Login { user, password } = command {
        return login(alloc, user.as_slice(), password.as_slice(), tag);
    }
    if let Command::Append {
        name,
        flags,
        date,
        message,
    } = command
    {
        let words = append_words(alloc, name.as_slice(), flags, *date)?;
        return append(alloc, &words, message.as_slice(), tag);
    }
    let mut pieces = Vec::new(alloc);
    pieces.push(Piece::of_text(text_of(alloc, command, tag)?))?;
    Ok(pieces)
}
