//! What an honest store answers in an IMAP session in which QRESYNC is enabled (RFC 9051, RFC 7162): its mail, and the
//! relation between that mail, a command, the responses and the mail after them. It is the premise of what is said of
//! both ends of a link. Definitions and laws alone; they stand in `specs/`.
#![tactic(auto)]

pub mod laws;
