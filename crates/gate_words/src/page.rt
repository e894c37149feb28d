// The pages of help.
ghost use Rattle.std.specs.Prelude.{◌≡◌};
ghost use Rattle.gate_words.specs.Pages.{page_text};

/// The page on the program.
pub const PROGRAM_PAGE: &str = "\
jmapgate: a mail gateway from JMAP to IMAP. Mail clients speak JMAP (RFC 8620,
RFC 8621) to it; the mail stays in one IMAP store (RFC 9051).

Usage: jmapgate COMMAND [OPTION VALUE].. | jmapgate --help | jmapgate --version

Commands:
  serve    answers clients over HTTP, from the mail of a store
  once     answers one JMAP request on standard input, from the mail of a store
  check    asks a store whether it can be used, and says why where it cannot
  show     writes the message on standard input as an Email object in JSON
  store    serves a small IMAP store in memory, for tests and for trying it out

jmapgate COMMAND --help says what a command does, with its options and an
example. Options come in any order, each once, as --name value or --name=value.

Environment:
  JMAPGATE_PASSWORD    the user's password at the store (serve, once, check)
  JMAPGATE_TOKEN       the token that a client must send (serve)

Example:
  jmapgate show < message.eml
";

/// The page on the command `serve`.
pub const SERVE_PAGE: &str = "\
jmapgate serve answers clients over HTTP, one request a connection, one after
the other, from the mail of a store.

Usage: jmapgate serve --listen ADDR --store ADDR --user USER --base URL
                      [--connections N]

Options:
  --listen ADDR      where clients are accepted: an address, `:` and a port
  --store ADDR       the IMAP store: a name or an address, `:` and a port
  --user USER        the user at the store
  --base URL         the URL that clients come by, as http://127.0.0.1:8080 or
                     https://mail.example.org; it does not end in `/`
  --connections N    ends after N connections, from 1 to 9223372036854775807

Environment:
  JMAPGATE_PASSWORD    the user's password at the store
  JMAPGATE_TOKEN       the token that a client must send in the field
                       `Authorization: Bearer TOKEN`; without it none is let in

There is no TLS to either side: put a tunnel or a proxy in front.

Example:
  export JMAPGATE_PASSWORD=pw JMAPGATE_TOKEN=secret
  jmapgate serve --listen 127.0.0.1:8080 --store 127.0.0.1:143 --user alice \\
    --base http://127.0.0.1:8080
  curl -H 'Authorization: Bearer secret' http://127.0.0.1:8080/.well-known/jmap
";

/// The page on the command `once`.
pub const ONCE_PAGE: &str = "\
jmapgate once answers one JMAP request, which is read to the end of standard
input, from the mail of a store. The response goes to standard output.

Usage: jmapgate once --store ADDR --user USER --base URL

Options:
  --store ADDR    the IMAP store: a name or an address, `:` and a port
  --user USER     the user at the store
  --base URL      the URL that clients come by, as http://127.0.0.1:8080; it
                  does not end in `/`

Environment:
  JMAPGATE_PASSWORD    the user's password at the store

Example:
  export JMAPGATE_PASSWORD=pw
  jmapgate once --store 127.0.0.1:143 --user alice \\
    --base http://127.0.0.1:8080 < request.json
";

/// The page on the command `show`.
pub const SHOW_PAGE: &str = "\
jmapgate show reads one message to the end of standard input, and writes it to
standard output as an Email object in JSON, with the values of its text bodies.
It has no options, and needs neither a store nor a password.

Usage: jmapgate show

Example:
  jmapgate show < message.eml
";

/// The page on the command `store`.
pub const STORE_PAGE: &str = "\
jmapgate store serves a small IMAP store in memory, for tests and for trying
the gateway out. It has the folders INBOX and Archive, both empty. Any user and
password is let in, one client after the other, and nothing is kept when it
ends.

It reads the commands that the gateway sends: at any other, as LOGOUT, it says
BYE and ends the connection. While one client is connected no other is served.
The gateway connects once for each request that needs the mail, and each of its
connections counts.

Usage: jmapgate store --listen ADDR [--connections N]

Options:
  --listen ADDR      where clients are accepted: an address, `:` and a port
  --connections N    ends after N connections, from 1 to 9223372036854775807

There is no TLS, and no password is asked for: listen on loopback alone.

Example:
  jmapgate store --listen 127.0.0.1:1143
";

/// The page on the command `check`.
pub const CHECK_PAGE: &str = "\
jmapgate check asks an IMAP store, in one connection, what `serve` asks it at
first, and says in plain lines on standard output what it found: whether the
store lets the user in, what it lacks, each folder, and what a first round takes.
The last line says that the store can be used (exit status 0), or why it cannot
and what to do (exit status 8).

It sends no command that changes mail, and writes neither the password nor what
messages hold; where it cannot read what the store says, though, it writes how
that begins. It asks for the headers of all messages, as `serve` does at its
first request: with much mail that takes a while.

Usage: jmapgate check --store ADDR --user USER

Options:
  --store ADDR    the IMAP store: a name or an address, `:` and a port
  --user USER     the user at the store

Environment:
  JMAPGATE_PASSWORD    the user's password at the store

There is no TLS: put a tunnel in front, or name a port of IMAP without TLS.

Example:
  export JMAPGATE_PASSWORD=pw
  jmapgate check --store 127.0.0.1:143 --user alice
";

/// The page on the version.
pub const VERSION_PAGE: &str = "jmapgate 0.1\n";

/// A page of help.
#[derive(Clone, Copy, Debug, PartialEq, Eq)]
pub enum Page {
    /// For `--help` alone.
    Program,
    /// For `serve --help`.
    Serve,
    /// For `once --help`.
    Once,
    /// For `show --help`.
    Show,
    /// For `store --help`.
    Store,
    /// For `check --help`.
    Check,
    /// For `--version`, alone or after a command: one line.
    Version,
}

impl Page {
    /// The page's text, whose lines each have a line end.
    pub fn text(self) -> &'static str
        ensures { result.now ≡ page_text self }
    {
        match self {
            Page::Program => PROGRAM_PAGE,
            Page::Serve => SERVE_PAGE,
            Page::Once => ONCE_PAGE,
            Page::Show => SHOW_PAGE,
            Page::Store => STORE_PAGE,
            Page::Check => CHECK_PAGE,
            Page::Version => VERSION_PAGE,
        }
    }
}
