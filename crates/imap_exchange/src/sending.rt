// The pieces of a command, each sent once it is due.
ghost use Rattle.std.specs.Prelude.{◌≡◌, ◌<◌, ◌≤◌, true, false, length};
ghost use Rattle.gate_world.specs.Causes.{LinkAlone, NoFault, Rose};
ghost use Rattle.gate_world.specs.Tape.{Adds};
ghost use Rattle.imap_exchange.specs.Answering.{HangsUp};
ghost use Rattle.imap_exchange.specs.reading.Sending.{Offers, Takes, piece_at};

use gate_world::Link;
use imap_commands::Piece;

// Writes the octets to the store, a piece at a time: how many it took, from their front. Where those aren't all a write failed, and
// the link life has ended.
fn write_some<L: Link>(link: &mut L, octets: &[u8]) -> usize
    ensures bound { result ≤ length octets.now }
    ensures tape { Adds (L.tape link.old) (L.tape link.new) (Takes octets.now result) }
    ensures alone { LinkAlone (L.faults link.old) (L.faults link.new) }
    ensures cause { result < length octets.now → Rose (L.faults link.old).link (L.faults link.new).link }
    ensures hidden { L.hidden link.new ≡ L.hidden link.old }
{
    let mut count = 0;
    'writing: while count < octets.len() {
        let (_, rest) = octets.split_at(count);
        match link.write(rest) {
            Ok(more) => count += more,
            Err(_) => return count,
        }
    }
    count
}

// Writes the text: whether the store took all of it. `taken` says whether it took octets of this text or of others before.
fn is_written<L: Link>(link: &mut L, taken: &mut bool, text: &[u8]) -> bool
    ensures tape { Adds (L.tape link.old) (L.tape link.new) (Offers true result taken.old taken.new text.now) }
    ensures alone { LinkAlone (L.faults link.old) (L.faults link.new) }
    ensures cause { result ≡ false → Rose (L.faults link.old).link (L.faults link.new).link }
    ensures hidden { L.hidden link.new ≡ L.hidden link.old }
{
    let count = write_some(link, text);
    *taken = *taken || 0 < count;
    count == text.len()
}

// Writes the octets of the piece's literal, and then those behind them: whether the store took all of them.
fn is_sent<L: Link>(link: &mut L, taken: &mut bool, piece: &Piece<'_>) -> bool
    ensures tape { Adds (L.tape link.old) (L.tape link.new) (Offers true result taken.old taken.new piece.now) }
    ensures alone { LinkAlone (L.faults link.old) (L.faults link.new) }
    ensures cause { result ≡ false → Rose (L.faults link.old).link (L.faults link.new).link }
    ensures hidden { L.hidden link.new ≡ L.hidden link.old }
{
    let (literal, text) = piece.parts();
    if !is_written(link, taken, literal) {
        return false;
    }
    is_written(link, taken, text)
}

/// Sends the piece at this place, where the link is up and there is one: whether the link is up then. `taken` says whether the
/// store took octets of this piece or of those before.
pub fn send_piece<L: Link>(
    link: &mut L,
    up: bool,
    taken: &mut bool,
    pieces: &[Piece<'_>],
    at: usize,
) -> bool
    ensures tape { Adds (L.tape link.old) (L.tape link.new) (Offers up result taken.old taken.new (piece_at pieces.now at)) }
    ensures alone { LinkAlone (L.faults link.old) (L.faults link.new) }
    ensures down { up ≡ false → result ≡ false }
    ensures cause { up ≡ true → result ≡ false → Rose (L.faults link.old).link (L.faults link.new).link }
    ensures hidden { L.hidden link.new ≡ L.hidden link.old }
{
    if !up {
        return false;
    }
    match pieces.get(at) {
        None => true,
        Some(piece) => is_sent(link, taken, piece),
    }
}

/// Ends the link life, where the link is up.
pub fn hang_up_where<L: Link>(link: &mut L, up: bool)
    ensures tape { Adds (L.tape link.old) (L.tape link.new) (HangsUp up) }
    ensures cause { NoFault (L.faults link.old) (L.faults link.new) }
    ensures hidden { L.hidden link.new ≡ L.hidden link.old }
{
    if up {
        link.hang_up();
    }
}
