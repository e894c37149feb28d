// The laws of heads that the front waits for.
ghost use Rattle.std.specs.Prelude.{◌≡◌, ◌++◌, ℕ, List, Some, true, false};
ghost use Rattle.client_front.specs.Scanning.{coming, scanned, unscanned};
ghost use Rattle.client_front.specs.Waiting.{asks, is_never};
ghost use Rattle.client_front.specs.declared.scan.TheConstants as front;
ghost use Rattle.http_service.specs.Taking.{HeadLines, IsMissing, LinesOf};
ghost use Rattle.http_service.specs.declared.lines.TheConstants as service;

/// Octets with which a client is handed on are read as a head, or refused, without asking for more; for octets with which it
/// goes on waiting more would be asked for.
pub fn whole_heads_are_read()
    ensures whole { (octets : List ℕ) → asks (coming unscanned (Some octets)) ≡ true → IsMissing (LinesOf HeadLines) octets → ⊥ }
    ensures part { (octets : List ℕ) → asks (coming unscanned (Some octets)) ≡ false → is_never (coming unscanned (Some octets)) ≡ false
        → IsMissing (LinesOf HeadLines) octets }
{}

/// It is the same whether octets are looked through as they come or at once.
pub fn pieces_are_scanned_as_the_whole()
    ensures { (octets more : List ℕ) → scanned (octets ++ more) (scanned octets unscanned) ≡ scanned (octets ++ more) unscanned }
{}

/// A head has one limit.
pub fn heads_have_one_limit()
    ensures { front.MAX_HEAD_OCTETS ≡ service.MAX_HEAD_OCTETS }
{}
