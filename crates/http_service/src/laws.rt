//! Laws of heads and bodies, as clauses of functions that do nothing. A caller has a law by calling its function.
ghost use Rattle.std.specs.Prelude.{◌≡◌, ◌≤◌, ◌⊎◌, ◌++◌, ℕ, List, length};
ghost use Rattle.http_service.specs.declared.head.Head.{Head};
ghost use Rattle.http_service.specs.declared.error.HttpError.{HttpError};
ghost use Rattle.http_service.specs.declared.lines.TheConstants.{MAX_HEAD_OCTETS};
ghost use Rattle.http_service.specs.Heads.{IsHeadText, IsIncomplete, IsMalformed};
ghost use Rattle.http_service.specs.ReadHead.{HeadStops};
ghost use Rattle.http_service.specs.Chunked.{IsChunked};
ghost use Rattle.http_service.specs.Taking.{Breaks};
ghost use Rattle.http_service.specs.ReadChunked.{ChunksStop};
ghost use Rattle.std.specs.List.{flat_map};
ghost use Rattle.gate_world.specs.Octets.{client_gave_in};
ghost use Rattle.gate_world.specs.declared.event.Event.{Event};

/// Octets begin with at most one head, which says one thing.
pub fn one_head()
    ensures { (text other rest more : List ℕ) (h k : Head)
        → IsHeadText text h → IsHeadText other k → text ++ rest ≡ other ++ more → (text ≡ other) × (h ≡ k) }
{}

/// Octets that begin with a head fit no refusal that is about the octets.
pub fn head_excludes_refusals()
    ensures { (text rest : List ℕ) (head : Head) (e : HttpError)
        → IsHeadText text head → length text ≤ MAX_HEAD_OCTETS → HeadStops (text ++ rest) e
        → (e ≡ HttpError.FrontFault) ⊎ (e ≡ HttpError.Memory) }
{}

/// No octets are malformed and incomplete: they are refused at once, or waited for.
pub fn malformed_excludes_incomplete()
    ensures { (octets : List ℕ) → IsMalformed octets → IsIncomplete octets → ⊥ }
{}

/// Where the octets that stood there and those that the client gave begin with a chunked body within the limit, none of the
/// refusals that are about the octets fits.
pub fn chunked_body_excludes_refusals()
    ensures { (limit : ℕ) (body text rest before after : List ℕ) (e : HttpError) (events : List Event)
        → IsChunked body text → length body ≤ limit → before ++ flat_map client_gave_in events ≡ text ++ rest
        → Breaks (ChunksStop limit) before after e events → (e ≡ HttpError.FrontFault) ⊎ (e ≡ HttpError.Memory) }
{}

/// Octets begin with at most one chunked body.
pub fn one_chunked_body()
    ensures { (text other rest more body content : List ℕ)
        → IsChunked body text → IsChunked content other → text ++ rest ≡ other ++ more → (text ≡ other) × (body ≡ content) }
{}
