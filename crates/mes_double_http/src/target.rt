//! A check that the first bytes of a request end inside its target (`/api/v1/scheduler`).

ghost use Rattle.std.specs.Prelude.{◌≡◌, ◌==◌, ◌<◌, ◌++◌, [], ◌∷◌, ℕ, List, length, position, IsTrue, ◌↔◌, IfSome, MatchOption};
ghost use Rattle.httparse.specs.Ascii.{space};
ghost use Rattle.httparse.specs.Grammar.{AllPass, is_uri_byte};
ghost use Rattle.mes_double_http.specs.Stops.{is_no_space, IsInTarget};

/// Returns whether the first space is followed by at least one byte, and only by bytes of a target.
pub(crate) fn ends_in_target(taken: &[u8]) -> bool
    ensures { IsTrue result ↔ IsInTarget taken.now }
{
    match after_space(taken) {
        Some(target) => is_target(target),
        None => false,
    }
}

/// Returns the bytes up to the first space, with the space.
pub(crate) fn through_space(taken: &[u8]) -> Option<&[u8]>
    ensures { MatchOption result
        (AllPass is_no_space taken.now)
        (λ start. (front : List ℕ) × (rest : List ℕ) × (start.now ≡ front ++ space ∷ [])
        × (taken.now ≡ front ++ space ∷ rest) × AllPass is_no_space front) }
{
    match space_in(taken) {
        Some(place) => Some(&taken[..place + 1]),
        None => None,
    }
}

fn after_space(taken: &[u8]) -> Option<&[u8]>
    ensures { MatchOption result
        (AllPass is_no_space taken.now)
        (λ rest. (front : List ℕ) × (taken.now ≡ front ++ space ∷ rest.now)
        × AllPass is_no_space front) }
{
    match space_in(taken) {
        Some(place) => Some(&taken[place + 1..]),
        None => None,
    }
}

fn space_in(taken: &[u8]) -> Option<usize>
    ensures place { result ≡ position (λ b. b == space) taken.now }
    ensures bound { IfSome result (λ place. place < length taken.now) }
{
    taken.iter().position(|byte| *byte == b' ')
}

fn is_target(target: &[u8]) -> bool
    ensures { IsTrue result ↔ ((0 < length target.now) × AllPass is_uri_byte target.now) }
{
    !target.is_empty() && target.iter().all(|byte| is_uri_byte(*byte))
}

/// Returns whether the byte is allowed in a target (RFC 9112 section 3.2), as `httparse` reads it.
fn is_uri_byte(byte: u8) -> bool
    ensures { result ≡ is_uri_byte byte }
{
    b' ' < byte && byte != 0x7f
}
