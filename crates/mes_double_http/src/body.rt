//! Reading of a request's body with a known length.

ghost use Rattle.std.specs.Prelude.{◌≡◌, ◌++◌, ◌<◌, ◌≤◌, ℕ, List, length, MatchResult};
ghost use Rattle.std.specs.Io.KnownBytes.{Consumes};
ghost use Rattle.mes_double_http.specs.Endings.{AllGive};
ghost use Rattle.mes_double_http.specs.Bodies.{StopsBody, StopsPart};

use crate::fault::HeadFault;
use crate::limits::MAX_BODY_READ;
use mes_frame::Source;
use std::alloc::Global;

/// Reads a body of `size` bytes.
pub(crate) fn take_body<S: Source>(
    alloc: Global,
    reader: &mut S,
    size: usize,
) -> Result<Vec<u8>, HeadFault>
    ensures { (taken : List ℕ) × Consumes (S.device reader.old).bytes (S.device reader.new).bytes taken
        × MatchResult result
        (λ body. (body.items ≡ taken) × (length taken ≡ size)
        × AllGive (S.device reader.old).counts (S.device reader.new).counts)
        (λ f. StopsBody size f taken (S.device reader.old).counts (S.device reader.new).counts) }
{
    let mut body = Vec::new(alloc);
    while body.len() < size {
        let left = size - body.len();
        if let Err(fault) = take_part(reader, left, &mut body) {
            return Err(fault);
        }
    }
    Ok(body)
}

/// Reads at most `left` bytes with one call of the reader, and appends them to `body`.
fn take_part<S: Source>(reader: &mut S, left: usize, body: &mut Vec<u8>) -> Result<(), HeadFault>
    requires { 0 < left }
    ensures { (part : List ℕ) × Consumes (S.device reader.old).bytes (S.device reader.new).bytes part
        × MatchResult result
        (λ _. (body.new.items ≡ body.old.items ++ part) × (0 < length part) × (length part ≤ left)
        × AllGive (S.device reader.old).counts (S.device reader.new).counts)
        (λ f. StopsPart left f part (S.device reader.old).counts (S.device reader.new).counts) }
{
    let mut buffer = [0; MAX_BODY_READ];
    let room = left.min(MAX_BODY_READ);
    let part = &mut buffer[..room];
    let count = match reader.fetch(part) {
        Ok(0) => return Err(HeadFault::ShortBody),
        Ok(count) => count,
        Err(_) => return Err(HeadFault::Read),
    };
    match body.extend_from_slice(&part[..count]) {
        Ok(()) => Ok(()),
        Err(_) => Err(HeadFault::NoMemory),
    }
}
