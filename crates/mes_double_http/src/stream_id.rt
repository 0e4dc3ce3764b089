//! The id of an event stream. The master chooses the id, and the calls of a client name it.

ghost use Rattle.std.specs.Prelude.{◌≡◌, ◌≤◌, ◌↔◌, length, All, IsTrue, IsSome, IfSome};
ghost use Rattle.uuid.specs.Text.{hyphenated_text, lower};
ghost use Rattle.mes_double_http.specs.StreamIds.{IsVisible, IsStreamId};

use crate::limits::MAX_STREAM_ID;
use arrayvec::ArrayString;
use std::marker::Model;
use uuid::Uuid;

/// The value of the field `Mesos-Stream-Id`: 1 to `MAX_STREAM_ID` visible ASCII characters. In
/// contracts its value is its bytes.
#[derive(Debug, Drop)]
pub struct StreamId {
    text: ArrayString<MAX_STREAM_ID>,
}

impl Model for StreamId {
    ghost use Rattle.std.specs.Prelude.{ℕ, List};
    ghost use Rattle.mes_double_http.specs.StreamIds.{IsStreamId};

    ghost Value = { List ℕ };

    ghost view = { λ id. id.text.bytes };

    ghost invariant = { λ id. IsStreamId id.text.bytes };
}

impl StreamId {
    /// Returns the id, or `None` if the text is not valid.
    pub fn new(text: &str) -> Option<StreamId>
        ensures some { IfSome result (λ id. id ≡ text.now) }
        ensures variant { IsSome result ↔ IsStreamId text.now }
    {
        if 1 <= text.len() && text.len() <= MAX_STREAM_ID && is_visible(text.as_bytes()) {
            Some(StreamId::of_text(text))
        } else {
            None
        }
    }

    /// Returns the id, or `None` if the bytes are not valid.
    pub(crate) fn of_bytes(bytes: &[u8]) -> Option<StreamId>
        ensures some { IfSome result (λ id. id ≡ bytes.now) }
        ensures variant { IsSome result ↔ IsStreamId bytes.now }
    {
        match str::from_utf8(bytes) {
            Ok(text) => StreamId::new(text),
            Err(_) => None,
        }
    }

    /// Returns the id that is the hyphenated lower-case form of a UUID.
    pub fn of_uuid(uuid: Uuid) -> StreamId
        ensures { result ≡ hyphenated_text lower uuid }
    {
        let mut buffer = Uuid::encode_buffer();
        StreamId::of_text(uuid.hyphenated().encode_lower(&mut buffer))
    }

    fn of_text(id: &str) -> StreamId
        requires { IsStreamId id.now }
        ensures { result ≡ id.now }
    {
        let mut text = ArrayString::new();
        text.push_str(id);
        StreamId { text }
    }

    /// Returns the id as a text.
    pub fn as_str(&self) -> &str
        ensures text { result.now ≡ self.now }
        ensures form { IsStreamId self.now }
    {
        self.text.as_str()
    }

    /// Returns a copy of the id.
    pub fn copy(&self) -> StreamId
        ensures { result ≡ self.now }
    {
        StreamId::of_text(self.as_str())
    }
}

/// Returns whether all bytes are visible ASCII characters.
fn is_visible(bytes: &[u8]) -> bool
    ensures { IsTrue result ↔ All IsVisible bytes.now }
{
    bytes.iter().all(|byte| byte.is_ascii_graphic())
}
