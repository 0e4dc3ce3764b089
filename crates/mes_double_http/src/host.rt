//! The host to which a client sends its calls.

ghost use Rattle.std.specs.Prelude.{◌≡◌, ◌↔◌, All, IsTrue, IsSome, IfSome};
ghost use Rattle.mes_double_http.specs.StreamIds.{IsVisible};
ghost use Rattle.mes_double_http.specs.Hosts.{IsHost};

use crate::limits::MAX_HOST;
use arrayvec::ArrayString;
use std::marker::Model;

/// A host with its port, such as `127.0.0.1:5050`: the value of the field `Host` (RFC 9110 section
/// 7.2). It has 1 to `MAX_HOST` visible ASCII characters. In contracts its value is its bytes.
#[derive(Drop)]
pub struct Host {
    text: ArrayString<MAX_HOST>,
}

impl Model for Host {
    ghost use Rattle.std.specs.Prelude.{ℕ, List};
    ghost use Rattle.mes_double_http.specs.Hosts.{IsHost};

    ghost Value = { List ℕ };

    ghost view = { λ host. host.text.bytes };

    ghost invariant = { λ host. IsHost host.text.bytes };
}

impl Host {
    /// Returns the host, or `None` if the text is not valid.
    pub fn new(text: &str) -> Option<Host>
        ensures some { IfSome result (λ host. host ≡ text.now) }
        ensures variant { IsSome result ↔ IsHost text.now }
    {
        if 1 <= text.len() && text.len() <= MAX_HOST && is_visible(text.as_bytes()) {
            Some(Host::of_text(text))
        } else {
            None
        }
    }

    fn of_text(host: &str) -> Host
        requires { IsHost host.now }
        ensures { result ≡ host.now }
    {
        let mut text = ArrayString::new();
        text.push_str(host);
        Host { text }
    }

    /// Returns the host as a text.
    pub fn as_str(&self) -> &str
        ensures text { result.now ≡ self.now }
        ensures form { IsHost self.now }
    {
        self.text.as_str()
    }
}

/// Returns whether all bytes are visible ASCII characters.
fn is_visible(bytes: &[u8]) -> bool
    ensures { IsTrue result ↔ All IsVisible bytes.now }
{
    bytes.iter().all(|byte| byte.is_ascii_graphic())
}
