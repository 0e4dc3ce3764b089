//! The states within a literal.
ghost use Rattle.std.specs.Prelude.{◌≡◌, List, option_map};
ghost use Rattle.mes_json.specs.Machine.{Frame, on_token};
ghost use Rattle.mes_json.specs.Machine.State.{state};
ghost use Rattle.mes_json.specs.Reader.{word_view, said_view};

/// The part of `null`, `true` or `false` that has been read (RFC 8259 section 3).
#[derive(Clone, Copy)]
pub(crate) enum LiteralState {
    N,
    Nu,
    Nul,
    T,
    Tr,
    Tru,
    F,
    Fa,
    Fal,
    Fals,
}

/// The effect of a byte in a literal.
#[derive(Clone, Copy)]
pub(crate) enum LiteralStep {
    More(LiteralState),
    Null,
    Bool(bool),
}

impl LiteralState {
    /// Returns the effect of `byte`, or `None` if the literal continues with another byte.
    pub(crate) fn next(self, byte: u8) -> Option<LiteralStep>
        ensures { (fs : List Frame) → on_token fs (word_view self) byte
            ≡ option_map (λ said. state fs (said_view said)) result }
    {
        match (self, byte) {
            (LiteralState::N, b'u') => Some(LiteralStep::More(LiteralState::Nu)),
            (LiteralState::Nu, b'l') => Some(LiteralStep::More(LiteralState::Nul)),
            (LiteralState::Nul, b'l') => Some(LiteralStep::Null),
            (LiteralState::T, b'r') => Some(LiteralStep::More(LiteralState::Tr)),
            (LiteralState::Tr, b'u') => Some(LiteralStep::More(LiteralState::Tru)),
            (LiteralState::Tru, b'e') => Some(LiteralStep::Bool(true)),
            (LiteralState::F, b'a') => Some(LiteralStep::More(LiteralState::Fa)),
            (LiteralState::Fa, b'l') => Some(LiteralStep::More(LiteralState::Fal)),
            (LiteralState::Fal, b's') => Some(LiteralStep::More(LiteralState::Fals)),
            (LiteralState::Fals, b'e') => Some(LiteralStep::Bool(false)),
            _ => None,
        }
    }
}
