//! Messages as JSON Lines: the line of a message is its canonical JSON and LF.

ghost use Rattle.std.specs.Prelude.{◌≡◌, ◌++◌, OnOk, IfOk, IfErr};
ghost use Rattle.mes_msg.specs.Texts.{canonical_of, Fits, IsRefusalOf, IsTextOf};
ghost use Rattle.mes_stream.specs.Sending.{IsUnsent, fault_at};
ghost use Rattle.mesosev_stream.specs.JsonLines.{IsLinesOf, json_line};
ghost use Rattle.mesosev_stream.specs.Messages.{shown_as};

use crate::message::ShownMessage;
use mes_frame::Limit;
use mes_msg::{EncodeFault, EncodeFaultKind, SendFault};
use mes_msg_record::canonical_into;
use std::alloc::Global;

/// Replaces `text` with the line of a message, and reuses its memory. The line has at most `limit`
/// bytes before its LF. After an error the contents of `text` are unspecified.
pub(crate) fn line_into<M: ShownMessage>(
    alloc: Global,
    message: &M,
    limit: Limit,
    text: &mut Vec<u8>,
) -> Result<(), EncodeFault>
    ensures ok { OnOk result (text.new.items ≡ json_line (shown_as M.kind M.word M.lines) message.now) }
    ensures good { OnOk result (Fits M.kind message.now limit) }
    ensures spells { OnOk result (IsTextOf M.kind (canonical_of M.kind message.now) message.now) }
    ensures err { IfErr result (IsRefusalOf M.kind message.now limit) }
{
    canonical_into(message, alloc, limit, text)?;
    match text.push(b'\n') {
        Ok(()) => Ok(()),
        Err(_) => Err(EncodeFault::NoMemory),
    }
}

/// Returns the lines of the messages. Errors: the first message that nests too deeply, or whose
/// JSON has more than `limit` bytes; or a failed allocation.
pub(crate) fn encode_lines<M: ShownMessage>(
    alloc: Global,
    messages: &[M],
    limit: Limit,
) -> Result<Vec<u8>, SendFault>
    ensures ok { IfOk result (λ body. IsLinesOf (shown_as M.kind M.word M.lines) limit messages.now body.items) }
    ensures err { IfErr result (IsUnsent M.kind limit messages.now) }
{
    let mut body = Vec::new(alloc);
    let mut text = Vec::new(alloc);
    for (index, message) in messages.iter().enumerate() {
        if let Err(fault) = put_line(alloc, message, limit, &mut text, &mut body) {
            return Err(refused_at(index, fault));
        }
    }
    Ok(body)
}

/// Appends the line of a message. `text` is a buffer that each message reuses.
fn put_line<M: ShownMessage>(
    alloc: Global,
    message: &M,
    limit: Limit,
    text: &mut Vec<u8>,
    body: &mut Vec<u8>,
) -> Result<(), EncodeFault>
    ensures ok { OnOk result (body.new.items ≡ body.old.items ++ json_line (shown_as M.kind M.word M.lines) message.now) }
    ensures good { OnOk result (Fits M.kind message.now limit) }
    ensures spells { OnOk result (IsTextOf M.kind (canonical_of M.kind message.now) message.now) }
    ensures err { IfErr result (IsRefusalOf M.kind message.now limit) }
{
    line_into(alloc, message, limit, text)?;
    match body.extend_from_slice(text.as_slice()) {
        Ok(()) => Ok(()),
        Err(_) => Err(EncodeFault::NoMemory),
    }
}

/// Returns the error for the message at this index.
pub(crate) fn refused_at(index: usize, fault: EncodeFault) -> SendFault
    ensures { result ≡ fault_at index fault }
{
    match fault {
        EncodeFault::TooDeep => SendFault::Encode {
            index,
            why: EncodeFaultKind::TooDeep,
        },
        EncodeFault::TooLarge => SendFault::Encode {
            index,
            why: EncodeFaultKind::TooLarge,
        },
        EncodeFault::NoMemory => SendFault::NoMemory,
    }
}
