//! Encodes events, or calls, as records of plain RecordIO. `send.rt` writes them.

ghost use Rattle.std.specs.Prelude.{◌≡◌, ◌++◌, map, OnOk, IfOk, IfErr};
ghost use Rattle.mes_frame.specs.Frames.{record_bytes};
ghost use Rattle.mes_frame.specs.Record.{IsRecord};
ghost use Rattle.mes_msg.specs.Texts.{canonical_of, Fits, IsRefusalOf, IsTextOf};
ghost use Rattle.mes_stream.specs.Sending.{IsPlainOf, IsUnsent, fault_at};

use itoa::Buffer;
use mes_frame::Limit;
use mes_json::NoMemory;
use mes_model_schema::Part;
use mes_msg::{EncodeFault, EncodeFaultKind, SendFault};
use mes_msg_record::canonical_into;
use std::alloc::Global;

/// Encodes messages as consecutive records of their canonical JSON. Errors: the first message that
/// nests too deeply, or whose JSON has more than `limit` bytes; or a failed allocation.
pub fn encode_all<M: Part>(
    alloc: Global,
    messages: &[M],
    limit: Limit,
) -> Result<Vec<u8>, SendFault>
    ensures ok { IfOk result (λ body. IsPlainOf M.kind limit messages.now body.items) }
    ensures err { IfErr result (IsUnsent M.kind limit messages.now) }
{
    match message_refs(alloc, messages) {
        Ok(refs) => encode_each(alloc, refs.as_slice(), limit),
        Err(_) => Err(SendFault::NoMemory),
    }
}

/// Returns a reference to each message.
pub fn message_refs<M>(alloc: Global, messages: &[M]) -> Result<Vec<&M>, NoMemory>
    ensures { IfOk result (λ refs. map (λ message. message.now) refs.items ≡ messages.now) }
{
    let mut refs = Vec::with_capacity(alloc, messages.len())?;
    for message in messages {
        refs.push(message)?;
    }
    Ok(refs)
}

/// Like [`encode_all`], for messages that are not adjacent in memory.
pub fn encode_each<M: Part>(
    alloc: Global,
    messages: &[&M],
    limit: Limit,
) -> Result<Vec<u8>, SendFault>
    // On success: the records of the messages, in order.
    ensures ok { IfOk result (λ body. IsPlainOf M.kind limit (map (λ message. message.now)
        messages.now) body.items) }
    ensures err { IfErr result (IsUnsent M.kind limit (map (λ message. message.now)
        messages.now)) }
{
    let mut body = Vec::new(alloc);
    let mut text = Vec::new(alloc);
    for (index, message) in messages.iter().enumerate() {
        if let Err(fault) = put_message::<M>(alloc, message, limit, &mut text, &mut body) {
            return Err(refused_at(index, fault));
        }
    }
    Ok(body)
}

/// Appends the record of a message's canonical JSON. `text` is a buffer that each message reuses.
fn put_message<M: Part>(
    alloc: Global,
    message: &M,
    limit: Limit,
    text: &mut Vec<u8>,
    body: &mut Vec<u8>,
) -> Result<(), EncodeFault>
    ensures ok { OnOk result (body.new.items
        ≡ body.old.items ++ record_bytes (canonical_of M.kind message.now)) }
    ensures good { OnOk result (Fits M.kind message.now limit) }
    ensures read { OnOk result (IsRecord (record_bytes (canonical_of M.kind message.now))
        (canonical_of M.kind message.now) limit) }
    ensures spells { OnOk result (IsTextOf M.kind (canonical_of M.kind message.now) message.now) }
    ensures err { IfErr result (IsRefusalOf M.kind message.now limit) }
{
    canonical_into(message, alloc, limit, text)?;
    put_record(text.as_slice(), body)?;
    Ok(())
}

/// Appends a record with this data.
fn put_record(payload: &[u8], body: &mut Vec<u8>) -> Result<(), NoMemory>
    ensures { OnOk result (body.new.items ≡ body.old.items ++ record_bytes payload.now) }
{
    body.extend_from_slice(Buffer::new().format(payload.len() as u64).as_bytes())?;
    body.extend_from_slice(b"\n")?;
    body.extend_from_slice(payload)?;
    Ok(())
}

/// Returns the error for the message at this index.
fn refused_at(index: usize, fault: EncodeFault) -> SendFault
    ensures { result ≡ fault_at index fault }
{
    match fault {
        EncodeFault::TooDeep => SendFault::Encode {
            index,
            why: EncodeFaultKind::TooDeep,
        },
        EncodeFault::TooLarge => SendFault::Encode {
            index,
            why: EncodeFaultKind::TooLarge,
        },
        EncodeFault::NoMemory => SendFault::NoMemory,
    }
}
