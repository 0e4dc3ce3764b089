//! Appends the texts of the members of a call, for `call.rt`.

ghost use Rattle.std.specs.Prelude.{[], ◌∷◌, codes, IfOk, OnOk};
ghost use Rattle.mes_model_schema.specs.Tree.Tree.{string};
ghost use Rattle.mes_model_schema.specs.Appended.{AppendsMembers};
ghost use Rattle.mes_model_schema.specs.Choices.{type_name};
ghost use Rattle.mes_model_schema.specs.Kinds.{Returns};
ghost use Rattle.mes_model_resource.specs.Ids.{id};
ghost use Rattle.mes_msg_call.specs.Calls.{call_rows};

use crate::call::Call;
use mes_model_resource::Id;
use mes_model_schema::json::NoMemory;
use mes_model_schema::{
    Part, deeper, write_case_text, write_optional_text, write_row_text, write_type_text,
};
use mes_msg_call_body::Subscribe;
use std::alloc::Global;

/// Appends the text of the members of a SUBSCRIBE, and returns the greatest nesting depth of their
/// values.
#[tactic(auto, using(mes_model_schema::proofs::AppendLemmas::both_members))]
pub(crate) fn append_subscribe(
    alloc: Global,
    framework_id: &Option<Id>,
    body: &Subscribe,
    out: &mut Vec<u8>,
) -> Result<u64, NoMemory>
    ensures members { IfOk result (λ deep. AppendsMembers out.old.items
        (call_rows.members (Call.Subscribe framework_id.now body.now)) out.new.items deep) }
    ensures back { OnOk result (call_rows.Back (Call.Subscribe framework_id.now body.now)) }
{
    let kind = write_type_text("SUBSCRIBE", out)?;
    let framework = write_optional_text(alloc, "framework_id", framework_id, out)?;
    let rest = write_row_text(alloc, "subscribe", body, out)?;
    Ok(deeper(deeper(kind, framework), rest))
}

/// Appends the text of the members `type` and `framework_id`.
#[tactic(auto, using(mes_model_schema::proofs::AppendLemmas::both_members))]
pub(crate) fn append_head(
    alloc: Global,
    kind: &str,
    framework_id: &Id,
    out: &mut Vec<u8>,
) -> Result<u64, NoMemory>
    ensures members { IfOk result (λ deep. AppendsMembers out.old.items
        ((type_name, string kind.now) ∷ (codes "framework_id", id.tree framework_id.now)
        ∷ []) out.new.items deep) }
    ensures back { OnOk result (Returns id framework_id.now) }
{
    write_case_text(alloc, kind, "framework_id", framework_id, out)
}

/// Appends the text of the members `type` and `framework_id`, and of the member `name` with the
/// body as its value.
#[tactic(auto, using(mes_model_schema::proofs::AppendLemmas::both_members))]
pub(crate) fn append_call<T: Part>(
    alloc: Global,
    kind: &str,
    framework_id: &Id,
    name: &str,
    body: &T,
    out: &mut Vec<u8>,
) -> Result<u64, NoMemory>
    ensures members { IfOk result (λ deep. AppendsMembers out.old.items
        ((type_name, string kind.now) ∷ (codes "framework_id", id.tree framework_id.now)
        ∷ (name.now, T.kind.tree body.now) ∷ []) out.new.items deep) }
    ensures framework { OnOk result (Returns id framework_id.now) }
    ensures back { OnOk result (Returns T.kind body.now) }
{
    let head = append_head(alloc, kind, framework_id, out)?;
    let rest = write_row_text(alloc, name, body, out)?;
    Ok(deeper(head, rest))
}

/// Shows that the framework id and a body are each read back from their tree. Does not allocate.
pub(crate) fn call_reads_back<T: Part>(framework_id: &Id, body: &T)
    ensures framework { Returns id framework_id.now }
    ensures back { Returns T.kind body.now }
{
    framework_id.reads_back();
    body.reads_back();
}
