//! Laws, stated as contracts of empty functions, about the fault that reading reports: for each
//! kind of row in a table of members, for consecutive rows, and for lists. Arbitrary rows are type
//! parameters of a law.

ghost use Rattle.std.specs.Prelude.{◌≡◌, ◌↔◌, ◌⊎◌, ℕ, codes, List};
ghost use Rattle.mes_json.specs.Tree.{Tree, Members};
ghost use Rattle.mes_json.specs.Tree.Tree.{object};
ghost use Rattle.mes_model_schema.specs.Paths.{Place};
ghost use Rattle.mes_model_schema.specs.Kinds.{Breaks};
ghost use Rattle.mes_model_schema.specs.Leaves.{texts, booleans, objects, left_out};
ghost use Rattle.mes_model_schema.specs.Numbers.{whole, signed32, fixed};
ghost use Rattle.mes_model_schema.specs.Binary.{base64_bytes};
ghost use Rattle.mes_model_schema.specs.Lists.{list_of};
ghost use Rattle.mes_model_schema.specs.Labels.{label, labels};
ghost use Rattle.mes_model_schema.specs.EitherLists.{either_list};
ghost use Rattle.mes_model_schema.specs.Rows.{Table, need, maybe, many, flag, no_rows, ◌⨾◌, mapped, message};
ghost use Rattle.mes_model_schema.specs.Choices.{Choice, type_name, no_other, others, case, typed};
ghost use Rattle.mes_model_schema.specs.Fields.{below};
ghost use Rattle.mes_model_schema.specs.FirstFaults.{no_values, no_values_exact, no_type, AreRead, IsExact, IsAt, IsString, IsBoolean, IsNumber, IsObject, OtherKind, ValueBreaks, RowsBreak, OptionalBreaks, NeedBreaks, JoinedBreak, MessageBreaks, ListBreaks, EitherListBreaks, ChoiceBreaks, TypedBreak, CaseBreaks};
ghost use Rattle.mes_model_schema.specs.FirstRows.{OfMessage, ListThen, NoRows};
ghost use Rattle.mes_model_schema.specs.declared.field.FieldFault.{FieldFault};
ghost use Rattle.mes_model_schema.specs.declared.field.FieldFaultKind.{FieldFaultKind};
ghost use Rattle.mes_model_schema.specs.declared.field.FieldFaultKind.TheVariants.{BadBase64, NumberRange, LeftOut};

use crate::part::Part;
use std::marker::Brand;

/// Arbitrary rows of a table, with values of type `F`.
pub trait AnyRows<F> {
    ghost table: { Table F };

    ghost exact: { IsExact table };
}

/// Arbitrary rows for each value of the member `type`, with values of type `F`.
pub trait AnyChoice<F> {
    ghost choice: { Choice F };
}

impl<F> AnyRows<F> for Brand {
    ghost table = { no_values };

    ghost exact = { no_values_exact };
}

impl<F> AnyChoice<F> for Brand {
    ghost choice = { no_type };
}

/// A string, boolean or retained object has only one fault: the value has another JSON type.
pub fn kind_breaks()
    ensures text { (at : List Place) (t : Tree) (f : FieldFault)
        → Breaks texts at t f ↔ OtherKind (IsString t) at f }
    ensures truth { (at : List Place) (t : Tree) (f : FieldFault)
        → Breaks booleans at t f ↔ OtherKind (IsBoolean t) at f }
    ensures object { (at : List Place) (t : Tree) (f : FieldFault)
        → Breaks objects at t f ↔ OtherKind (IsObject t) at f }
{}

/// A number or bytes field has two faults: the value has another JSON type, or it is a number out
/// of range or invalid base64.
pub fn value_breaks()
    ensures whole { (at : List Place) (t : Tree) (f : FieldFault)
        → Breaks whole at t f ↔ ValueBreaks IsNumber NumberRange whole at t f }
    ensures signed { (at : List Place) (t : Tree) (f : FieldFault)
        → Breaks signed32 at t f ↔ ValueBreaks IsNumber NumberRange signed32 at t f }
    // The fault of a decimal number is another JSON type, or a number out of range.
    ensures units { (places : ℕ) (at : List Place) (t : Tree) (f : FieldFault)
        → Breaks (fixed places) at t f ↔ ValueBreaks IsNumber NumberRange (fixed places) at t f }
    ensures bytes { (at : List Place) (t : Tree) (f : FieldFault)
        → Breaks base64_bytes at t f ↔ ValueBreaks IsString BadBase64 base64_bytes at t f }
{}

/// A required member has a fault if it occurs twice, is missing, or its value has a fault.
pub fn needed_row_breaks<T: Part>()
    ensures { (n : List ℕ) (at : List Place) (ms : Members) (f : FieldFault)
        → RowsBreak (need n T.kind) at ms f ↔ NeedBreaks T.kind n at ms f }
{}

/// An optional member has a fault if it occurs twice or its value has a fault.
pub fn optional_row_breaks<T: Part>()
    ensures { (n : List ℕ) (at : List Place) (ms : Members) (f : FieldFault)
        → RowsBreak (maybe n T.kind) at ms f ↔ OptionalBreaks T.kind n at ms f }
{}

/// The member of a list, which may be absent, has a fault if it occurs twice or its list has one.
pub fn list_row_breaks<T: Part>()
    ensures { (n : List ℕ) (at : List Place) (ms : Members) (f : FieldFault)
        → RowsBreak (many n T.kind) at ms f ↔ OptionalBreaks (list_of T.kind) n at ms f }
{}

/// A flag has a fault if its member occurs twice or is not an object.
pub fn flag_row_breaks()
    ensures { (n : List ℕ) (at : List Place) (ms : Members) (f : FieldFault)
        → RowsBreak (flag n) at ms f ↔ OptionalBreaks objects n at ms f }
{}

/// An unsupported member has a fault if it occurs twice, or once with any value but `null`.
pub fn left_out_row_breaks()
    ensures row { (n : List ℕ) (at : List Place) (ms : Members) (f : FieldFault)
        → RowsBreak (maybe n left_out) at ms f ↔ OptionalBreaks left_out n at ms f }
    ensures value { (at : List Place) (t : Tree) (f : FieldFault)
        → Breaks left_out at t f ↔ IsAt at LeftOut f }
{}

/// The first fault of the rows `R` followed by the rows `S` is the first fault of `R`. If `R` has
/// no fault, it is the first fault of `S`.
pub fn joined_rows_break<F, G, R: AnyRows<F>, S: AnyRows<G>>()
    ensures both { (at : List Place) (ms : Members) (f : FieldFault)
        → RowsBreak (R.table ⨾ S.table) at ms f ↔ JoinedBreak R.table S.table at ms f }
    ensures none { (at : List Place) (ms : Members) (f : FieldFault) → RowsBreak no_rows at ms f
        → ⊥ }
{}

/// Rows whose values are converted to another type have the same faults as the rows themselves.
pub fn made_rows_break<F, G, R: AnyRows<F>>()
    // For any conversions `to` and `from` of the values, the faults are the same.
    ensures { (to : F → G) (from : G → F) (at : List Place) (ms : Members) (f : FieldFault)
        → RowsBreak (mapped R.table to from) at ms f ↔ RowsBreak R.table at ms f }
{}

/// A message has a fault if it is not an object, or the members in its table have a fault.
pub fn message_breaks<F, R: AnyRows<F>>()
    ensures { (at : List Place) (t : Tree) (f : FieldFault)
        → Breaks (message R.table) at t f ↔ MessageBreaks R.table at t f }
{}

/// A list has a fault if it is not an array, or an item has a fault. The first invalid item is
/// reported.
pub fn list_breaks<T: Part>()
    ensures { (at : List Place) (t : Tree) (f : FieldFault)
        → Breaks (list_of T.kind) at t f ↔ ListBreaks T.kind at t f }
{}

/// A list in either form has the fault of the array, or of the object with the array as a member.
pub fn either_list_breaks<T: Part>()
    ensures { (n : List ℕ) (at : List Place) (t : Tree) (f : FieldFault)
        → Breaks (either_list n T.kind) at t f ↔ EitherListBreaks n T.kind at t f }
{}

/// A typed value has a fault if its member `type` has one, or the members of that type have one.
pub fn typed_rows_break<F, C: AnyChoice<F>>()
    ensures { (at : List Place) (ms : Members) (f : FieldFault)
        → RowsBreak (typed C.choice) at ms f ↔ TypedBreak C.choice at ms f }
{}

/// The type selects the rows whose fault is reported. An unknown type is itself a fault, or has
/// none, as the message defines.
pub fn case_breaks<F, G, R: AnyRows<F>, C: AnyChoice<G>>()
    // If the type is `this`, the fault is that of its rows; else it is that of the other types.
    ensures of { (this : List ℕ) (at : List Place) (kind : List ℕ) (ms : Members) (f : FieldFault)
        → ChoiceBreaks (case this R.table C.choice) at kind ms f
        ↔ CaseBreaks this R.table C.choice at kind ms f }
    // If no other type is known, another type is a fault of the member `type`, for reason `why`.
    ensures unknown { (why : FieldFaultKind) (at : List Place) (kind : List ℕ) (ms : Members)
        (f : FieldFault)
        → ChoiceBreaks (no_other why) at kind ms f ↔ IsAt (below at type_name) why f }
    // If other types are retained by name, another type has no fault.
    ensures kept { (known : List (List ℕ)) (at : List Place) (kind : List ℕ) (ms : Members)
        (f : FieldFault)
        → ChoiceBreaks (others known) at kind ms f → ⊥ }
{}

/// A label has a fault if it is not an object, or the member `key` or `value` has a fault. A fault
/// of `key` is reported first.
pub fn label_breaks()
    // `key` occurs twice, is missing or is no string, or `value` occurs twice or is no string.
    ensures { (at : List Place) (t : Tree) (f : FieldFault)
        → Breaks label at t f ↔ (OtherKind (IsObject t) at f
        ⊎ ((ms : Members) × (t ≡ object ms) × (NeedBreaks texts (codes "key") at ms f
        ⊎ (AreRead (need (codes "key") texts) ms
        × OptionalBreaks texts (codes "value") at ms f)))) }
{}

/// Labels have a fault if they are not an object, `labels` occurs twice, or its list has a fault.
pub fn labels_break()
    ensures { (at : List Place) (t : Tree) (f : FieldFault)
        → Breaks labels at t f ↔ OfMessage (ListThen (codes "labels") label NoRows) at t f }
{}
