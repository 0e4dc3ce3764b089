//! Proves that a value is read back from the tree that it is written as. `Part::reads_back`
//! (part.rt) proves it for one value, these functions for an `Option`, a `List` and a message.

ghost use Rattle.std.specs.Prelude.{map};
ghost use Rattle.mes_model_schema.specs.Rows.{ReturnsSome, ReturnsEach};

use crate::list::List;
use crate::part::Part;
use crate::row_ref_list::RowRefList;

/// Shows that the value in an `Option`, if any, is read back from its tree. Does not allocate.
pub fn some_reads_back<T: Part>(value: &Option<T>)
    ensures { ReturnsSome T.kind value.now }
{
    if let Some(value) = value {
        value.reads_back();
    }
}

/// Shows that each value of a list is read back from its tree. Does not allocate.
pub fn list_reads_back<T: Part>(values: &List<T>)
    ensures { ReturnsEach T.kind values.now }
{
    for value in values.as_slice() {
        value.reads_back();
    }
}

/// Shows that the value of each member of a message is read back from its tree. Does not allocate.
pub fn message_reads_back<R: RowRefList>(names: &[&str], rows: &R)
    ensures { (R.table (map (λ n. n.now) names.now) 0).Back (R.values rows.now) }
{
    rows.rows_read_back();
}
