//! The law, stated as the contract of an empty function, that bytes have exactly one value or
//! exactly one fault.

ghost use Rattle.std.specs.Prelude.{◌≡◌, ◌≢◌, ◌⊎◌, ℕ, List};
ghost use Rattle.mes_msg_record.specs.Texts.{IsTextOf, IsFaultOf};
ghost use Rattle.mes_msg_record.specs.declared.record.RecordFault.{RecordFault as Fault};

use mes_model_schema::Part;
use mes_model_schema::json::text_reading_is_unique;
use mes_msg_record::RecordFault;

/// Proves that any bytes either are a JSON text of exactly one value of `T`, or have exactly one
/// fault. `NoMemory` does not count as a fault of the bytes.
pub fn message_reading_is_unique<T: Part>()
    // Any bytes have a value or a fault.
    ensures some { (b : List ℕ) → ((v : T) × IsTextOf T.kind b v)
        ⊎ ((why : Fault) × (why ≢ RecordFault.NoMemory) × IsFaultOf T.kind b why) }
    ensures value { (b : List ℕ) (v w : T) → IsTextOf T.kind b v → IsTextOf T.kind b w → v ≡ w }
    // Any bytes have at most one fault.
    ensures why { (b : List ℕ) (f g : Fault) → f ≢ RecordFault.NoMemory → g ≢ RecordFault.NoMemory
        → IsFaultOf T.kind b f → IsFaultOf T.kind b g → f ≡ g }
    // No bytes have both a value and a fault.
    ensures apart { (b : List ℕ) (v : T) (f : Fault) → f ≢ RecordFault.NoMemory
        → IsTextOf T.kind b v → IsFaultOf T.kind b f → ⊥ }
{
    text_reading_is_unique();
}
