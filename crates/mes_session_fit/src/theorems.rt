//! Theorems about the definitions that the contracts use, stated as the contract of an empty
//! function.
ghost use Rattle.std.specs.Prelude.{◌≡◌, ◌↔◌, ℕ, List, true};
ghost use Rattle.std.specs.List.Sorted.{IsPermutation};
ghost use Rattle.mes_model.specs.Offer.{Offer};
ghost use Rattle.mes_model.specs.TaskInfo.{TaskInfo};
ghost use Rattle.mes_session_fit.specs.Keys.{Key, keys_agree};
ghost use Rattle.mes_session_fit.specs.Fits.{Fits, BreaksAt, IsFirstBreach};

/// Proves that tasks fit their offers if and only if each of their resources fits. Also proves that
/// at most one resource is the first that does not fit, and that the order of the offers does not
/// matter.
pub fn fits_laws()
    // Tasks fit if and only if each of their resources fits.
    ensures breach { (offers : List Offer) (tasks : List TaskInfo)
        → Fits offers tasks ↔ ((i j : ℕ) → BreaksAt offers tasks i j → ⊥) }
    // At most one resource is the first that does not fit.
    ensures one { (offers : List Offer) (tasks : List TaskInfo) (i j k l : ℕ)
        → IsFirstBreach offers tasks i j → IsFirstBreach offers tasks k l → (i ≡ k) × (j ≡ l) }
    // Whether tasks fit does not depend on the order of the offers.
    ensures order { (offers others : List Offer) (tasks : List TaskInfo)
        → IsPermutation offers others → Fits offers tasks → Fits others tasks }
    ensures keys { (j k : Key) → keys_agree j k ≡ true ↔ j ≡ k }
{}
