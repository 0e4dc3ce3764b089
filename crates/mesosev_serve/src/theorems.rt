//! Laws of a served connection. The function does nothing; its contract states the laws.
ghost use Rattle.std.specs.Prelude.{◌≡◌, ◌∷◌, ◌++◌, ℕ, true, List, Option as option, IsSome};
ghost use Rattle.mes_model.specs.Id.{Id};
ghost use Rattle.mes_msg.specs.Call.{Call};
ghost use Rattle.mes_msg.specs.Event.{Event};
ghost use Rattle.mes_double_master.specs.Masters.{MasterState, is_subscribe, handled};
ghost use Rattle.mesosev_serve.specs.OneStream.{IsOneStream, rescind_of};
ghost use Rattle.mesosev_serve.specs.Opening.{and_all_given, opening};

/// Proves the laws of a served connection.
///
/// - A master responds with status 200 only to SUBSCRIBE, and then has a current stream.
/// - The stream has SUBSCRIBED and then some of the given events, in order, each at most once.
/// - No offer of the stream was made before.
/// - A RESCIND names an offer of the stream, and no offer is named by two (`IsOneStream`).
pub fn serve_laws()
    // After status 200 the master has a current stream.
    ensures stream { (m : MasterState) (call : Call) (given : option (List ℕ))
        → (handled m call given).status ≡ 200
        → IsSome (handled m call given).master.stream }
    // Only SUBSCRIBE has status 200; its stream meets `IsOneStream`.
    ensures opens { (m : MasterState) (call : Call) (stream : option (List ℕ)) (given : List Event)
        → (handled m call stream).status ≡ 200
        → (is_subscribe call ≡ true) × IsOneStream m given
        (and_all_given (opening (handled m call stream)) given).events }
    // No RESCIND is sent twice.
    ensures once { (m : MasterState) (given front between back : List Event) (id : Id)
        → IsOneStream m given (front ++ (rescind_of id ∷ (between ++ (rescind_of id ∷ back)))) → ⊥ }
{}
