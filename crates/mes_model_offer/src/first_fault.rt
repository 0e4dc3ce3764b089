//! The laws, stated as contracts of empty functions, that list the faults of attributes and offers
//! in order.

ghost use Rattle.std.specs.Prelude.{◌↔◌, List};
ghost use Rattle.mes_model_schema.specs.Tree.{Tree};
ghost use Rattle.mes_model_schema.specs.Paths.{Place};
ghost use Rattle.mes_model_schema.specs.Kinds.{Breaks};
ghost use Rattle.mes_model_schema.specs.FirstRows.{OfMessage};
ghost use Rattle.mes_model_schema.specs.declared.field.FieldFault.{FieldFault};
ghost use Rattle.mes_model_offer.specs.Attributes.{attribute};
ghost use Rattle.mes_model_offer.specs.FirstFaults.{OfAttribute, OfOffer};
ghost use Rattle.mes_model_offer.specs.Offers.{offer};

/// An attribute has a fault if it is not an object, or a member in its table has a fault. The fault
/// of the first such member is reported.
pub fn attribute_breaks()
    ensures { (at : List Place) (t : Tree) (f : FieldFault)
        → Breaks attribute at t f ↔ OfMessage OfAttribute at t f }
{}

/// An offer has a fault if it is not an object, or a member in its table has a fault. The fault of
/// the first such member is reported.
pub fn offer_breaks()
    ensures { (at : List Place) (t : Tree) (f : FieldFault)
        → Breaks offer at t f ↔ OfMessage OfOffer at t f }
{}
