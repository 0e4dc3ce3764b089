//! The body of an OFFERS event, in the object form or as the array alone.
ghost use Rattle.std.specs.Prelude.{◌≡◌, IfOk, OnOk};
ghost use Rattle.mes_model_schema.specs.View.{view};
ghost use Rattle.mes_model_schema.specs.Appended.{Appends};
ghost use Rattle.mes_model_schema.specs.Kinds.{Returns};
ghost use Rattle.mes_msg_event_body.specs.Offers.{offers};

use mes_model_offer::Offer;
use mes_model_schema::back::list_reads_back;
use mes_model_schema::json::{self, Element, NoMemory};
use mes_model_schema::{
    List, Part, PartFault, PathBuilder, close_object, copy_list, push_repeated_tree,
    read_either_list, whole_object, write_repeated_text,
};
use std::alloc::Global;
use std::marker::Model;

/// The body of OFFERS (`Event.Offers`): an object with the array as the member `offers`, or the
/// array alone. In contracts its value is the list of offers.
#[derive(Debug, Drop)]
pub struct Offers {
    offers: List<Offer>,
}

impl Model for Offers {
    ghost use Rattle.std.specs.Prelude.{List as list};
    ghost use Rattle.mes_model_offer.specs.declared.offer.Offer.{Offer as OfferValue};
    ghost use Rattle.mes_model_schema.specs.contracts.kept.Kept as kept;
    ghost use Rattle.std.specs.Coded.{codes};

    ghost Value = { list OfferValue };

    ghost coded = { Prim.hlevel (codes, kept.the_row.coded) };

    ghost view = { λ body. body.offers };
}

impl Offers {
    /// Returns the offers.
    pub fn into_list(self) -> List<Offer>
        ensures { result ≡ self }
    {
        self.offers
    }
}

impl Part for Offers {
    ghost use Rattle.mes_msg_event_body.specs.Offers.{offers, lawful_offers};

    ghost kind = { offers };

    ghost STEPS = { 10 };

    const STEPS: u32 = 10;

    ghost lawful = { lawful_offers };

    #[tactic(auto, unfolding(crate::specs::Offers::offers))]
    fn read_from(
        alloc: Global,
        element: &Element<'_>,
        path: &PathBuilder<'_>,
    ) -> Result<Offers, PartFault> {
        let offers = read_either_list(alloc, element, "offers", path)?;
        Ok(Offers { offers })
    }

    fn tree(&self, alloc: Global) -> Result<json::Json, NoMemory> {
        offers_tree(alloc, &self.offers)
    }

    fn write_json(&self, alloc: Global, out: &mut Vec<u8>) -> Result<u64, NoMemory> {
        offers_text(alloc, &self.offers, out)
    }

    fn copy(&self, alloc: Global) -> Result<Offers, NoMemory> {
        let offers = copy_list(alloc, &self.offers)?;
        Ok(Offers { offers })
    }

    fn reads_back(&self) {
        offers_read_back(&self.offers);
    }
}

/// Returns the JSON tree of the body of OFFERS, in the object form.
#[tactic(auto, using(crate::specs::Offers::offers_back), unfolding(crate::specs::Offers::offers))]
pub fn offers_tree(alloc: Global, list: &List<Offer>) -> Result<json::Json, NoMemory>
    ensures tree { IfOk result (λ t. view t ≡ offers.tree list.now) }
    // On success: the tree is read back as the same offers.
    ensures back { OnOk result (Returns offers list.now) }
{
    let mut members = Vec::new(alloc);
    push_repeated_tree(&mut members, alloc, "offers", list)?;
    Ok(whole_object(members))
}

/// Appends the text of the body of OFFERS, in the object form, and returns its nesting depth.
#[tactic(auto, using(crate::specs::Offers::offers_back), unfolding(crate::specs::Offers::offers))]
pub fn offers_text(alloc: Global, list: &List<Offer>, out: &mut Vec<u8>) -> Result<u64, NoMemory>
    // On success: the text of the tree is appended, and the depth is returned.
    ensures text { IfOk result (λ deep. Appends out.old.items (offers.tree list.now) out.new.items
        deep) }
    // On success: the text is read back as the same offers.
    ensures back { OnOk result (Returns offers list.now) }
{
    let start = out.len();
    let deepest = write_repeated_text(alloc, "offers", list, out)?;
    close_object(deepest, start, out)
}

/// Shows that the body of OFFERS is read back from its tree. Does not allocate.
#[tactic(auto, using(crate::specs::Offers::offers_back))]
pub fn offers_read_back(list: &List<Offer>)
    ensures { Returns offers list.now }
{
    list_reads_back(list);
}
