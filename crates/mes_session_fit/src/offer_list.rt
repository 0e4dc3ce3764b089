//! A list of offers in any container.
ghost use Rattle.std.specs.Prelude.{◌≡◌, ◌<◌, List, length, slice_get, Some};
ghost use Rattle.mes_model.specs.Offer.{Offer as OfferValue};

use mes_model::Offer;

/// A list of offers: a slice, or the outstanding offers that a call names.
pub trait OfferList {
    /// The offers of the list, in order.
    ghost offers: { Self → List OfferValue };

    /// Returns the number of offers.
    fn count(&self) -> usize
        ensures { result ≡ length (offers self.now) };

    /// Returns the offer at an index.
    fn get_index(&self, index: usize) -> &Offer
        requires { index < length (offers self.now) }
        ensures { slice_get (offers self.now) index ≡ Some result.now };
}

impl<'a> OfferList for &'a [Offer] {
    ghost offers = { λ offers. offers.now };

    fn count(&self) -> usize {
        self.len()
    }

    fn get_index(&self, index: usize) -> &Offer {
        &self[index]
    }
}
