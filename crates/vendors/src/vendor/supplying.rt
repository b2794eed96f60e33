// A vendor as a supplier.
ghost use Rattle.std.specs.Prelude.{◌≡◌, List, []};
ghost use Rattle.supplier.specs.Meaning.{Day};
ghost use Rattle.supplier.specs.Shelves.{Shelf};
ghost use Rattle.vendors.specs.Sources.{vendor_of};
ghost use Rattle.vendors.specs.Vended.{vendor_layout};
ghost use Rattle.vendors.specs.Serving.{vendor_sound};

use crate::terms::Terms;
use crate::vendor::Vendor;
use supplier::{AlwaysValid, Fault, Line, Supplier};

impl<T: Terms> Supplier for Vendor<T> {
    ghost meaning = { λ v. vendor_of (T.kind v.terms) (T.limit v.terms) v.source };

    ghost layout = { λ v. vendor_layout (T.kind v.terms) v.source.ledger.number v.source.quote };

    ghost sound = { λ v _. vendor_sound (T.kind v.terms) (T.limit v.terms) v.source v.tells };

    ghost shelved = { λ v _. tt };

    ghost enveloped = { λ v _. tt };

    fn quote(&self) -> u8 {
        self.source.quote
    }

    fn limit(&self, k: u8) -> Option<u64> {
        self.source.ledger.limits.told(k)
    }

    fn days(&self) -> u32 {
        self.source.ledger.days
    }

    fn lines(&self) -> usize {
        1
    }

    fn line(&self, i: usize) -> Option<Line> {
        (i == 0).then(|| self.source.line(self.terms.kind()))
    }

    #[tactic(auto, using(supplier::proofs::Finders::finds_agree))]
    fn trial(&self, q: u64) -> Option<Fault> {
        self.source.ledger.refusal(q)
    }

    #[tactic(auto, using(crate::specs::Serving::vendor_day))]
    fn day(&mut self, q: u64) -> Result<u64, Fault>
        ensures answers { Day (vendor_layout (T.kind self.old.terms) self.old.source.ledger.number self.old.source.quote)
            (vendor_of (T.kind self.old.terms) (T.limit self.old.terms) self.old.source) q result
            (vendor_of (T.kind self.new.terms) (T.limit self.new.terms) self.new.source) }
        ensures lays { vendor_layout (T.kind self.new.terms) self.new.source.ledger.number self.new.source.quote
            ≡ vendor_layout (T.kind self.old.terms) self.old.source.ledger.number self.old.source.quote }
        ensures stocks { ◌≡◌ {A = List Shelf} [] [] }
        ensures keeps { self.new.terms ≡ self.old.terms }
    {
        self.source.day(q)
    }
}

impl<T: Terms> AlwaysValid for Vendor<T> {
    ghost always = { λ _. tt };
}
