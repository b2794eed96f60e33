// A layer as its making gives it: at work over what is below, or idle.
ghost use Rattle.std.specs.Prelude.{[], None};
ghost use Rattle.layers.specs.Layers.{by_layer};
ghost use Rattle.vendors.specs.Idles.{idle_meaning, idle_layout};
ghost use Rattle.vendors.specs.Periods.{nothing};
ghost use Rattle.layers.specs.declared.layer.Layer.TheVariants.{Working, Idle};
ghost use Rattle.vendors.specs.Serving.{vendor_sound};

use supplier::{AlwaysValid, Fault, Line, Supplier};
use vendors::Idle;

/// `W` works over what is below; `B` is what an idle layer holds and never calls.
/// Not a `Result`: an idle layer is no failure, and it is a supplier as the other is.
#[derive(Drop)]
pub enum Layer<W: Supplier, B> {
    Working(W),
    Idle(Idle, B),
}

impl<W: Supplier, B> Supplier for Layer<W, B> {
    ghost valid = { by_layer W.Supplier.valid (λ _. Unit {0}) };

    ghost meaning = { by_layer W.Supplier.meaning idle_meaning };

    ghost layout = { by_layer W.Supplier.layout idle_layout };

    ghost shelves = { by_layer W.Supplier.shelves (λ _. []) };

    ghost envelope = { by_layer W.Supplier.envelope (λ _. None) };

    ghost sound = { elim [
      | Working w ↦ λ v. W.Supplier.sound w v
      | Idle i b ↦ λ v. vendor_sound i.terms.kind nothing i.source i.tells
    ] };

    ghost shelved = { elim [ Working w ↦ λ v. W.Supplier.shelved w v | Idle i b ↦ λ v. tt ] };

    ghost enveloped = { elim [ Working w ↦ λ v. W.Supplier.enveloped w v | Idle i b ↦ λ v. tt ] };

    // Two arms a method: a `dyn Supplier` may not be handed out, and a macro would only hide them.
    fn quote(&self) -> u8 {
        match self {
            Layer::Working(working) => working.quote(),
            Layer::Idle(idle, _) => idle.quote(),
        }
    }

    fn limit(&self, k: u8) -> Option<u64> {
        match self {
            Layer::Working(working) => working.limit(k),
            Layer::Idle(idle, _) => idle.limit(k),
        }
    }

    fn days(&self) -> u32 {
        match self {
            Layer::Working(working) => working.days(),
            Layer::Idle(idle, _) => idle.days(),
        }
    }

    fn lines(&self) -> usize {
        match self {
            Layer::Working(working) => working.lines(),
            Layer::Idle(idle, _) => idle.lines(),
        }
    }

    fn line(&self, i: usize) -> Option<Line> {
        match self {
            Layer::Working(working) => working.line(i),
            Layer::Idle(idle, _) => idle.line(i),
        }
    }

    fn trial(&self, q: u64) -> Option<Fault> {
        match self {
            Layer::Working(working) => working.trial(q),
            Layer::Idle(idle, _) => idle.trial(q),
        }
    }

    fn day(&mut self, q: u64) -> Result<u64, Fault> {
        match self {
            Layer::Working(working) => working.day(q),
            Layer::Idle(idle, _) => idle.day(q),
        }
    }
}

impl<W: AlwaysValid, B> AlwaysValid for Layer<W, B> {
    ghost always = { elim [ Working w ↦ W.AlwaysValid.always w | Idle i b ↦ tt ] };
}
