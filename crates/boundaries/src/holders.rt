// What a caller may build over the library: a struct that holds a pile over any supplier, and a supplier that is not always valid.
ghost use Rattle.std.specs.Prelude.{◌≡◌, false};
ghost use Rattle.std.specs.List.{slice_get};
ghost use Rattle.layers.specs.Sheets.{topped};
ghost use Rattle.supplier.specs.declared.line.Line.{Line as Row};

use assemblies::{Assembling, Assembly};
use delays::{Delay, Delaying};
use envelope::Bucket;
use layers::{Layer, line_below, line_under};
use stages::{Stage, Staging};
use std::test::Fail;
use supplier::{AlwaysValid, Fault, Kind, Line, Supplier};
use vendors::Pipeline;

/// Two delays over any supplier.
#[derive(Drop)]
pub struct Depot<S: Supplier> {
    pub pile: Delay<Delay<S>>,
}

/// A supplier that tells a quote of 0 where it is broken, and then keeps no promise.
#[derive(Drop)]
pub struct Breakable<S: Supplier> {
    pub whole: S,
    pub broken: bool,
}

impl<S: Supplier> Supplier for Breakable<S> {
    ghost valid = { λ s. S.valid s.whole × (s.broken ≡ false) };

    ghost meaning = { λ s. S.meaning s.whole };

    ghost layout = { λ s. S.layout s.whole };

    ghost shelves = { λ s. S.shelves s.whole };

    ghost envelope = { λ s. S.envelope s.whole };

    ghost sound = { λ s v. S.Supplier.sound s.whole v.0 };

    ghost shelved = { λ s v. S.Supplier.shelved s.whole v.0 };

    ghost enveloped = { λ s v. S.Supplier.enveloped s.whole v.0 };

    fn quote(&self) -> u8 {
        if self.broken {
            return 0;
        }
        self.whole.quote()
    }

    fn limit(&self, k: u8) -> Option<u64> {
        self.whole.limit(k)
    }

    fn days(&self) -> u32 {
        self.whole.days()
    }

    fn lines(&self) -> usize {
        self.whole.lines()
    }

    fn line(&self, i: usize) -> Option<Line> {
        self.whole.line(i)
    }

    fn trial(&self, q: u64) -> Option<Fault> {
        self.whole.trial(q)
    }

    fn day(&mut self, q: u64) -> Result<u64, Fault> {
        self.whole.day(q)
    }
}

/// A delay over a valid supplier, which is valid.
fn delay<S: Supplier>(below: S, number: u64, delay: u64) -> Delay<S>
    ensures { S.valid below → ⟦<Delay<S> as Supplier>⟧.valid result }
{
    Delaying::over(below, number, delay)
}

/// An assembly of two valid suppliers, which is valid.
fn assembly<L: Supplier, R: Supplier>(left: L, right: R) -> Assembly<L, R>
    ensures { L.valid left → R.valid right → ⟦<Assembly<L, R> as Supplier>⟧.valid result }
{
    Assembling::over(left, right, 5, 1, 1)
}

/// A stage over a valid supplier, which is valid.
fn stage<S: Supplier>(below: S, bucket: &Bucket) -> Stage<S>
    ensures { S.valid below → ⟦<Stage<S> as Supplier>⟧.valid result }
{
    Staging::over(below, 6, 1, 0, 1_000, bucket)
}

/// A day of two delays over a valid supplier, which keeps them valid.
fn day<S: Supplier>(depot: &mut Depot<S>, order: u64) -> Result<u64, Fault>
    ensures { ⟦<Delay<Delay<S>> as Supplier>⟧.valid depot.old.pile → ⟦<Delay<Delay<S>> as Supplier>⟧.valid depot.new.pile }
{
    depot.pile.day(order)
}

/// Two delays over a supplier that may be broken; they are valid where it is not.
fn two_delays(broken: bool) -> Depot<Breakable<Pipeline>>
    ensures { broken ≡ false → ⟦<Delay<Delay<Breakable<Pipeline>>> as Supplier>⟧.valid result.pile }
{
    let whole = Pipeline::new(1, 2, 8);
    Depot {
        pile: delay(delay(Breakable { whole, broken }, 2, 3), 3, 4),
    }
}

/// The first line below a layer's own; over a supplier that is always valid no premise is needed.
fn first_below<S: AlwaysValid>(below: &S) -> Option<Line>
    ensures { (own : Row) → result ≡ slice_get (topped own (S.meaning below.now).sheet) 1 }
{
    line_below(below, 1)
}

#[test]
fn depot_days(rt: HostRuntime) -> Result<(), Fail> {
    let mut depot = two_delays(false);
    assert_eq!(rt; depot.pile.quote(), 9);
    for t in 0..12u64 {
        let due = if t < 9 { 0 } else { 8 };
        assert_eq!(rt; day(&mut depot, 8), Ok(due));
    }
    Ok(())
}

#[test]
fn depot_over_a_broken_supplier(rt: HostRuntime) {
    assert_eq!(rt; two_delays(true).pile.quote(), 7);
}

#[test]
fn a_pile_of_layers(rt: HostRuntime) {
    let left = delay(Pipeline::new(1, 2, 8), 2, 3);
    let kits = assembly(left, delay(Pipeline::new(3, 1, 9), 4, 1));
    assert_eq!(rt; kits.quote(), 5);
    let pile = stage(kits, &Bucket::new(8, 8, 4));
    assert_eq!(rt; pile.quote(), 0);
    assert_eq!(rt; pile.lines(), 6);
}

#[test]
fn lines_below_a_vendor(rt: HostRuntime) {
    let vendor = Pipeline::new(1, 2, 8);
    assert_eq!(rt; line_below(&vendor, 0), None);
    assert_eq!(rt; line_below(&vendor, 1), vendor.line(0));
    assert_eq!(rt; line_below(&vendor, 2), None);
    assert_eq!(rt; first_below(&vendor), line_under(&vendor, 1));
}

#[test]
fn lines_below_an_idle_layer(rt: HostRuntime) {
    let idle: Layer<Pipeline, Pipeline> = Layer::resting(4, Kind::Delay, Pipeline::new(1, 2, 8));
    assert_eq!(rt; line_below(&idle, 1).map(|line| line.number), Some(4));
    assert_eq!(rt; line_below(&idle, 2), None);
    assert_eq!(rt; line_below(&idle, 1_000), None);
}

#[test]
fn lines_under_two_delays(rt: HostRuntime) {
    let depot = two_delays(false);
    assert_eq!(rt; line_under(&depot.pile, 1).map(|line| line.number), Some(3));
    assert_eq!(rt; line_under(&depot.pile, 3).map(|line| line.number), Some(1));
    assert_eq!(rt; line_under(&depot.pile, 4), None);
}
