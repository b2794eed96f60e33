// The question and the making of an assembly.
ghost use Rattle.std.specs.Prelude.{◌≡◌, ◌≤◌, [], ◌∷◌, IfNone, IfSome};
ghost use Rattle.figures.specs.Ranges.{AllIn};
ghost use Rattle.supplier.specs.Numbers.{named};
ghost use Rattle.layers.specs.Makings.{Given, Keeps};
ghost use Rattle.layers.specs.Questions.{Barred};
ghost use Rattle.assemblies.specs.AssemblyMaking.{assembly_ranges, Unkitted, AssemblyAsked, AssemblyPasses, AssemblyNew};

use crate::assembly::Assembling;
use crate::kits::Kits;
use crate::part::Part;
use figures::{Range, Refusal, range_refusal};
use layers::Layer;
use supplier::{Book, Kind, NUMBERS, Supplier, kept_number};

/// An assembly over two suppliers, as its making gives it.
pub type Assembly<L, R> = Layer<Assembling<L, R>, (L, R)>;

/// The range of the parts of one side that a kit takes.
const PARTS: Range = Range { low: 1, high: 100 };

/// The ranges of the number and of the parts of both sides.
pub const RANGES: [Range; 3] = [NUMBERS, PARTS, PARTS];

// The figures come one by one, as a file's record has them: a struct would be a second name for that record.
impl<L: Supplier, R: Supplier> Assembling<L, R> {
    /// The refusal of kits of so many parts of these two suppliers, or none.
    pub fn question(left: &L, right: &R, number: u64, a: u64, b: u64) -> Option<Refusal>
        ensures ranged { IfNone result (AllIn assembly_ranges (number ∷ a ∷ b ∷ [])) }
        ensures barred { IfSome result (Barred assembly_ranges (number ∷ a ∷ b ∷ [])) }
        ensures asked { L.valid left.now → R.valid right.now → AssemblyAsked (L.meaning left.now) (R.meaning right.now) number a b result }
    {
        // One test after the other, each with its refusal: a chain of `or_else` says no more.
        if let Some(refusal) = range_refusal(&[number, a, b], &RANGES) {
            return Some(refusal);
        }
        if left.days() != 0 || right.days() != 0 {
            return Some(Refusal::Started);
        }
        None
    }

    /// An assembly of these two suppliers; an idle layer where the question refuses it.
    pub fn over(left: L, right: R, number: u64, a: u64, b: u64) -> Assembly<L, R>
        ensures kept { Keeps (λ w. (w.left ≡ left) × (w.right ≡ right) × Unkitted number a b w.own) Kind.Assembly (named number) (left, right) result }
        ensures made { L.valid left → R.valid right → Given (AssemblyPasses (L.meaning left) (R.meaning right) number a b)
            (AssemblyNew L.valid R.valid L.meaning R.meaning left right number a b) Kind.Assembly (named number) (left, right) result }
    {
        if Assembling::question(&left, &right, number, a, b).is_some() {
            return Layer::resting(number, Kind::Assembly, (left, right));
        }
        let own = Kits {
            number: kept_number(number),
            left: Part {
                per_kit: a,
                waiting: 0,
            },
            right: Part {
                per_kit: b,
                waiting: 0,
            },
            orders: Book::new(),
            days: 0,
            delivered: 0,
        };
        Layer::Working(Assembling { left, right, own })
    }
}
