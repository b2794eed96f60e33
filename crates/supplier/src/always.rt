// Suppliers that are valid whatever their value.
use crate::supplier::Supplier;

/// A supplier every value of which is valid: what is promised of a valid supplier is promised of it with no premise.
pub trait AlwaysValid: Supplier {
    ghost always: { (s : Self) → Self.valid s };
}
