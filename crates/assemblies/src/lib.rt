// Assemblies of any two suppliers.
#![tactic(auto)]

mod assembly;
mod kits;
mod part;
mod parts;

pub use assembly::Assembling;
pub use assembly::making::{Assembly, RANGES as ASSEMBLY_RANGES};
pub use parts::Parts;
