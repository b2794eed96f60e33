// The vendors: suppliers that call nothing below, each by its own terms.
#![tactic(auto)]

mod calendar;
mod idle;
mod mask;
mod periods;
mod pipeline;
mod source;
mod terms;
mod vendor;

pub use calendar::CalendarTerms;
pub use calendar::making::{Calendar, RANGES as CALENDAR_RANGES};
pub use idle::IdleTerms;
pub use idle::making::Idle;
pub use pipeline::PipelineTerms;
pub use pipeline::making::{Pipeline, RANGES as PIPELINE_RANGES};
pub use source::Source;
pub use terms::Terms;
pub use vendor::Vendor;
