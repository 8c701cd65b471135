//! Plans over a sketch, and statements posed as forms over a plan.

mod axes;
mod condition;
mod encoding;
mod levels;
mod lookups;
mod magnitudes;
mod needs;
mod node;
mod order;
mod plan;
mod posed;
mod shortness;

pub use plan::Plan;
pub use posed::Posed;
