//! Expressions posed as forms over a plan, and what is settled about them.

mod axes;
mod magnitudes;
mod places;
mod posing;
mod settling;
mod values;

pub use posing::PosedZero;
pub use settling::settle_zero;
