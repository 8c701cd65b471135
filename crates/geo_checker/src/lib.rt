//! Lines that may be certificates: each is read, checked and answered.
#![tactic(auto)]

mod answering;
mod laws;

pub use answering::answer_line;
pub use laws::{
    answers_are_right, long_lines_are_answered_alike, readings_are_exact,
    written_certificates_are_valid,
};
