//! Certificates: a verdict that leaves the program as one line, which another program can
//! read and check.
#![tactic(auto)]

mod certificates;
mod degree_lists;
mod element_lists;
mod grid_lists;
mod laws;
mod limits;
mod lists;
mod making;
mod members;
mod reading;
mod rows;
mod shapes;
mod values;
mod words;
mod writing;

pub use certificates::{CertStop, Certificate, Finding};
pub use degree_lists::{DegreeEntry, DegreeList};
pub use element_lists::ElementList;
pub use grid_lists::{GridHead, GridList};
pub use laws::{made_certificates_fit, one_certificate_a_line, written_lines_read_back};
pub use limits::CERTIFICATE_LIMIT;
pub use making::make;
pub use reading::read;
pub use writing::write;

#[cfg(test)]
mod tests;
