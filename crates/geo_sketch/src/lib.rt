//! A sketch of points and lines in the projective plane: its elements, its
//! claims and what changes it, each refusal with its exact cause.
#![tactic(auto)]

mod additions;
mod changes;
mod claims;
mod copies;
mod dependence;
mod edits;
mod elements;
mod laws;
mod limits;
mod lookups;
mod names;
mod parameters;
mod part_laws;
mod plain_heights;
mod plain_statements;
mod rebuilding;
mod references;
mod samples;
mod sketches;
mod statements;
mod triples;
mod verdicts;

pub use changes::{Delta, NoMemory, Refusal, Stop};
pub use claims::has_claim;
pub use copies::copy_values;
pub use dependence::depends_by;
pub use elements::{Def, Element, Kind, Setting, Spec};
pub use laws::{
    dual_twice, each_by_its_definition, fixed_by_what_it_depends_on, made_by_changes, others_stay,
    plain_statements_hold, taken_back_and_done_again,
};
pub use limits::{
    CLAIM_LIMIT, COORDINATE_LIMIT, ELEMENT_LIMIT, HEIGHT_LIMIT, NUMBER_LIMIT, PARAMETER_LIMIT,
    SAMPLE_COUNT,
};
pub use lookups::{entry_at, find_by_name, find_by_number, find_def, find_kind, place_of};
pub use names::{Name, are_alphanumeric};
pub use parameters::{OwnParameters, element_of_parameter, first_parameter, second_parameter};
pub use part_laws::{
    needed_part_by_itself, posing_is_computed, sketches_are_sound, soundness_is_computed,
};
pub use samples::sample_value;
pub use sketches::Sketch;
pub use statements::{Said, Statement};
pub use triples::{LookUp, of_values, triple_by};
pub use verdicts::{Past, Values, Verdict};
