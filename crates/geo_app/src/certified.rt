//! What is answered to the certificates that are printed.

ghost use Rattle.geo_sketch.specs.Claims.{resolution_of};
ghost use Rattle.geo_sketch.specs.Sketches.{IsDrawn};
ghost use Rattle.geo_sketch.specs.declared.statements.Said.{Said as Asked};
ghost use Rattle.geo_session.specs.Answers.{State, certified, drawing_of};
ghost use Rattle.geo_app.specs.Certified.{AreAnsweredAlike};

use geo_checker::written_certificates_are_valid;
use geo_degree::verdict_of_is_the_verdict;

/// In any state whose sketch is drawn, to the certificate that `certify` prints `check` answers
/// that it is valid, with the same verdict.
pub fn printed_certificates_are_valid()
    ensures { (state : State) (said : Asked) → IsDrawn (drawing_of state) → AreAnsweredAlike (certified state (resolution_of (drawing_of state) said)).printed }
{
    verdict_of_is_the_verdict();
    written_certificates_are_valid();
}
