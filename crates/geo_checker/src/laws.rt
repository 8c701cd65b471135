//! Laws of the answers: functions that do nothing, whose contracts are the laws.

ghost use Rattle.std.specs.Prelude.{◌≡◌, ◌∷◌, [], ◌+◌, ◌<◌, ◌↔◌, ℕ, false, Some, Ok, Err, List, take, map};
ghost use Rattle.geo_sketch.specs.Sketches.{Drawing, IsDrawn, IsPosed};
ghost use Rattle.geo_sketch.specs.declared.statements.Statement.{Statement as Claim};
ghost use Rattle.geo_sketch.specs.declared.verdicts.Verdict.{Verdict as Found};
ghost use Rattle.geo_degree.specs.Verdicts.{IsStatementVerdict};
ghost use Rattle.geo_cert.specs.declared.certificates.Certificate.{Certificate as Cert};
ghost use Rattle.geo_cert.specs.Lines.{HasNone, HasOther, ReadsAs};
ghost use Rattle.geo_cert.specs.Making.{certificate_by};
ghost use Rattle.geo_cert.specs.Written.{line_of};
ghost use Rattle.geo_checker.specs.Answers.{answer_of, answered, has_invalid, text_of, valid, verdict_text};
ghost use Rattle.geo_checker.specs.Reading.{reading_of};
ghost use Rattle.geo_checker.specs.Truth.{AreRight, IsRight};
ghost use Rattle.geo_cert.specs.declared.limits.TheConstants.{CERTIFICATE_LIMIT};

use geo_cert::made_certificates_fit;
use geo_check::{made_certificates_are_valid, valid_certificates_are_true};

/// What a line reads as is the certificate that it is written for, and each number stands for
/// its cause and for no other.
pub fn readings_are_exact()
    ensures certificate { (line : List ℕ) (c : Cert) → (reading_of line ≡ Ok c) ↔ ReadsAs line c }
    ensures none { (line : List ℕ) → (reading_of line ≡ Err 1) ↔ HasNone line }
    ensures other { (line : List ℕ) → (reading_of line ≡ Err 2) ↔ HasOther line }
{}

/// The answer to a line is right, whoever wrote the line.
pub fn answers_are_right()
    ensures answer { (line : List ℕ) → IsRight line (answer_of line) }
    ensures all { (lines : List (List ℕ)) → AreRight (answered lines) }
{
    valid_certificates_are_true();
}

/// Of a line of more than 65,537 bytes these are enough for its answer.
pub fn long_lines_are_answered_alike()
    ensures text { (lines : List (List ℕ)) → text_of (answered (map (take (CERTIFICATE_LIMIT + 1)) lines)) ≡ text_of (answered lines) }
    ensures invalid { (lines : List (List ℕ)) → has_invalid (answered (map (take (CERTIFICATE_LIMIT + 1)) lines)) ≡ has_invalid (answered lines) }
{}

/// The line that is written of a statement's own verdict is found valid, and as the
/// certificate that was made: the answer to that line alone is `valid` with the same verdict, and
/// none is invalid.
pub fn written_certificates_are_valid()
    ensures answer { (drawing : Drawing) (s : Claim) (r : Found) (c : Cert) → IsDrawn drawing → IsPosed drawing.elements s → IsStatementVerdict drawing.elements s r → certificate_by drawing.elements s r ≡ Some c → answer_of (line_of c) ≡ valid c }
    ensures text { (drawing : Drawing) (s : Claim) (r : Found) (c : Cert) → IsDrawn drawing → IsPosed drawing.elements s → IsStatementVerdict drawing.elements s r → certificate_by drawing.elements s r ≡ Some c → text_of (answered (line_of c ∷ [])) ≡ verdict_text r }
    ensures accepted { (drawing : Drawing) (s : Claim) (r : Found) (c : Cert) → IsDrawn drawing → IsPosed drawing.elements s → IsStatementVerdict drawing.elements s r → certificate_by drawing.elements s r ≡ Some c → has_invalid (answered (line_of c ∷ [])) ≡ false }
{
    made_certificates_fit();
    made_certificates_are_valid();
    readings_are_exact();
}
