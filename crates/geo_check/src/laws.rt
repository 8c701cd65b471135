//! What it means that a certificate is valid, and which are: functions that do nothing, whose
//! contracts are the laws.

ghost use Rattle.std.specs.Prelude.{◌≡◌, None, Some};
ghost use Rattle.geo_sketch.specs.Sketches.{Drawing, IsDrawn, IsPosed};
ghost use Rattle.geo_sketch.specs.declared.statements.Statement.{Statement as Claim};
ghost use Rattle.geo_sketch.specs.declared.verdicts.Verdict.{Verdict as Found};
ghost use Rattle.geo_degree.specs.Verdicts.{IsStatementVerdict};
ghost use Rattle.geo_cert.specs.declared.certificates.Certificate.{Certificate as Stated};
ghost use Rattle.geo_cert.specs.Making.{certificate_by};
ghost use Rattle.geo_check.specs.Faults.{first_fault};
ghost use Rattle.geo_check.specs.Truth.{IsTrueCertificate};

use geo_sketch::sketches_are_sound;

/// A certificate to which no number applies is true, whoever wrote it: its claim holds in the
/// sketch of its elements, or is not 0 at its values.
pub fn valid_certificates_are_true()
    ensures { (c : Stated) → first_fault c ≡ None → IsTrueCertificate c }
{
    sketches_are_sound();
}

/// No number applies to the certificate that is made of a statement's own verdict: what is
/// settled in a sketch, and written, is never refused by the checker.
pub fn made_certificates_are_valid()
    ensures { (drawing : Drawing) (s : Claim) (r : Found) (c : Stated) → IsDrawn drawing → IsPosed drawing.elements s → IsStatementVerdict drawing.elements s r → certificate_by drawing.elements s r ≡ Some c → first_fault c ≡ None }
{}
