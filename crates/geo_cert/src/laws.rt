//! Laws of certificates: functions that compute nothing, whose contracts are the laws.

ghost use Rattle.std.specs.Prelude.{◌≡◌, ◌≤◌, ℕ, Some, List, length};
ghost use Rattle.geo_sketch.specs.Sketches.{Drawing, IsDrawn, IsPosed};
ghost use Rattle.geo_sketch.specs.declared.statements.Statement.{Statement as Claim};
ghost use Rattle.geo_sketch.specs.declared.verdicts.Verdict.{Verdict as Found};
ghost use Rattle.geo_degree.specs.Verdicts.{IsStatementVerdict};
ghost use Rattle.geo_cert.specs.Lines.{ReadsAs};
ghost use Rattle.geo_cert.specs.Making.{certificate_by};
ghost use Rattle.geo_cert.specs.Shapes.{IsWithin};
ghost use Rattle.geo_cert.specs.Written.{line_of};
ghost use Rattle.geo_cert.specs.declared.certificates.Certificate.{Certificate as Written};
ghost use Rattle.geo_cert.specs.declared.limits.TheConstants.{CERTIFICATE_LIMIT};

/// No line reads as two certificates.
pub fn one_certificate_a_line()
    ensures { (line : List ℕ) (c d : Written) → ReadsAs line c → ReadsAs line d → c ≡ d }
{}

/// The line of a certificate reads as the certificate, where the numbers are in their range
/// and the line is not too long.
pub fn written_lines_read_back()
    ensures { (c : Written) → IsWithin c → length (line_of c) ≤ CERTIFICATE_LIMIT → ReadsAs (line_of c) c }
{}

/// What is made of a statement's own verdict has its numbers in their range, and its line
/// has at most 65,536 bytes: a sketch has at most 64 elements and 24 parameters, and a
/// statement has at most degree 75 in each. So its line reads as it.
pub fn made_certificates_fit()
    ensures within { (drawing : Drawing) (s : Claim) (r : Found) (c : Written) → IsDrawn drawing → IsPosed drawing.elements s → IsStatementVerdict drawing.elements s r → certificate_by drawing.elements s r ≡ Some c → IsWithin c }
    ensures short { (drawing : Drawing) (s : Claim) (r : Found) (c : Written) → IsDrawn drawing → IsPosed drawing.elements s → IsStatementVerdict drawing.elements s r → certificate_by drawing.elements s r ≡ Some c → length (line_of c) ≤ CERTIFICATE_LIMIT }
    ensures reads_back { (drawing : Drawing) (s : Claim) (r : Found) (c : Written) → IsDrawn drawing → IsPosed drawing.elements s → IsStatementVerdict drawing.elements s r → certificate_by drawing.elements s r ≡ Some c → ReadsAs (line_of c) c }
{}
