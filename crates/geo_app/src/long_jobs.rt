//! What a reader of a batch may leave out of a long line.

ghost use Rattle.std.specs.Prelude.{◌≡◌, ◌+◌, ℕ, List, take, map};
ghost use Rattle.geo_session.specs.Printed.{AreTrue};
ghost use Rattle.geo_app.specs.Batches.{JobLines, batch_meanwhile, batch_printed, batch_refuses, jobs_printed};
ghost use Rattle.geo_app.specs.declared.limits.TheConstants.{JOB_SIZE_LIMIT};

use geo_session::printed_verdicts_are_true;

/// A job with a line of more than 65,535 bytes is refused for its size, also where 65,537 bytes of
/// the line are kept. So what is answered to a batch needs no more of its lines.
pub fn long_jobs_are_answered_alike()
    ensures printed { (lines : List (List ℕ)) → batch_printed (map (take (JOB_SIZE_LIMIT + 1)) lines) ≡ batch_printed lines }
    ensures refused { (lines : List (List ℕ)) → batch_refuses (map (take (JOB_SIZE_LIMIT + 1)) lines) ≡ batch_refuses lines }
    ensures meanwhile { (n : ℕ) (lines : List (List ℕ)) → batch_meanwhile n (map (take (JOB_SIZE_LIMIT + 1)) lines) ≡ batch_meanwhile n lines }
{}

/// Every verdict in the replies to the jobs of a batch is true.
pub fn verdicts_of_jobs_are_true()
    ensures { (number : ℕ) (jobs : List JobLines) → AreTrue (jobs_printed number jobs) }
{
    printed_verdicts_are_true();
}
