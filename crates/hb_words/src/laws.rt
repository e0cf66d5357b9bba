//! The laws of the definitions.
ghost use Rattle.std.specs.Prelude.{◌≡◌, ℕ, List, Some};
ghost use Rattle.hb_words.specs.declared.job.Job.TheVariants as means;
ghost use Rattle.hb_words.specs.declared.job.Observe.{Observe};
ghost use Rattle.hb_words.specs.Limits.{IsWithin};
ghost use Rattle.hb_words.specs.Words.{job};

/// The limits of each job: its ring can be opened and is not too large, and its node's name is not
/// too long.
pub fn job_limits()
    ensures within { (words : List (List ℕ)) (o : Observe)
        → job words ≡ Some (means.Observe o) → IsWithin o }
{}
