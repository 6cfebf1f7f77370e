//! Runs of calls.
ghost use Rattle.laws_step.specs.RunComposition.{RunsGoOn};

/// The run of some calls and one more is that of the calls before: the office after the step of the
/// last call, and its reply behind the replies so far.
pub fn runs_go_on()
    ensures { RunsGoOn }
{}
