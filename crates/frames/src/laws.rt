// What holds under every frame rule.
ghost use Rattle.std.specs.Prelude.{ℕ, Bool};
ghost use Rattle.model.specs.Frames.{open_frame, log_frame, close_frame};
ghost use Rattle.frames.specs.Runs.{OpenFramesCount, KeepsLawful, AddsNone};

// Every open frame counts after any calls; an opening and a logging see to that by themselves, and at a closing the rule does.
pub fn open_frames_count() -> u8
    ensures runs { OpenFramesCount }
    ensures opening { (limit : ℕ) → KeepsLawful (open_frame limit) }
    ensures logging { KeepsLawful log_frame }
{
    0
}

// No closed frame joins the set, whichever frames the rule takes out of it.
pub fn closings_add_none() -> u8
    ensures { (leaves : ℕ → Bool) → AddsNone (close_frame leaves) }
{
    0
}
