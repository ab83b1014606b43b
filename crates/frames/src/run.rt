// Runs of frame calls under any rule.
ghost use Rattle.std.specs.Prelude.{◌≡◌};
ghost use Rattle.model.specs.Frames.{Lawful};
ghost use Rattle.model.specs.Refusals.{told};
ghost use Rattle.frames.specs.Runs.{Reaches, call_frame};

use crate::rule::FrameRule;
use model::error::Fault;

// A value and no closure, since contracts and logs list the calls of a run.
#[derive(Clone, Copy, Debug, PartialEq, Eq)]
pub enum FrameCall {
    Open,
    Log,
    Close,
}

fn run_call<R: FrameRule>(rule: &mut R, call: FrameCall) -> Result<u32, Fault>
    ensures { (told result, R.FrameRule.means rule.new) ≡ call_frame R.FrameRule.limit (R.FrameRule.leaves rule.old) call (R.FrameRule.means rule.old) }
{
    match call {
        FrameCall::Open => rule.open(),
        FrameCall::Log => rule.log_given(),
        FrameCall::Close => rule.close(),
    }
}

// Makes the calls in order, and answers how many of them were refused. A `for`: as a chain its proof does not close.
pub fn run_frames<R: FrameRule>(rule: &mut R, calls: &[FrameCall]) -> usize
    ensures reaches { Reaches R.FrameRule.limit (R.FrameRule.means rule.old) calls.now result (R.FrameRule.means rule.new) }
    ensures lawful { Lawful (R.FrameRule.means rule.new) }
{
    let mut refused = 0;
    for call in calls {
        if run_call(rule, *call).is_err() {
            refused += 1;
        }
    }
    refused
}
