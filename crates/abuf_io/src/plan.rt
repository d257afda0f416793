// The plan by which a source or a sink over memory gives, takes and fails.
ghost use Rattle.std.specs.Prelude.{◌≡◌, ◌≤◌, length, drop, slice_get, IfSome, true};
ghost use Rattle.abuf_io.specs.Plans.{IsPlan, lets_some};

/// What one call does.
#[derive(Clone, Copy, Debug, PartialEq, Eq)]
pub enum Step {
    /// The call gives or takes at most so many bytes, at least 1.
    Take(u32),
    /// The call fails.
    Fail,
}

/// The step that a call uses, if the plan has one left. It is used then.
pub(crate) fn next_step(plan: &[Step], used: &mut usize) -> Option<Step>
    requires used { used.old ≤ length plan.now }
    requires plan { IsPlan plan.now }
    ensures lets_some { IfSome result (λ step. lets_some step ≡ true) }
    ensures step { result ≡ slice_get (drop used.old plan.now) 0 }
    ensures rest { drop used.new plan.now ≡ drop 1 (drop used.old plan.now) }
    ensures within { used.new ≤ length plan.now }
{
    let step = plan.get(*used).copied();
    if step.is_some() {
        *used += 1;
    }
    step
}
