// Calls for jobs, each in a thread of its own.
ghost use Rattle.std.specs.Prelude.{◌≡◌, vec_len, IfOk};
ghost use Rattle.std.specs.Fn.{FnReturns};
ghost use Rattle.std.specs.Fork.{AcceptsJobs, GivesJobs};
ghost use denote.Param.Send.{IsSend, IsSync};

use abuf_num::NoMemory;
use std::alloc::Global;
use std::thread::{Threads, join};

/// Calls `f` for a job. Not inlined, so that what `f` needs isn't in the frames of [`map_jobs`], of which the caller's stack holds
/// one for each job.
#[inline(never)]
fn call<J, X, F: Fn(J) -> X>(f: &F, job: J) -> X
    requires { F.pre f.now job }
    ensures { FnReturns F.Fn f.now (job, tt) result }
{
    f(job)
}

/// Calls `f` for each job, in a thread of its own where one can be started, and gives the results in the order of the jobs. An error
/// means that memory ran out beside the calls, some of which may not have been made then.
///
/// So does std's `map_vec`. It halves the jobs, so that half of its threads are started by threads that were just started themselves,
/// and Linux may leave such a thread on its parent's processor for some 40 ms while another is idle. Here the caller starts all
/// threads, for [`join`] starts one for what it is given first.
pub fn map_jobs<R: Threads + Sync, J: Send + Drop, X: Send + Drop, F: Fn(J) -> X + Sync>(
    rt: &R,
    alloc: Global,
    mut jobs: Vec<J>,
    f: &F,
) -> Result<Vec<X>, NoMemory>
    requires { AcceptsJobs F.Fn f.now jobs.items }
    ensures len { IfOk result (λ v. vec_len v ≡ vec_len jobs) }
    ensures each { IfOk result (λ v. GivesJobs F.Fn f.now jobs.items v.items) }
{
    let Some(last) = jobs.pop() else {
        return Ok(Vec::new(alloc));
    };
    if jobs.is_empty() {
        let mut one = Vec::new(alloc);
        one.push(call(f, last))?;
        return Ok(one);
    }
    let (made, others) = join(
        rt,
        move || -> X
            requires { IsSync F.row × IsSend J.row × IsSend X.row × F.pre f.now last }
            ensures { FnReturns F.Fn f.entry.now (last, tt) result }
        { call(f, last) },
        move || -> Result<Vec<X>, NoMemory>
            requires { IsSync R.row × IsSync F.row × IsSend J.row × IsSend X.row × AcceptsJobs F.Fn f.now jobs.items }
            ensures { IfOk result (λ v. (vec_len v ≡ vec_len jobs) × GivesJobs F.Fn f.entry.now jobs.items v.items) }
        { map_jobs(rt, alloc, jobs, f) },
    );
    let mut all = others?;
    all.push(made)?;
    Ok(all)
}
