//! The two ways to run jobs.

ghost use Rattle.std.specs.Prelude.{IfOk};
ghost use Rattle.std.specs.List.{AllZip};

use crate::jobs::Job;
use crate::outcomes::OutOfMemory;
use std::alloc::Global;
use std::collections::VecDeque;
use std::sync::Wait;
use std::thread;
use std::thread::Threads;

/// Runs the jobs on the caller, the first one first.
pub(crate) fn on_the_caller<R: Wait + Threads + Sync + Send + Copy, J: Job + Drop>(
    alloc: Global,
    rt: &R,
    jobs: Vec<J>,
) -> Result<Vec<J::End>, OutOfMemory>
where
    J::End: Drop,
    ensures { IfOk result (λ ends. AllZip J.may_end jobs.items ends.items) }
{
    let Ok(mut ends) = Vec::with_capacity(alloc, jobs.len()) else {
        return Err(OutOfMemory);
    };
    let mut left = VecDeque::from(jobs);
    while let Some(next) = left.pop_front() {
        ends.push_reserved(next.run(rt));
    }
    Ok(ends)
}

/// Runs the jobs on threads of std.
pub(crate) fn on_threads<R: Wait + Threads + Sync + Send + Copy, J: Job + Send + Drop>(
    rt: &R,
    jobs: Vec<J>,
) -> Result<Vec<J::End>, OutOfMemory>
where
    J::End: Send + Drop,
    ensures { IfOk result (λ ends. AllZip J.may_end jobs.items ends.items) }
{
    let run_one = |job: J| -> J::End
        ensures { J.may_end job result }
    { job.run(rt) };
    match thread::map_vec(rt, jobs, &run_one) {
        Ok(ends) => Ok(ends),
        Err(_) => Err(OutOfMemory),
    }
}
