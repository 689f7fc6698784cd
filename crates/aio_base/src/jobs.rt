//! Work that is handed to threads, what runs it, and the gate that may hold a pair back.

ghost use Rattle.std.specs.Prelude.{IfOk};
ghost use Rattle.std.specs.List.{AllZip};

use crate::outcomes::OutOfMemory;
use crate::running::{on_the_caller, on_threads};
use std::alloc::Global;
use std::sync::Wait;
use std::thread::Threads;

/// A piece of work that one thread does from begin to end.
pub trait Job {
    /// What comes of it.
    type End;

    /// A job, and an end that may come of it.
    ghost may_end: { Self → Self.End → Type 0 };

    /// Does the work. May wait. Want of memory is for the end to tell.
    fn run<R: Wait + Threads + Sync + Send + Copy>(self, rt: &R) -> Self::End
        ensures { may_end self result };
}

/// Where the jobs of a call run.
#[derive(Clone, Copy, Debug, PartialEq, Eq)]
pub enum Placement {
    /// On the caller, one after another.
    Caller,
    /// On threads of std, one each as far as threads can be had.
    Threads,
}

/// What runs jobs.
pub trait Spawner {
    /// Where it runs them.
    fn placement(&self) -> Placement;

    /// Runs each job once. The ends stand in the order of their jobs. At `OutOfMemory` some of the jobs
    /// may be given up.
    final fn run_all<R: Wait + Threads + Sync + Send + Copy, J: Job + Send + Drop>(
        &mut self,
        alloc: Global,
        rt: &R,
        jobs: Vec<J>,
    ) -> Result<Vec<J::End>, OutOfMemory>
    where
        J::End: Send + Drop,
        ensures { IfOk result (λ ends. AllZip J.may_end jobs.items ends.items) }
    {
        match self.placement() {
            Placement::Caller => on_the_caller(alloc, rt, jobs),
            Placement::Threads => on_threads(rt, jobs),
        }
    }
}

/// What a server asks before it serves a pair. It changes no end, so nothing is promised of its answer.
pub trait Gate {
    /// Is called before the first poll of the pair of this number, counted from 1. May wait.
    fn hold<R: Wait + Threads + Sync + Send + Copy>(&self, rt: &R, pair: u32) -> bool;

    /// Is called once the pair of this number has its end.
    fn passed(&self, pair: u32);
}
