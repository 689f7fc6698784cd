//! The versions of the trace language, as they answer its lines.

ghost use Rattle.std.specs.Prelude.{◌≡◌, ◌++◌, [], IfOk, OnErr, OnOk};
ghost use Rattle.aio_base.specs.Script.{reply_text};
ghost use Rattle.aio_base.specs.World.{opening};
ghost use Rattle.aio_replay.specs.Versions.{first_rules};

use crate::answerer::{Answerer, Gathered, Unanswered};
use crate::replayer::Replayer;
use aio_base::{Reason, Step, Waker};
use aio_react::Core;
use aio_script::ScriptPoller;
use aio_trace::{is_header, read_line};
use aio_writing::write_reply;
use std::alloc::{AllocError, Global};

/// The first version: a line is read in each of its spellings, or refused for its fault, and its step is
/// run. Between two steps there are no wakes.
pub(crate) struct FirstVersion {
    pub replayer: Replayer,
    pub wakes: Vec<Waker>,
}

// Written out: a derived one has those of all that lies in it proved again.
impl Drop for FirstVersion {
    fn drop(self) {
        let FirstVersion {
            replayer: _,
            wakes: _,
        } = self;
    }
}

impl FirstVersion {
    /// The first version before its first step. `AllocError` where there is no memory for its parts.
    pub(crate) fn new(alloc: Global) -> Result<FirstVersion, AllocError>
        ensures stands { IfOk result (λ first. first_rules.stands first opening) }
        ensures within { IfOk result (first_rules.within 2) }
    {
        match Replayer::new(alloc) {
            Ok(replayer) => Ok(FirstVersion {
                replayer,
                wakes: Vec::new(alloc),
            }),
            Err(error) => Err(error),
        }
    }

    /// The core that ran the steps.
    pub(crate) fn into_core(self) -> Core<ScriptPoller>
        ensures { result ≡ self.replayer.core }
    {
        let FirstVersion { replayer, wakes: _ } = self;
        replayer.into_core()
    }
}

impl Answerer for FirstVersion {
    ghost use Rattle.aio_replay.specs.LongLines.{first_language_rules};
    ghost use Rattle.aio_replay.specs.Versions.{first_rules};

    ghost rules = { first_rules };

    ghost language_rules = { first_language_rules };

    fn open(_gathered: &mut Gathered<FirstVersion>, line: &[u8]) -> Result<(), Unanswered> {
        if is_header(line) {
            Ok(())
        } else {
            Err(Unanswered::Refused(Reason::Header))
        }
    }

    fn line_limit(&self) -> u64 {
        1_000_000
    }

    fn long_line(&self) -> Reason {
        Reason::Long
    }

    #[inline(always)]
    fn answer(gathered: &mut Gathered<FirstVersion>, line: &[u8]) -> Result<(), Unanswered> {
        let step = match read_line(line) {
            Ok(step) => step,
            Err(fault) => return Err(Unanswered::Refused(Reason::from(fault))),
        };
        match gathered.run(&step) {
            Ok(()) => Ok(()),
            Err(_) => Err(Unanswered::OutOfMemory),
        }
    }

    fn unended(&self) -> Option<Reason> {
        None
    }

    fn put_held(&self, _text: &mut Vec<u8>) -> Result<(), AllocError> {
        Ok(())
    }
}

impl Gathered<FirstVersion> {
    ghost use Rattle.aio_base.specs.Lines.{IsInRange};
    ghost use Rattle.aio_replay.specs.Versions.{MayRun, RunsStep};

    /// Runs a step, and puts its answer and its wakes at the end of the text. `AllocError` where memory
    /// ran out; then the text is as it was.
    fn run(&mut self, step: &Step) -> Result<(), AllocError>
        requires ready { MayRun self.old }
        requires range { IsInRange step.now }
        ensures { RunsStep self.old step.now result self.new }
    {
        let Ok(answer) = self.answerer.replayer.step(step, &mut self.answerer.wakes) else {
            return Err(AllocError);
        };
        match write_reply(answer, &mut self.answerer.wakes, &mut self.text) {
            Ok(()) => Ok(()),
            Err(_) => Err(AllocError),
        }
    }
}
