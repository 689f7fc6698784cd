//! The laws of logs, as contracts of functions with no work to do.

ghost use Rattle.std.specs.Prelude.{◌≡◌, ℕ, List, None};
ghost use Rattle.aio_base.specs.Runs.{PolledStep};
ghost use Rattle.aio_base.specs.Trace.{lines_of};
ghost use Rattle.aio_log.specs.Logs.{log_told};
ghost use Rattle.aio_log.specs.Written.{AreLogOf, SameRun};

/// An input with no wrong line is, line for line, the log of the run that it tells: a run of the machine
/// in which a poller answered as the lines say.
pub fn an_input_with_no_wrong_line_is_the_log_of_its_run()
    ensures { (input : List ℕ) → (log_told input).wrong ≡ None
        → AreLogOf (lines_of input) (log_told input).run }
{}

/// The other way round: an input that is the log of a run, whatever a poller answered in it, has no wrong
/// line, and tells that run.
pub fn the_log_of_a_run_has_no_wrong_line()
    ensures right { (input : List ℕ) (run : List PolledStep) → AreLogOf (lines_of input) run
        → (log_told input).wrong ≡ None }
    ensures same { (input : List ℕ) (run : List PolledStep) → AreLogOf (lines_of input) run
        → SameRun (log_told input).run run }
{}
