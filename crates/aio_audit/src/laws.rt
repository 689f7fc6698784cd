//! The law of auditors, as the contract of a function with no work to do.

ghost use Rattle.std.specs.Prelude.{◌≡◌, ℕ, List};
ghost use Rattle.aio_audit.specs.Auditor.{verdict_of, verdict_on};
ghost use Rattle.aio_log.specs.Logs.{log_told};

/// An auditor that keeps what is known of the world, the place of the next line and the number of steps
/// says of each input what its lines tell: how many steps there were before the first wrong line, and
/// which line that is and why, or that there is none. So it need keep neither the lines nor the past.
pub fn what_is_known_decides_each_line()
    ensures { (input : List ℕ) → verdict_of (log_told input) ≡ verdict_on input }
{}
