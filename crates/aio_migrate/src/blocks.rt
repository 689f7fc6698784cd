//! Rows of equal steps, as they come line by line.

ghost use Rattle.std.specs.Prelude.{◌≡◌, ◌≤◌, ◌++◌, bytes_eq, OnErr, OnOk};
ghost use Rattle.aio_writing.specs.Writing.{Pushes};
ghost use Rattle.aio_base.specs.Lines.{IsInRange};
ghost use Rattle.aio_tasks.specs.Lines2.{repeat_limit};
ghost use Rattle.aio_migrate.specs.Migrators.{Passes, repeated_text};

use aio_base::{Reason, Step};
use aio_replay::answerer::{Answerer, Gathered, Unanswered};
use aio_tasks::{Line2, Step2};
use aio_trace::{is_header, read_line};
use aio_trace2::write_line2;
use aio_writing::push_numbered;
use std::alloc::{AllocError, Global};

/// The most times that one line may repeat a step.
const REPEAT_LIMIT: u32 = 100_000;

/// What has been read and not written: a step, and how many times in a row it came.
#[derive(Drop)]
pub struct Migrator {
    /// The line of the step, with its line feed.
    pub line: Vec<u8>,
    /// Room for the line of the next step.
    pub next: Vec<u8>,
    /// How often the step came; 0 before the first step.
    pub times: u32,
}

impl Migrator {
    ghost use Rattle.std.specs.Prelude.{◌≡◌, ◌&&◌, ◌≤◌, None, bytes_eq, nat_lt};
    ghost use Rattle.aio_tasks.specs.Lines2.{repeat_limit};
    ghost use Rattle.aio_migrate.specs.Migrators.{HoldsBlock};

    /// Before the first step.
    pub fn new(alloc: Global) -> Migrator
        ensures stands { HoldsBlock result None }
        ensures within { result.times ≤ repeat_limit }
    {
        Migrator {
            line: Vec::new(alloc),
            next: Vec::new(alloc),
            times: 0,
        }
    }

    /// Whether the step that was read last is one more of those that are held.
    fn joins(&self) -> bool
        ensures { result ≡ (bytes_eq self.now.next.items self.now.line.items
            && (nat_lt 0 self.now.times && nat_lt self.now.times repeat_limit)) }
    {
        are_same(self.next.as_slice(), self.line.as_slice())
            && self.times > 0
            && self.times < REPEAT_LIMIT
    }
}

impl Answerer for Migrator {
    ghost use Rattle.aio_migrate.specs.MigratorRules.{migration_language_rules};
    ghost use Rattle.aio_migrate.specs.Migrators.{migrator_rules};

    ghost rules = { migrator_rules };

    ghost language_rules = { migration_language_rules };

    fn open(gathered: &mut Gathered<Migrator>, line: &[u8]) -> Result<(), Unanswered> {
        if !is_header(line) {
            return Err(Unanswered::Refused(Reason::Header));
        }
        match put(&mut gathered.text, b"trace 2\n") {
            Ok(()) => Ok(()),
            Err(_) => Err(Unanswered::OutOfMemory),
        }
    }

    fn line_limit(&self) -> u64 {
        1_000_000
    }

    fn long_line(&self) -> Reason {
        Reason::Long
    }

    #[inline]
    fn answer(gathered: &mut Gathered<Migrator>, line: &[u8]) -> Result<(), Unanswered> {
        let step = match read_line(line) {
            Ok(step) => step,
            Err(fault) => return Err(Unanswered::Refused(Reason::from(fault))),
        };
        match pass(gathered, step) {
            Ok(()) => Ok(()),
            Err(_) => Err(Unanswered::OutOfMemory),
        }
    }

    fn unended(&self) -> Option<Reason> {
        None
    }

    fn put_held(&self, text: &mut Vec<u8>) -> Result<(), AllocError> {
        if self.times == 0 {
            return Ok(());
        }
        put_repeated(text, self.line.as_slice(), self.times)
    }
}

/// Passes a step: it joins those that are held, or their lines are put at the end of the text and it is
/// held in their place. `AllocError` where memory ran out; then the text is as it was.
fn pass(gathered: &mut Gathered<Migrator>, step: Step) -> Result<(), AllocError>
    requires range { IsInRange step }
    requires bound { gathered.old.answerer.times ≤ repeat_limit }
    ensures passes { Passes gathered.old step result gathered.new }
    ensures bound { OnOk result (gathered.new.answerer.times ≤ repeat_limit) }
{
    gathered.answerer.next.clear();
    let line = Line2::Step(Step2::Plain(step));
    match write_line2(&line, &mut gathered.answerer.next) {
        Ok(()) => {}
        Err(_) => return Err(AllocError),
    }
    if gathered.answerer.joins() {
        gathered.answerer.times += 1;
        return Ok(());
    }
    match gathered.answerer.put_held(&mut gathered.text) {
        Ok(()) => {}
        Err(error) => return Err(error),
    }
    std::mem::swap(&mut gathered.answerer.line, &mut gathered.answerer.next);
    gathered.answerer.times = 1;
    Ok(())
}

/// Compares two texts.
fn are_same(a: &[u8], b: &[u8]) -> bool
    ensures { result ≡ bytes_eq a.now b.now }
{
    a == b
}

/// Puts what stands for so many times a line at the end of a text, which memory that runs out leaves as it
/// was.
fn put_repeated(text: &mut Vec<u8>, line: &[u8], times: u32) -> Result<(), AllocError>
    ensures ok { OnOk result (text.new.items ≡ text.old.items ++ repeated_text line.now times) }
    ensures err { OnErr result (text.new.items ≡ text.old.items) }
{
    let written = text.len();
    match push_repeated(text, line, times) {
        Ok(()) => Ok(()),
        Err(error) => {
            text.truncate(written);
            Err(error)
        }
    }
}

/// The same; where memory runs out a part of it may stand there.
fn push_repeated(text: &mut Vec<u8>, line: &[u8], times: u32) -> Result<(), AllocError>
    ensures pushes { Pushes text.old text.new (repeated_text line.now times) result }
{
    if times == 1 {
        return text.extend_from_slice(line);
    }
    match push_numbered(text, b"repeat ", u64::from(times)) {
        Ok(()) => text.extend_from_slice(line),
        Err(error) => Err(error),
    }
}

/// Puts bytes at the end of a text, or leaves it as it was where memory runs out.
fn put(text: &mut Vec<u8>, bytes: &[u8]) -> Result<(), AllocError>
    ensures ok { OnOk result (text.new.items ≡ text.old.items ++ bytes.now) }
    ensures err { OnErr result (text.new.items ≡ text.old.items) }
{
    let written = text.len();
    match text.extend_from_slice(bytes) {
        Ok(()) => Ok(()),
        Err(error) => {
            text.truncate(written);
            Err(error)
        }
    }
}
