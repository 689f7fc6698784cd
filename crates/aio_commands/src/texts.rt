//! The commands that write a text of their own: the trace that a number describes, and what its run
//! comes to; and how the program ends by a text. They read no input.

ghost use Rattle.std.specs.Prelude.{◌≡◌, ℕ, ◌<◌, ◌≤◌, ◌^◌, ◌++◌, ◌⊎◌, IfOk, OnOk, decimal};
ghost use Rattle.aio_base.specs.Devices.{TellsFaults};
ghost use Rattle.aio_base.specs.Generated.{counts_line, generated_steps, run_counts};
ghost use Rattle.aio_base.specs.Lines.{IsInRange, NamesNoPriority, written_line};
ghost use Rattle.aio_base.specs.Text.{ended_line};
ghost use Rattle.aio_bytes.specs.Sinks.{HasFailed, Writes};
ghost use Rattle.aio_commands.specs.Commands.{TellsCounts, WritesText, is_write_fault};
ghost use Rattle.aio_commands.specs.Commands.{header_text, summary_text, trace_text, why_written};
ghost use Rattle.aio_commands.specs.Texts.{Buffers};
ghost use Rattle.aio_replay.specs.Driving.{BlockWent, Causes};
ghost use Rattle.aio_replay.specs.Summing.{counts_told};

use crate::status::Why;
use aio_base::{CountFault, OutOfMemory, Step};
use aio_bytes::{BLOCK, Sink, SinkRefusal, flush, write_all};
use aio_generator::gen_steps;
use aio_replay::{Summary, summary};
use aio_writing::write_line;
use itoa::Buffer;
use std::alloc::{AllocError, Global};

/// Room for the line that fills a block, and for the one line of a summary.
const LINE_ROOM: usize = 256;

/// The command `gen`: writes the trace of the first `n` steps that the seed gives. It is handed no
/// runtime, so it can't wait.
pub fn run_gen<K: Sink>(alloc: Global, n: u32, seed: u64, out: &mut K) -> Why
    requires few { n ≤ 999999 }
    requires seed { seed < 2 ^ 48 }
    ensures writes { WritesText result (K.contents out.old) (K.contents out.new)
        (trace_text (generated_steps n seed)) }
    ensures counts { (reads : ℕ) → TellsCounts result reads reads
        (K.fault_count out.old) (K.fault_count out.new) }
    ensures cause { Causes K.fault_count K.is_sure out.old out.new (is_write_fault result) }
{
    let before = out.faults();
    let sent = write_trace(alloc, n, seed, out);
    cause_of_text(sent, before, out.faults())
}

/// Writes the trace of the first `n` steps that the seed gives, a block at a time. A refusal of the
/// output, or want of memory, leaves a front part of it.
fn write_trace<K: Sink>(alloc: Global, n: u32, seed: u64, out: &mut K) -> Result<(), SinkRefusal>
    requires few { n ≤ 999999 }
    requires seed { seed < 2 ^ 48 }
    ensures written { Writes result (K.contents out.old) (K.contents out.new)
        (trace_text (generated_steps n seed)) }
    ensures cause { TellsFaults K.fault_count K.is_sure out.old out.new (HasFailed result) }
{
    let mut text = match header(alloc) {
        Ok(text) => text,
        Err(_) => return Err(SinkRefusal::OutOfMemory),
    };
    for step in gen_steps(n, seed) {
        match buffer_line(&step, &mut text, out) {
            Ok(()) => {}
            Err(refusal) => return Err(refusal),
        }
    }
    flush(&mut text, out)
}

/// A block of output that holds the header of a trace, with room for the lines that fill it.
fn header(alloc: Global) -> Result<Vec<u8>, AllocError>
    ensures { IfOk result (λ text. text.items ≡ ended_line header_text) }
{
    let Ok(mut text) = Vec::with_capacity(alloc, BLOCK + LINE_ROOM) else {
        return Err(AllocError);
    };
    text.extend_from_slice(b"trace 1\n")?;
    Ok(text)
}

/// Writes the line of a step at the end of the text, and the text to the output where it fills a
/// block, and not before. Where memory runs out, the text before is written as far as the output
/// takes it.
fn buffer_line<K: Sink>(step: &Step, text: &mut Vec<u8>, out: &mut K) -> Result<(), SinkRefusal>
    requires range { IsInRange step.now }
    requires names { NamesNoPriority step.now }
    ensures buffers { Buffers result (K.contents out.old) (K.contents out.new)
        text.old.items text.new.items (ended_line (written_line step.now)) }
    ensures blocks { OnOk result ((out.new ≡ out.old)
        ⊎ BlockWent (K.contents out.old) (K.contents out.new)) }
    ensures cause { TellsFaults K.fault_count K.is_sure out.old out.new (HasFailed result) }
{
    if write_line(step, text).is_err() {
        let _ = flush(text, out);
        return Err(SinkRefusal::OutOfMemory);
    }
    if text.len() < BLOCK {
        return Ok(());
    }
    flush(text, out)
}

/// The command `sum`: runs the first `n` steps that the seed gives, and writes what their run comes to.
/// It is handed no runtime, so it can't wait.
pub fn run_sum<K: Sink>(alloc: Global, n: u32, seed: u64, out: &mut K) -> Why
    requires few { n ≤ 999999 }
    requires seed { seed < 2 ^ 48 }
    ensures writes { WritesText result (K.contents out.old) (K.contents out.new)
        (summary_text (generated_steps n seed)) }
    ensures counts { (reads : ℕ) → TellsCounts result reads reads
        (K.fault_count out.old) (K.fault_count out.new) }
    ensures cause { Causes K.fault_count K.is_sure out.old out.new (is_write_fault result) }
{
    let before = out.faults();
    let sent = write_summary(alloc, n, seed, out);
    cause_of_text(sent, before, out.faults())
}

/// Runs the first `n` steps that the seed gives, and writes the line of what their run comes to. A
/// refusal of the output, or want of memory, leaves a front part of it.
fn write_summary<K: Sink>(alloc: Global, n: u32, seed: u64, out: &mut K) -> Result<(), SinkRefusal>
    requires few { n ≤ 999999 }
    requires seed { seed < 2 ^ 48 }
    ensures written { Writes result (K.contents out.old) (K.contents out.new)
        (summary_text (generated_steps n seed)) }
    ensures cause { TellsFaults K.fault_count K.is_sure out.old out.new (HasFailed result) }
{
    let counts = match counts_of_run(alloc, n, seed) {
        Ok(counts) => counts,
        Err(_) => return Err(SinkRefusal::OutOfMemory),
    };
    match line_of(alloc, &counts) {
        Ok(line) => write_all(out, line.as_slice()),
        Err(_) => Err(SinkRefusal::OutOfMemory),
    }
}

/// What the run of the first `n` steps comes to. It stands apart from what writes that, so that the loop over
/// steps has the registers to itself. `OutOfMemory` where memory ran out for a step.
#[inline(never)]
fn counts_of_run(alloc: Global, n: u32, seed: u64) -> Result<Summary, OutOfMemory>
    requires few { n ≤ 999999 }
    requires seed { seed < 2 ^ 48 }
    ensures { IfOk result (λ counts. counts_told counts ≡ run_counts (generated_steps n seed)) }
{
    summary(alloc, n, seed)
}

/// The line of a summary, with its line feed.
fn line_of(alloc: Global, counts: &Summary) -> Result<Vec<u8>, AllocError>
    ensures { IfOk result (λ line. line.items ≡ ended_line (counts_line (counts_told counts.now))) }
{
    let Ok(mut line) = Vec::with_capacity(alloc, LINE_ROOM) else {
        return Err(AllocError);
    };
    let Ok(()) = push_count(&mut line, b"steps ", counts.steps) else {
        return Err(AllocError);
    };
    let Ok(()) = push_count(&mut line, b" ready ", counts.ready) else {
        return Err(AllocError);
    };
    let Ok(()) = push_count(&mut line, b" pending ", counts.pending) else {
        return Err(AllocError);
    };
    let Ok(()) = push_count(&mut line, b" wakes ", counts.wakes) else {
        return Err(AllocError);
    };
    let Ok(()) = push_count(&mut line, b" rounds ", counts.rounds) else {
        return Err(AllocError);
    };
    let Ok(()) = push_count(&mut line, b" refused ", counts.refused) else {
        return Err(AllocError);
    };
    let Ok(()) = line.push(b'\n') else {
        return Err(AllocError);
    };
    Ok(line)
}

/// Writes a word and a count in decimal digits at the end of a line.
pub(crate) fn push_count(line: &mut Vec<u8>, word: &[u8], count: u64) -> Result<(), AllocError>
    ensures { OnOk result (line.new.items ≡ line.old.items ++ (word.now ++ decimal count)) }
{
    let mut digits = Buffer::new();
    let Ok(()) = line.extend_from_slice(word) else {
        return Err(AllocError);
    };
    line.extend_from_slice(digits.format(count).as_bytes())
}

/// Why the program ends, where the output answered so to a text and had these counts of faults before
/// and after it.
pub(crate) fn cause_of_text(sent: Result<(), SinkRefusal>, before: u64, after: u64) -> Why
    ensures { result ≡ why_written sent (record { before = before; after = after }) }
{
    match sent {
        Ok(()) => Why::Done,
        Err(SinkRefusal::Failed) => Why::WriteFault(CountFault { before, after }),
        Err(SinkRefusal::OutOfMemory) => Why::OutOfMemory,
    }
}
