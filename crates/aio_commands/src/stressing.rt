//! The command `stress`, as the program ends by it, and its line.

ghost use Rattle.std.specs.Prelude.{◌≡◌, ℕ, ◌*◌, ◌<◌, ◌≤◌, ◌^◌, IfOk};
ghost use Rattle.aio_base.specs.Devices.{TellsFaults};
ghost use Rattle.aio_bytes.specs.Sinks.{HasFailed, Writes};
ghost use Rattle.aio_commands.specs.Commands.{TellsCounts, WritesText, is_write_fault};
ghost use Rattle.aio_commands.specs.Stressing.{TouchesSpawner, stress_line, stress_text};
ghost use Rattle.aio_record.specs.Makers.{steps_in};
ghost use Rattle.aio_replay.specs.Driving.{Causes};

use crate::status::Why;
use crate::texts::{cause_of_text, push_count};
use aio_base::{Port, Spawner};
use aio_bytes::{Sink, SinkRefusal, write_all};
use aio_jobs::Devices;
use aio_record::{StressCell, stress};
use std::alloc::{AllocError, Global};
use std::sync::Wait;
use std::thread::Threads;

/// Room for the line.
const LINE_ROOM: usize = 64;

/// The command `stress`: lets two jobs make `calls` calls each on shared cells, drawn from the seed and from
/// the next one, by the lent spawner, and writes how many were made and recorded. It may wait.
pub fn run_stress<R: Wait + Threads + Sync + Send + Copy, K: Sink, D: Devices>(
    rt: &R,
    alloc: Global,
    calls: u32,
    seed: u64,
    out: &mut K,
    devices: &mut D,
) -> Why
where
    <D::P as Port>::C: Send + Drop,
    requires few { calls ≤ 100000 }
    requires seed { seed < 2 ^ 48 }
    ensures writes { WritesText result (K.contents out.old) (K.contents out.new)
        (stress_text calls) }
    ensures counts { (reads : ℕ) → TellsCounts result reads reads
        (K.fault_count out.old) (K.fault_count out.new) }
    ensures cause { Causes K.fault_count K.is_sure out.old out.new (is_write_fault result) }
    ensures spawner { TouchesSpawner (D.six devices.old) (D.six devices.new) }
{
    let before = out.faults();
    let sent = write_stress(rt, alloc, &mut devices.lend().spawner, calls, seed, out);
    cause_of_text(sent, before, out.faults())
}

/// Runs the two jobs, and writes their line. A refusal of the output, or want of memory, leaves a front
/// part of it.
fn write_stress<R: Wait + Threads + Sync + Send + Copy, T: Spawner, K: Sink>(
    rt: &R,
    alloc: Global,
    spawner: &mut T,
    calls: u32,
    seed: u64,
    out: &mut K,
) -> Result<(), SinkRefusal>
    requires few { calls ≤ 100000 }
    requires seed { seed < 2 ^ 48 }
    ensures written { Writes result (K.contents out.old) (K.contents out.new) (stress_text calls) }
    ensures cause { TellsFaults K.fault_count K.is_sure out.old out.new (HasFailed result) }
{
    let cells = match stress(rt, alloc, spawner, calls, seed) {
        Ok(cells) => cells,
        Err(_) => return Err(SinkRefusal::OutOfMemory),
    };
    let made = 2 * u64::from(calls);
    match line_of(alloc, made, steps_of(cells.as_slice())) {
        Ok(line) => write_all(out, line.as_slice()),
        Err(_) => Err(SinkRefusal::OutOfMemory),
    }
}

/// How many steps cells have together.
fn steps_of(cells: &[StressCell]) -> u64
    requires { steps_in cells.now < 2 ^ 64 }
    ensures { result ≡ steps_in cells.now }
{
    let mut steps = 0;
    for cell in cells {
        steps += cell.cell().steps() as u64;
    }
    steps
}

/// The line of so many calls and so many steps, with its line feed.
fn line_of(alloc: Global, made: u64, replayed: u64) -> Result<Vec<u8>, AllocError>
    ensures { IfOk result (λ line. line.items ≡ stress_line made replayed) }
{
    let Ok(mut line) = Vec::with_capacity(alloc, LINE_ROOM) else {
        return Err(AllocError);
    };
    let Ok(()) = push_count(&mut line, b"calls ", made) else {
        return Err(AllocError);
    };
    let Ok(()) = push_count(&mut line, b" replayed ", replayed) else {
        return Err(AllocError);
    };
    let Ok(()) = line.push(b'\n') else {
        return Err(AllocError);
    };
    Ok(line)
}
