//! What no clause says: worked rows, a notifier that is called and one that fails, and threads that park.

ghost use Rattle.std.specs.Prelude.{◌≡◌, ◌<◌, if◌then◌else◌};
ghost use Rattle.std.specs.Thread.{IsSync};
ghost use Rattle.aio_rules.specs.declared.seats.Mode.TheVariants as mode;
ghost use Rattle.aio_words.specs.Seats.{Belongs};

use crate::asserts::{MEMORY, may_be_sent, may_be_shared, same, same_in};
use aio_base::{CountFault, Notify, Waker};
use aio_devices::{FailingNotify, MemNotify};
use aio_words::{Pass, RoundSeat, Words};
use std::alloc::Global;
use std::process::Abort;
use std::sync::Wait;
use std::sync::atomic::{AtomicU64, Ordering};
use std::thread;
use std::thread::{Threads, join};

/// The first fault of a notifier.
const FIRST_FAULT: CountFault = CountFault {
    before: 0,
    after: 1,
};

// How often each of the 64 slots is woken while its thread parks.
const ROUNDS: u64 = 200;

/// What is tried at new words of two parkers, by their round seat and their first pass.
#[derive(Clone, Copy)]
enum Trial {
    /// Wakes slots 3 and 5 of parker 0 and one of a parker that is not there, and takes the mask twice.
    TakeTogether,
    /// Wakes slot 0 of parker 0 in a wait, and looks again after the wait.
    WakeAWait,
    /// Notifies before a wait, wakes and notifies in it, and notifies after it.
    TellAWait,
    /// Wakes slot 7 in a wait, by a notifier that fails, and takes the mask.
    WakeUntold,
    /// Begins two rounds.
    BeginTwo,
    /// Wakes slot 40 of parker 1, and then parks there.
    ParkAfterAWake,
    /// Parks there in a thread, and wakes the slot from another.
    ParkBeside,
    /// Parks on parker 0 in a thread, and wakes its 64 slots from two others.
    WakeFromTwo,
}

/// What comes of it.
#[derive(Clone, Copy)]
enum Came {
    /// No wake failed, the two takes found these masks, and the notifier was called so often.
    Taken([u64; 2], u64),
    /// The notifier was called so often, and the second look found this mask.
    Found(u64, u64),
    /// The notifier was called so often by then: after two notifies; after two wakes in a wait; after one more
    /// notify in it; and after one when it was over.
    Told([u64; 4]),
    /// The wake met this fault, and the mask was this one.
    Untold(CountFault, u64),
    /// These rounds began, and these were the numbers of rounds that the first pass found before, that the round
    /// seat and a later pass found afterwards, and that the first one found when it had taken in the later one.
    Begun([u64; 2], [u64; 4]),
    /// No wake failed, and the park found this mask.
    Parked(u64),
    /// So many rounds went by in each of which all slots were woken.
    Gathered(u64),
    /// Something else.
    Other,
}

/// What came, as it is compared: which it is, and its numbers.
fn told(came: Came) -> (&'static str, [u64; 2], [u64; 4]) {
    match came {
        Came::Taken(masks, calls) => ("taken", masks, [calls, 0, 0, 0]),
        Came::Found(calls, mask) => ("found", [calls, mask], [0; 4]),
        Came::Told(calls) => ("told", [0; 2], calls),
        Came::Untold(fault, mask) => ("untold", [fault.before, fault.after], [mask, 0, 0, 0]),
        Came::Begun(rounds, seen) => ("begun", rounds, seen),
        Came::Parked(mask) => ("parked", [mask, 0], [0; 4]),
        Came::Gathered(rounds) => ("gathered", [rounds, 0], [0; 4]),
        Came::Other => ("other", [0; 2], [0; 4]),
    }
}

/// Wakes these slots in order. Whether no call failed.
fn wake_each<N: Notify>(words: &Words, p: &mut Pass, slots: &[u32], notifier: &mut N) -> bool
    requires { Belongs words.now p.old }
    ensures { p.new.words ≡ p.old.words }
{
    let mut told = true;
    for slot in slots {
        let answer = words.wake(p, Waker(*slot), notifier);
        told = told && answer.is_ok();
    }
    told
}

/// Goes to sleep for parker 0, up to the wait itself. Whether the seat waits, and does not just block.
fn goes_to_wait(words: &Words, s: &mut RoundSeat) -> bool
    requires { Belongs words.now s.old × (s.old.view.mode ≡ mode.Idle) × (0 < words.now.parkers) }
    ensures words { s.new.words ≡ s.old.words }
    ensures mode { s.new.view.mode ≡ (if result then mode.Wait 0 else mode.Block 0) }
{
    words.block(s, 0);
    if words.take_or_wait(s).is_some() {
        return false;
    }
    true
}

/// Wakes slots 3 and 5 of parker 0 and one of parker 2, and takes the mask twice.
fn take_together(words: &Words, p: &mut Pass) -> Came
    requires { Belongs words.now p.old × (1 < words.now.parkers) }
{
    let mut notifier = MemNotify::new();
    if !wake_each(words, p, &[3, 128, 5], &mut notifier) {
        return Came::Other;
    }
    let masks = [words.take(p, 0), words.take(p, 0)];
    Came::Taken(masks, notifier.calls())
}

/// Goes to wait for parker 0, wakes its slot 0, and looks again after the wait.
fn wake_a_wait(words: &Words, s: &mut RoundSeat, p: &mut Pass) -> Came
    requires round { Belongs words.now s.old × (s.old.view.mode ≡ mode.Idle) }
    requires parker { 0 < words.now.parkers }
    requires pass { Belongs words.now p.old }
{
    let mut notifier = MemNotify::new();
    if !goes_to_wait(words, s) {
        return Came::Other;
    }
    wake_each(words, p, &[0], &mut notifier);
    words.waited(s);
    match words.take_or_wait(s) {
        Some(found) => {
            words.unblock(s);
            Came::Found(notifier.calls(), found)
        }
        None => Came::Other,
    }
}

/// Notifies so often. How often it was called by then, by its own count.
fn notify_times<N: Notify>(words: &Words, p: &mut Pass, times: u32, notifier: &mut N) -> u64
    requires { Belongs words.now p.old }
    ensures { p.new.words ≡ p.old.words }
{
    for _ in 0..times {
        let _answer = words.notify(p, notifier);
    }
    notifier.calls()
}

/// Notifies twice before a wait of parker 0, wakes two slots and notifies once in it, and notifies once after it.
fn tell_a_wait(words: &Words, s: &mut RoundSeat, p: &mut Pass) -> Came
    requires round { Belongs words.now s.old × (s.old.view.mode ≡ mode.Idle) }
    requires parker { 0 < words.now.parkers }
    requires pass { Belongs words.now p.old }
{
    let mut notifier = MemNotify::new();
    let before = notify_times(words, p, 2, &mut notifier);
    words.waited(s);
    if !goes_to_wait(words, s) {
        return Came::Other;
    }
    wake_each(words, p, &[1, 2], &mut notifier);
    let woken = notifier.calls();
    let told_again = notify_times(words, p, 1, &mut notifier);
    words.waited(s);
    let after = notify_times(words, p, 1, &mut notifier);
    Came::Told([before, woken, told_again, after])
}

/// Goes to wait, wakes slot 7 by a twin of this notifier, and takes the mask.
fn wake_untold<N: Notify + Drop>(
    words: &Words,
    s: &mut RoundSeat,
    p: &mut Pass,
    notifier: &N,
) -> Came
    requires round { Belongs words.now s.old × (s.old.view.mode ≡ mode.Idle) }
    requires parker { 0 < words.now.parkers }
    requires pass { Belongs words.now p.old }
{
    let Ok(mut twin) = notifier.twin() else {
        return Came::Other;
    };
    if !goes_to_wait(words, s) {
        return Came::Other;
    }
    match words.wake(p, Waker(7), &mut twin) {
        Ok(()) => Came::Other,
        Err(fault) => Came::Untold(fault, words.take(p, 0)),
    }
}

/// Begins two rounds, and has the first pass take in a later one.
fn begin_two(words: &Words, s: &mut RoundSeat, first: &mut Pass) -> Came
    requires { Belongs words.now s.old × Belongs words.now first.old }
{
    let none_yet = words.ticker(first);
    let begun = [words.bump(s).unwrap_or(0), words.bump(s).unwrap_or(0)];
    let mut later = words.pass(first);
    let of_round = words.rounds(s);
    let of_later = words.ticker(&mut later);
    words.join(first, later);
    Came::Begun(begun, [none_yet, of_round, of_later, words.ticker(first)])
}

/// Wakes slot 40 of parker 1, and then parks there.
fn park_after_a_wake<R: Wait>(rt: &R, words: &Words, p: &mut Pass) -> Came
    requires { Belongs words.now p.old × (1 < words.now.parkers) }
{
    if !wake_each(words, p, &[104], &mut MemNotify::new()) {
        return Came::Other;
    }
    Came::Parked(words.park(rt, p, 1))
}

fn let_others_run() {
    for _ in 0..1_000u32 {
        thread::yield_now();
    }
}

/// Parks on parker 1 in a thread, and wakes its slot 40 from another, late enough that the first mostly
/// sleeps by then. What the park answers, and whether the wake did not fail.
fn parked_beside<R: Threads + Wait + Sync>(
    rt: &R,
    words: &Words,
    mine: &mut Pass,
    other: &mut Pass,
) -> (u64, bool)
    requires passes { Belongs words.now mine.old × Belongs words.now other.old }
    requires parker { (1 < words.now.parkers) × IsSync R.row }
{
    join(
        rt,
        || -> u64
            requires { Belongs words.now other.now × (1 < words.now.parkers) }
        { words.park(rt, other, 1) },
        || -> bool
            requires { Belongs words.now mine.now }
        {
            let_others_run();
            wake_each(words, mine, &[104], &mut MemNotify::new())
        },
    )
}

/// The same with one more pass.
fn park_beside<R: Threads + Wait + Sync>(rt: &R, words: &Words, p: &mut Pass) -> Came
    requires { Belongs words.now p.old × (1 < words.now.parkers) }
{
    let mut other = words.pass(p);
    match parked_beside(rt, words, p, &mut other) {
        (found, true) => Came::Parked(found),
        _ => Came::Other,
    }
}

/// Parks until all 64 slots of parker 0 were woken, each at least once.
fn gather<R: Wait>(rt: &R, words: &Words, p: &mut Pass) -> bool
    requires { Belongs words.now p.old × (0 < words.now.parkers) }
    ensures { p.new.words ≡ p.old.words }
{
    let mut woken = 0;
    for _ in 0..64u32 {
        if woken == u64::MAX {
            break;
        }
        woken |= words.park(rt, p, 0);
    }
    woken == u64::MAX
}

/// Parks until each slot was woken in each round, and says after each round that it did. How often all
/// slots were woken.
fn gather_rounds<R: Wait>(rt: &R, words: &Words, p: &mut Pass, gathered: &AtomicU64) -> u64
    requires { Belongs words.now p.old × (0 < words.now.parkers) }
{
    let mut whole = 0;
    for round in 0..ROUNDS {
        if gather(rt, words, p) {
            whole = round + 1;
        }
        gathered.store(round + 1, Ordering::SeqCst);
    }
    whole
}

/// Wakes every other slot of parker 0, from this one on.
fn wake_every_other(words: &Words, p: &mut Pass, first: u32)
    requires { Belongs words.now p.old × (first < 2) }
    ensures { p.new.words ≡ p.old.words }
{
    let mut notifier = MemNotify::new();
    for i in 0..32u32 {
        let _told = words.wake(p, Waker(2 * i + first), &mut notifier);
    }
}

fn await_round(gathered: &AtomicU64, round: u64) {
    for _ in 0..u64::MAX {
        if gathered.load(Ordering::SeqCst) >= round {
            return;
        }
        thread::yield_now();
    }
}

/// Wakes every other slot once a round, and goes on only when all slots of the round were gathered.
fn wake_rounds(words: &Words, p: &mut Pass, gathered: &AtomicU64, first: u32) -> bool
    requires { Belongs words.now p.old × (first < 2) }
{
    for round in 0..ROUNDS {
        wake_every_other(words, p, first);
        await_round(gathered, round + 1);
    }
    true
}

/// One thread parks, and two others wake its slots.
fn wake_from_two<R: Threads + Wait + Sync>(
    rt: &R,
    words: &Words,
    parks: &mut Pass,
    even: &mut Pass,
    odd: &mut Pass,
) -> u64
    requires parks { Belongs words.now parks.old × (0 < words.now.parkers) }
    requires wakes { Belongs words.now even.old × Belongs words.now odd.old × IsSync R.row }
{
    let gathered = AtomicU64::new(0);
    let (whole, _woken) = join(
        rt,
        || -> u64
            requires { Belongs words.now parks.now × (0 < words.now.parkers) }
        { gather_rounds(rt, words, parks, &gathered) },
        || -> bool
            requires { Belongs words.now even.now × Belongs words.now odd.now × IsSync R.row }
        { wake_both(rt, words, even, odd, &gathered) },
    );
    whole
}

fn wake_both<R: Threads + Sync>(
    rt: &R,
    words: &Words,
    even: &mut Pass,
    odd: &mut Pass,
    gathered: &AtomicU64,
) -> bool
    requires { Belongs words.now even.old × Belongs words.now odd.old × IsSync R.row }
{
    let (first, second) = join(
        rt,
        || -> bool
            requires { Belongs words.now even.now }
        { wake_rounds(words, even, gathered, 0) },
        || -> bool
            requires { Belongs words.now odd.now }
        { wake_rounds(words, odd, gathered, 1) },
    );
    first && second
}

/// The same with two more passes.
fn gather_from_two<R: Threads + Wait + Sync>(rt: &R, words: &Words, p: &mut Pass) -> Came
    requires { Belongs words.now p.old × (0 < words.now.parkers) }
{
    let mut even = words.pass(p);
    let mut odd = words.pass(&mut even);
    Came::Gathered(wake_from_two(rt, words, p, &mut even, &mut odd))
}

/// Does this at new words.
fn tried<R: Threads + Wait + Sync>(
    rt: &R,
    words: &Words,
    s: &mut RoundSeat,
    p: &mut Pass,
    trial: Trial,
) -> Came
    requires round { Belongs words.now s.old × (s.old.view.mode ≡ mode.Idle) }
    requires parker { 1 < words.now.parkers }
    requires pass { Belongs words.now p.old }
{
    match trial {
        Trial::TakeTogether => take_together(words, p),
        Trial::WakeAWait => wake_a_wait(words, s, p),
        Trial::TellAWait => tell_a_wait(words, s, p),
        Trial::WakeUntold => wake_untold(words, s, p, &FailingNotify::new()),
        Trial::BeginTwo => begin_two(words, s, p),
        Trial::ParkAfterAWake => park_after_a_wake(rt, words, p),
        Trial::ParkBeside => park_beside(rt, words, p),
        Trial::WakeFromTwo => gather_from_two(rt, words, p),
    }
}

/// Does this at new words of two parkers.
fn try_anew<R: Threads + Wait + Sync + Abort>(rt: &R, alloc: Global, trial: Trial) -> Came {
    let (words, mut seat, mut pass) = Words::new(alloc, 2).expect(rt, MEMORY);
    may_be_shared(&words);
    may_be_sent(&seat);
    may_be_sent(&pass);
    tried(rt, &words, &mut seat, &mut pass, trial)
}

/// What is tried at new words of two parkers, and what comes of it.
struct Row {
    shows: &'static str,
    trial: Trial,
    came: Came,
}

const ROWS: [Row; 8] = [
    Row {
        shows: "slots of a parker are taken together",
        trial: Trial::TakeTogether,
        came: Came::Taken([40, 0], 0),
    },
    Row {
        shows: "one wake ends a wait",
        trial: Trial::WakeAWait,
        came: Came::Found(1, 1),
    },
    Row {
        shows: "a wait is told once",
        trial: Trial::TellAWait,
        came: Came::Told([1, 2, 2, 3]),
    },
    Row {
        shows: "a failing notifier leaves the slot woken",
        trial: Trial::WakeUntold,
        came: Came::Untold(FIRST_FAULT, 128),
    },
    Row {
        shows: "passes see each round that began",
        trial: Trial::BeginTwo,
        came: Came::Begun([1, 2], [0, 2, 2, 2]),
    },
    Row {
        shows: "a wake before the park is found",
        trial: Trial::ParkAfterAWake,
        came: Came::Parked(1 << 40),
    },
    Row {
        shows: "a wake of a high slot ends a sleep",
        trial: Trial::ParkBeside,
        came: Came::Parked(1 << 40),
    },
    Row {
        shows: "no wake of 64 slots is lost",
        trial: Trial::WakeFromTwo,
        came: Came::Gathered(ROUNDS),
    },
];

/// Asserts what comes of it at new words of two parkers.
fn plays<R: Threads + Wait + Sync + Abort>(rt: &R, alloc: Global, row: &Row) {
    let came = try_anew(rt, alloc, row.trial);
    same_in(rt, row.shows, told(came), told(row.came));
}

#[test]
fn wakes_come_once_to_waits_and_parks(rt: HostRuntime) {
    for row in &ROWS {
        plays(&rt, rt.alloc(), row);
    }
}

/// What the wakes of slots 0 and 63 of the one parker and of a slot behind it leave in new words.
fn woken_at_one(rt: &impl Abort, alloc: Global) -> (bool, u64) {
    let (words, _seat, mut pass) = Words::new(alloc, 1).expect(rt, MEMORY);
    let mut notifier = MemNotify::new();
    let told = wake_each(&words, &mut pass, &[0, 64, 63], &mut notifier);
    (told, words.take(&mut pass, 0))
}

#[test]
fn words_of_one_parker_have_64_slots(rt: HostRuntime) {
    same(&rt, woken_at_one(&rt, rt.alloc()), (true, 1 | 1 << 63));
}
