//! The threads of one reactor, each with a table of its own, at the same time.

ghost use Rattle.std.specs.Prelude.{◌≡◌, ◌<◌, ◌≤◌};

use crate::acts::{Act, Came};
use crate::asserts::MEMORY;
use crate::players::{Player, Sleeper};
use aio_base::{Clock, EventWait, Notify};
use aio_devices::{BlockingNotify, BlockingWait, MemNotify, MemWait, blocking_pair};
use aio_park::Thread;
use std::alloc::Global;
use std::process::Abort;
use std::sync::Wait;
use std::thread::{Threads, map_vec};

/// How often a wait looks before it fails. Between two looks other threads run, so that it takes longer
/// where the machine has much to do.
const MOST_LOOKS: u64 = 1_000_000;

/// The first thread of a reactor for so many, which makes the others.
#[derive(Drop)]
pub(crate) struct Team<R: Wait, N: Notify, W: EventWait, C> {
    first: Sleeper<R, N, W, C>,
    outside: Option<BlockingNotify<R>>,
    parkers: u32,
    ghost number: { first.host.member.ops.number ≡ 0 },
    ghost parkers_are: { first.host.shared.words.parkers ≡ parkers },
}

/// A team of a new reactor over these devices.
fn team_over<R: Wait + Copy + Abort, N: Notify + Drop, W: EventWait + Drop, C: Drop>(
    rt: R,
    alloc: Global,
    parkers: u32,
    devices: (N, W),
    clock: C,
    outside: Option<BlockingNotify<R>>,
) -> Team<R, N, W, C>
    requires { (1 ≤ parkers) × (parkers ≤ 16) }
{
    let (notifier, wait) = devices;
    let first = Thread::new(alloc, rt, parkers, wait, notifier, clock).expect(&rt, MEMORY);
    Team {
        first,
        outside,
        parkers,
    }
}

/// A team of a new reactor over devices that answer at once, and give no event.
pub(crate) fn over_instant<R: Wait + Copy + Abort, C: Drop>(
    rt: R,
    alloc: Global,
    parkers: u32,
    clock: C,
) -> Team<R, MemNotify, MemWait, C>
    requires { (1 ≤ parkers) × (parkers ≤ 16) }
{
    let devices = (MemNotify::new(), MemWait::new(0));
    team_over(rt, alloc, parkers, devices, clock, None)
}

/// A team of a new reactor over devices that block until they are told. Where a wake is lost they fail after
/// a count of looks.
fn over_blocking<R: Wait + Copy + Abort, C: Drop>(
    rt: R,
    alloc: Global,
    parkers: u32,
    clock: C,
) -> Team<R, BlockingNotify<R>, BlockingWait<R>, C>
    requires { (1 ≤ parkers) × (parkers ≤ 16) }
{
    let (wait, notifier) = blocking_pair(rt, alloc, MOST_LOOKS).expect(&rt, MEMORY);
    let outside = notifier.twin().expect(&rt, MEMORY);
    team_over(rt, alloc, parkers, (notifier, wait), clock, Some(outside))
}

impl<R: Wait + Copy + Abort, N: Notify + Drop, W: EventWait + Drop, C: Clock + Drop> Team<
    R,
    N,
    W,
    C,
> {
    /// One more player, with this parker, a clock like this one and this table. The first of them makes events
    /// ready. It aborts where the reactor has no such parker.
    fn another<'a>(
        &mut self,
        parker: u32,
        clock_of_others: &C,
        rows: &'a [(Act, Came)],
        late: u32,
    ) -> Player<'a, R, N, W, C> {
        let rt = self.first.host.rt;
        assert!(rt; parker < self.parkers);
        let clock = clock_of_others.twin().expect(&rt, MEMORY);
        Player {
            thread: self.first.another(parker, clock).expect(&rt, MEMORY),
            outside: self.outside.take(),
            rows,
            late,
            parkers: self.parkers,
        }
    }

    /// A player for each other parker, with clocks like this one and this table.
    fn others<'a>(
        &mut self,
        alloc: Global,
        clock_of_others: &C,
        rows: &'a [(Act, Came)],
        late: u32,
    ) -> Vec<Player<'a, R, N, W, C>> {
        let rt = self.first.host.rt;
        let mut players = Vec::new(alloc);
        for parker in 1..self.parkers {
            let player = self.another(parker, clock_of_others, rows, late);
            players.push(player).expect(&rt, MEMORY);
        }
        players
    }

    /// A player for each parker, the first one last. The others have clocks like this one, and a table for
    /// each of them; the one with parker 1 makes events ready.
    pub(crate) fn players<'a>(
        mut self,
        rt: R,
        alloc: Global,
        clock_of_others: &C,
        (rows, rows_of_others): (&'a [(Act, Came)], &'a [(Act, Came)]),
        late: u32,
    ) -> Vec<Player<'a, R, N, W, C>> {
        let mut players = self.others(alloc, clock_of_others, rows_of_others, late);
        let first = Player {
            thread: self.first,
            outside: None,
            rows,
            late,
            parkers: self.parkers,
        };
        players.push(first).expect(&rt, MEMORY);
        players
    }
}

/// Has the threads of a team carry out these tables, all at the same time. The other threads have clocks like
/// this one, and come so many turns late.
fn play_team<
    'a,
    R: Threads + Wait + Sync + Abort,
    N: Notify + Drop + Send,
    W: EventWait + Drop + Send,
    C: Clock + Drop + Send,
>(
    rt: &'a R,
    alloc: Global,
    team: Team<&'a R, N, W, C>,
    clock_of_others: &C,
    tables: (&'a [(Act, Came)], &'a [(Act, Came)]),
    late: u32,
) {
    let players = team.players(rt, alloc, clock_of_others, tables, late);
    let play = |mut player: Player<'_, _, N, W, C>| player.play();
    map_vec(rt, players, &play).expect(rt, MEMORY);
}

/// So many threads over devices that answer at once carry out these tables at the same time, the first thread
/// with the first clock and the first table, each other one with a clock like the second, and the second table.
pub(crate) fn play_instant<'a, R: Threads + Wait + Sync + Abort, C: Clock + Drop + Send>(
    rt: &'a R,
    alloc: Global,
    threads: u32,
    clocks: (C, C),
    tables: (&'a [(Act, Came)], &'a [(Act, Came)]),
)
    requires { (1 ≤ threads) × (threads ≤ 16) }
{
    let (clock, clock_of_others) = clocks;
    let team = over_instant(rt, alloc, threads, clock);
    play_team(rt, alloc, team, &clock_of_others, tables, 0);
}

/// The same over devices that block until they are told. The other threads come so many turns late.
pub(crate) fn play_blocking<'a, R: Threads + Wait + Sync + Abort, C: Clock + Drop + Send>(
    rt: &'a R,
    alloc: Global,
    threads: u32,
    clocks: (C, C),
    tables: (&'a [(Act, Came)], &'a [(Act, Came)]),
    late: u32,
)
    requires { (1 ≤ threads) × (threads ≤ 16) }
{
    let (clock, clock_of_others) = clocks;
    let team = over_blocking(rt, alloc, threads, clock);
    play_team(rt, alloc, team, &clock_of_others, tables, late);
}
