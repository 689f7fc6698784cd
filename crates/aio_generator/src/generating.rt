//! The steps of a trace that a number describes.

ghost use Rattle.std.specs.Prelude.{◌≡◌, ◌≢◌, ◌+◌, ◌%◌, ◌^◌, ◌<◌, ◌≤◌, [], ◌∷◌};
ghost use Rattle.std.specs.Iterator.{YieldsFirst, item_count};
ghost use Rattle.aio_base.specs.Generated.{after_draws, dir_drawn, draw, drawn, generated_by, generated_of, generated_steps, interest_drawn, listener_drawn, next_state, timer_drawn};
ghost use Rattle.aio_generator.specs.Generating.{HandsNext, LeavesRoom, StepsLeft, steps_left};

use aio_base::{Dir, Draws, Event, Interest, Key, Moment, Step, Waker};
use aio_trace::{HandsOut, StepTaker};
use std::marker::Model;

/// The steps that a seed gives, one after the other. Seen by contracts as how many are left, and
/// the generator that they come from: the state of its draws, the moment to which it set the clock
/// last, and how many listeners and timers it made. It takes no memory.
#[derive(Clone, Copy, Debug)]
pub struct Steps {
    left: u32,
    draws: Draws,
    moment: u64,
    listeners: u32,
    timers: u32,
}

impl Model for Steps {
    ghost Value = { StepsLeft };

    ghost view = { λ s. record {
      left = s.left;
      generator = record {
        state = s.draws;
        moment = s.moment;
        listeners = s.listeners;
        timers = s.timers;
      };
    } };

    ghost invariant = { λ s. LeavesRoom s.left (record {
      state = s.draws;
      moment = s.moment;
      listeners = s.listeners;
      timers = s.timers;
    }) };

    ghost inverse = { λ v. record {
      left = v.left;
      draws = v.generator.state;
      moment = v.generator.moment;
      listeners = v.generator.listeners;
      timers = v.generator.timers;
    } };
}

/// The first `n` steps that the seed gives. It takes no memory.
#[tactic(auto, unfolding(aio_base::specs::Generated::generated_steps))]
pub fn gen_steps(n: u32, seed: u64) -> Steps
    requires few { n ≤ 999999 }
    requires seed { seed < 2 ^ 48 }
    ensures { steps_left result ≡ generated_steps n seed }
{
    Steps {
        left: n,
        draws: Draws::new(seed),
        moment: 0,
        listeners: 0,
        timers: 0,
    }
}

impl Iterator for Steps {
    type Item = Step;

    ghost next_gives = { YieldsFirst steps_left };

    ghost remaining = { item_count steps_left };

    #[inline(always)]
    fn next(&mut self) -> Option<Step> {
        if self.left == 0 {
            return None;
        }
        Some(self.next_step())
    }
}

impl Steps {
    /// The next step, where one is left: for a caller that knows how many there are. It takes no memory.
    #[inline(always)]
    pub fn next_step(&mut self) -> Step
        requires { steps_left self.old ≢ [] }
        ensures step { steps_left self.old ≡ result ∷ steps_left self.new }
        ensures left { self.new.left + 1 ≡ self.old.left }
    {
        self.hand_next(&mut HandsOut)
    }

    /// Hands the next step, where one is left, to a taker in the arm that drew it, and answers what
    /// the taker answered. It takes no memory itself.
    #[inline(always)]
    pub fn hand_next<T: StepTaker>(&mut self, taker: &mut T) -> T::Answer
        requires some { steps_left self.old ≢ [] }
        requires ready { T.is_ready taker.old }
        ensures taken { HandsNext T.takes taker.old result taker.new
            (steps_left self.old) (steps_left self.new) }
        ensures left { self.new.left + 1 ≡ self.old.left }
    {
        self.left -= 1;
        let kind = self.draws.draw() % 16;
        self.hand(kind, taker)
    }

    /// Hands the step of a kind to a taker, its numbers drawn from left to right.
    #[inline(always)]
    fn hand<T: StepTaker>(&mut self, kind: u32, taker: &mut T) -> T::Answer
        requires kind { kind < 16 }
        requires room { LeavesRoom (self.old.left + 1) self.old.generator }
        requires ready { T.is_ready taker.old }
        ensures left { self.new.left ≡ self.old.left }
        ensures taken { T.takes taker.old (generated_of kind self.old.generator).step
            result taker.new }
        ensures after { self.new.generator ≡ (generated_of kind self.old.generator).after }
    {
        match kind {
            0 => taker.take(Step::Add),
            1..=4 => taker.take(Step::Poll(self.key(), self.direction(), self.waker())),
            5 => {
                self.listeners += 1;
                taker.take(Step::New(self.key(), self.direction()))
            }
            6 => taker.take(Step::StepEar(self.listener(), self.waker())),
            7 => taker.take(Step::DropEar(self.listener())),
            8 => {
                self.timers += 1;
                let later = u64::from(self.draws.draw() % 1000);
                taker.take(Step::TimerAt(moment_at(self.moment + later)))
            }
            9 => taker.take(Step::Tick(self.timer(), self.waker())),
            10 => taker.take(Step::End(self.timer())),
            11 => {
                self.moment += u64::from(self.draws.draw() % 100);
                taker.take(Step::Now(moment_at(self.moment)))
            }
            12 | 13 => taker.take(Step::Note(Event {
                key: self.key(),
                on: self.interest(),
            })),
            14 | 15 => taker.take(Step::React),
            _ => unreachable!(),
        }
    }

    /// A key below 8.
    fn key(&mut self) -> Key
        ensures value { result.0 ≡ draw 0 self.old.generator.state % 8 }
        ensures left { self.new.left ≡ self.old.left }
        ensures after { self.new.generator ≡ after_draws 1 self.old.generator }
    {
        Key(self.draws.draw() % 8)
    }

    /// A waker below 64.
    fn waker(&mut self) -> Waker
        ensures value { result.0 ≡ draw 0 self.old.generator.state % 64 }
        ensures left { self.new.left ≡ self.old.left }
        ensures after { self.new.generator ≡ after_draws 1 self.old.generator }
    {
        Waker(self.draws.draw() % 64)
    }

    /// A direction.
    fn direction(&mut self) -> Dir
        ensures value { result ≡ dir_drawn (draw 0 self.old.generator.state) }
        ensures left { self.new.left ≡ self.old.left }
        ensures after { self.new.generator ≡ after_draws 1 self.old.generator }
    {
        if self.draws.draw() % 2 == 0 {
            Dir::Read
        } else {
            Dir::Write
        }
    }

    /// One direction or both.
    fn interest(&mut self) -> Interest
        ensures value { result ≡ interest_drawn (draw 0 self.old.generator.state) }
        ensures left { self.new.left ≡ self.old.left }
        ensures after { self.new.generator ≡ after_draws 1 self.old.generator }
    {
        match self.draws.draw() % 3 {
            0 => Interest::READ,
            1 => Interest::WRITE,
            _ => Interest::READ_WRITE,
        }
    }

    /// The number of a listener that was made, or the number behind them.
    fn listener(&mut self) -> u32
        ensures value { result ≡ listener_drawn self.old.generator (draw 0 self.old.generator.state) }
        ensures left { self.new.left ≡ self.old.left }
        ensures after { self.new.generator ≡ after_draws 1 self.old.generator }
    {
        1 + self.draws.draw() % (1 + self.listeners)
    }

    /// The number of a timer that was made, or the number behind them.
    fn timer(&mut self) -> u32
        ensures value { result ≡ timer_drawn self.old.generator (draw 0 self.old.generator.state) }
        ensures left { self.new.left ≡ self.old.left }
        ensures after { self.new.generator ≡ after_draws 1 self.old.generator }
    {
        1 + self.draws.draw() % (1 + self.timers)
    }
}

/// The moment of so many nanoseconds.
fn moment_at(nanoseconds: u64) -> Moment
    requires { nanoseconds ≤ 10 ^ 18 }
    ensures { result ≡ nanoseconds }
{
    match Moment::new(nanoseconds) {
        Some(moment) => moment,
        None => unreachable!(),
    }
}
