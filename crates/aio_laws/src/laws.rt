//! Laws of the trace language and of the machine, as contracts of functions with no work to do.

ghost use Rattle.std.specs.Prelude.{◌≡◌, ◌≢◌, ◌⊎◌, ◌&&◌, ◌↔◌, ℕ, ◌<◌, ◌≤◌, nat_le, filter, true, false, not, List, [], ◌∷◌, ◌++◌, length, map, Option, Some, None};
ghost use Rattle.std.specs.List.{All, Contains};
ghost use Rattle.aio_laws.specs.Answers.{FitsTheStep};
ghost use Rattle.aio_laws.specs.Arming.{UnbrokenAsTold, IsArmedOrInHand};
ghost use Rattle.aio_laws.specs.Between.{IsWaitedOut, RegistrationsFollow, StandsAfter, StandsBetween, StepStands, is_of_timer};
ghost use Rattle.aio_laws.specs.Calls.{CallsFollow};
ghost use Rattle.aio_laws.specs.Clock.{ClockIsSet};
ghost use Rattle.aio_laws.specs.Counts.{CountsRise};
ghost use Rattle.aio_laws.specs.Covered.{Covered, WaitsForLive};
ghost use Rattle.aio_laws.specs.Distinct.{IsOfTimer, NoDoubles};
ghost use Rattle.aio_laws.specs.Drawn.{DrawsFollow};
ghost use Rattle.aio_laws.specs.FailedArms.{BrokenFollows};
ghost use Rattle.aio_laws.specs.FirstPolls.{InPollOrder};
ghost use Rattle.aio_laws.specs.Handling.{HandledIsNoted};
ghost use Rattle.aio_base.specs.Lines.{Reads, step_read};
ghost use Rattle.aio_laws.specs.Marks.{MarksFollow};
ghost use Rattle.aio_base.specs.Machine.{Outcome, begin_round, finish_round, makes_second_pass, react, step_result};
ghost use Rattle.aio_laws.specs.Others.{OthersStand};
ghost use Rattle.aio_laws.specs.Own.{KeepsItsOwn};
ghost use Rattle.aio_laws.specs.Readiness.{ReadyIsTold};
ghost use Rattle.aio_base.specs.Refusals.{RefusalLeaves, is_refusal, only_counted};
ghost use Rattle.aio_laws.specs.Registered.{TimersAreRegistered};
ghost use Rattle.aio_base.specs.Runs.{PolledStep, answers_of, outcome_of, outcome_without_notes, scripted, wakes_of, without_notes, world_of};
ghost use Rattle.aio_laws.specs.Resuming.{GoesOn, GoesOnAsWhole};
ghost use Rattle.aio_laws.specs.RoundArming.{RoundArming};
ghost use Rattle.aio_laws.specs.RoundCounts.{RoundsFollow};
ghost use Rattle.aio_laws.specs.RoundHands.{HandFollows};
ghost use Rattle.aio_base.specs.Script.{outcomes_from, world_after};
ghost use Rattle.aio_laws.specs.Sources.{SourcesFollow};
ghost use Rattle.aio_laws.specs.Storings.{Once, Storings, step_ended, step_storings, storings_of};
ghost use Rattle.aio_laws.specs.Succession.{StoringsFollow};
ghost use Rattle.aio_laws.specs.Waking.{AreOf, EachInOneList, WakesFollow, WokeTheSame};
ghost use Rattle.aio_base.specs.Timers.{AllAbove, BookChange, IsBook, IsFiringOrder, after_pass, changed, due_wakers, fires_before, in_order, pair_of};
ghost use Rattle.aio_base.specs.World.{PollerAnswer, Registration, RoundState, World, is_broken, opening, serial_of, waiters_of};
ghost use Rattle.aio_base.specs.declared.names.Dir.{Dir};
ghost use Rattle.aio_base.specs.declared.names.Waker.{Waker};
ghost use Rattle.aio_base.specs.declared.steps.Answer.{Answer};
ghost use Rattle.aio_base.specs.declared.steps.Step.{Step};

/// A line reads as a step exactly where this is the step that comes of its words by the table of lines
/// (`step_read`). So a line reads as one step at most, and each step of an input is what its line reads
/// as.
pub fn a_line_reads_as_the_step_of_its_words()
    ensures { (s : Step) (line : List ℕ) → Reads s line ↔ (step_read line ≡ Some s) }
{}

/// A pass at a moment leaves no registration that is due by then, and takes the waker of each that it
/// does not leave. So after a round has begun, after one that ended with a second pass, and after a
/// whole round, every registered timer has a deadline above the clock's moment.
pub fn no_due_timer_outlives_a_pass()
    ensures pass { (moment : ℕ) (registrations : List Registration)
        → AllAbove moment (after_pass moment registrations) }
    ensures taken { (moment : ℕ) (registrations : List Registration) (r : Registration)
        → Contains registrations r
        → Contains (after_pass moment registrations) r
        ⊎ Contains (due_wakers moment registrations) r.waker }
    ensures begin { (w : World) (given : Option ℕ) (answers : List PollerAnswer)
        → w.round ≡ None → AllAbove w.now (begin_round w given answers).world.registrations }
    ensures finish { (w : World) (round : RoundState) (answers : List PollerAnswer)
        → w.round ≡ Some round → round.in_hand ≡ []
        → makes_second_pass round.last_wait round.limit ≡ true
        → AllAbove w.now (finish_round w answers).world.registrations }
    ensures react { (w : World) (given : Option ℕ) (answers : List PollerAnswer)
        → w.round ≡ None → AllAbove w.now (react w given answers).world.registrations }
{}

/// Registrations fire by their deadlines, and those of one deadline by their ids. Put in order they are
/// the same ones, each as often. What a pass takes are, in this order, the wakers of the registrations
/// that are due at its moment, of all of them and of no other.
pub fn registrations_fire_in_order()
    ensures before { (a b : Registration)
        → (fires_before a b ≡ true)
        ↔ ((a.deadline < b.deadline) ⊎ ((a.deadline ≡ b.deadline) × (a.id < b.id))) }
    ensures ordered { (registrations : List Registration)
        → IsFiringOrder registrations (in_order registrations) }
    ensures taken { (moment : ℕ) (registrations : List Registration)
        → (fired : List Registration)
        × IsFiringOrder
        (filter (λ (r : Registration). nat_le r.deadline moment) registrations) fired
        × (due_wakers moment registrations ≡ map (λ (r : Registration). r.waker) fired) }
{}

/// A step that is refused takes its position and changes nothing else: no wake, no call of the poller.
pub fn a_refused_step_changes_nothing()
    ensures counted { (w : World) (s : Step) (answers : List PollerAnswer)
        → is_refusal (step_result w s answers).answer ≡ true
        → step_result w s answers ≡ only_counted (step_result w s answers).answer w answers }
    ensures leaves { (w : World) (s : Step) (answers : List PollerAnswer)
        → let after = step_result w s answers in
        RefusalLeaves w after.answer after.wakes after.world }
{}

/// The book of registered timers stays in the order in which they fire, under each change and each
/// pass, and to put it in order changes nothing. Two changes to different pairs of deadline and id give
/// the same book in either order.
pub fn a_change_keeps_the_book()
    ensures change { (change : BookChange) (book : List Registration)
        → IsBook book → IsBook (changed change book) }
    ensures pass { (moment : ℕ) (book : List Registration)
        → IsBook book → IsBook (after_pass moment book) }
    ensures ordered { (book : List Registration)
        → IsBook book → in_order book ≡ book }
    ensures commute { (a b : BookChange) (book : List Registration)
        → pair_of a ≢ pair_of b → IsBook book
        → changed a (changed b book) ≡ changed b (changed a book) }
{}

/// After every run, whatever the poller answered in it, each waiter of each live source is covered: its
/// direction is armed, or an event of its key is in hand, or the source is broken and the answer of the
/// step at which it broke told that. There are no other waiters: whoever waits waits for a live source.
/// Since a run that is cut off at a step is a run, this holds between any two steps.
pub fn every_waiter_is_covered()
    ensures covered { (run : List PolledStep)
        → Covered (world_of opening run) (answers_of opening run) }
    ensures live { (run : List PolledStep) → WaitsForLive (world_of opening run) }
{}

/// Each storing of a waker gets the next number, and after every run, whatever the poller answered in
/// it, each number stands in exactly one place, and there once: as a waiter or a registration, among
/// what the running round has taken, among the wakes of one step, or among those that were given up.
/// What stands are the waiters and registrations of the world; what the round has taken and what each
/// step woke are its wakers, in order. Since a run that is cut off at a step is a run, this holds
/// between any two steps.
pub fn no_storing_is_lost_or_woken_twice()
    ensures { (run : List PolledStep)
        → Once (world_of opening run) (wakes_of opening run) (storings_of opening run) }
{}

/// How the storings of wakers follow from step to step (`StoringsFollow`): a storing keeps its number,
/// its place and its waker for good. A step stores one waker or none, under the next number and at the
/// place of which it speaks: a poll that has to wait stores its own, and a timer that is set stores the
/// one that it keeps. What stood before a step stands on, or leaves where that step may empty a place: a
/// poll replaces what stood with its direction, and wakes it; a round takes what is due at a pass and
/// the waiters of each event that it handles, all of them and in order; what is given up stood with the
/// source that `del` takes out, with the listener that `step` or `drop` names, or with the registration
/// of the timer that `tick`, `set` or `end` names, and nothing but what is stored is left standing there;
/// a step that gives up nothing, as the poll of a timer that waits on with the same waker, leaves there
/// what stood.
/// What a round has taken stays taken until the step that ends it, a `finish` or a `react` that is not
/// refused: that one wakes all of it, in order, also what it took itself, and leaves nothing taken. A
/// step that is refused moves nothing.
///
/// `step` says so of any world and any storings between two steps, `run` of each step of every run,
/// whatever the poller answered. Histories that break it, by the kind of the step, are a table of their
/// own (`proofs/refused/FalseHistories.antt`). In its first four each number is in one place, and what
/// stands agrees with the wakers that the wrong machine holds, and yet it drops a waker or wakes a wrong
/// one: `a_poll_drops_the_waker_of_another_listener`, `a_round_wakes_a_waker_that_it_did_not_take`,
/// `a_round_leaves_a_waker_at_another_place` and `a_poll_stores_under_an_old_number`.
pub fn storings_follow_from_step_to_step()
    ensures step { (w : World) (s : Step) (answers : List PollerAnswer) (before : Storings)
        → before.waking ≡ []
        → StoringsFollow w s answers before (step_ended (step_storings w s answers before)) }
    ensures run { (run : List PolledStep) (s : PolledStep)
        → StoringsFollow (world_of opening run) s.step s.answers
        (storings_of opening run) (storings_of opening (run ++ s ∷ [])) }
{}

/// After every run, whatever the poller answered in it, nothing stands twice in the lists of the world:
/// a live key, a serial, the poll waiter and the mark of a direction, a broken source, a listener's
/// number, a timer's number and the id of a registration are each there once. No serial, number or id
/// stands there that was not given.
pub fn nothing_stands_twice()
    ensures { (run : List PolledStep) → NoDoubles (world_of opening run) }
{}

/// After every run, whatever the poller answered in it, each registration is that of a timer, which
/// keeps its id and its waker and waits for its deadline. So none outlives its timer, and none is left
/// where a timer was set anew.
pub fn each_registration_is_of_a_timer()
    ensures { (run : List PolledStep)
        → All (IsOfTimer (world_of opening run).timers) (world_of opening run).registrations }
{}

/// After every run, whatever the poller answered in it, each timer that waits is registered: one that
/// keeps an id keeps a waker and waits for a deadline, and it is registered with all three, or a pass
/// took its registration, and then its deadline has come. Who keeps no id keeps no waker. Each id that
/// is kept was drawn, and no two timers keep one, so no registration is that of two.
pub fn each_waiting_timer_is_registered()
    ensures { (run : List PolledStep) → TimersAreRegistered (world_of opening run) }
{}

/// A step lets no count fall and gives no number again: its position is one more, the clock never goes
/// back, and as many serials, listeners' numbers, ids, timers' numbers and rounds were given after it as
/// before, or more. Each serial, listener's number, id of a registration and timer's number that stands
/// after it stood before it, or is above all that were given by then. So one that has left, or that was
/// given and stands nowhere, is never used again.
pub fn no_number_is_given_twice()
    ensures { (w : World) (s : Step) (answers : List PollerAnswer)
        → CountsRise w (step_result w s answers).world }
{}

/// A round begins in a `begin` or a whole round, where none runs, and nowhere else. It gets the next
/// number, which its answer tells, and the position at which it began is recorded. It keeps number,
/// begin and limit until a `finish` tells its end, or its whole round is answered; no other round runs
/// then.
///
/// While a round runs, `begin` and `react` are told `locked`, and where none runs `wait`, `handle` and
/// `finish` are told `no round`. With events in hand `wait` and `finish` are told how many, and with an
/// empty hand `handle` is told `empty`. No step is told so in another case. Else a `begin` tells the
/// limit of its waits, in nanoseconds: the least of the given limit and of the times to the registered
/// deadlines, 0 for one that has come, and none where there is neither. A `wait` tells what the poller
/// answered, a `handle` the key of its event, a `finish` the first fault of its round, and a `react` how
/// many events its wait gave, and that it failed where it did.
pub fn each_round_has_a_number_of_its_own()
    ensures { (w : World) (s : Step) (answers : List PollerAnswer)
        → let after = step_result w s answers in
        RoundsFollow w s answers after.answer after.world }
{}

/// A round begins with an empty hand. A `wait` that tells how many events were given takes just these in
/// hand, and none where it was interrupted or failed; a `handle` takes out the first one, whose key it
/// tells. No other step changes the hand. A round remembers what its last wait was answered, and its
/// first fault, and nothing else changes those.
pub fn a_round_has_in_hand_what_its_wait_gave()
    ensures { (w : World) (s : Step) (answers : List PollerAnswer)
        → let after = step_result w s answers in
        HandFollows w s answers after.answer after.world }
{}

/// A step that begins a round makes a pass over the registered timers, a whole round makes one, and so
/// does a `finish` of a round with nothing in hand whose limit is not 0 and whose last wait gave no
/// event, and was neither interrupted nor failed. No other step does. Such a pass takes what is due at
/// the clock's moment. Else a step that is not of a timer leaves each registration.
pub fn a_waited_out_round_ends_with_a_pass()
    ensures step { (w : World) (s : Step) (answers : List PollerAnswer)
        → is_of_timer s ≡ false → RegistrationsFollow w s (step_result w s answers).world }
    ensures test { (round : RoundState)
        → (round.in_hand ≡ []) × (makes_second_pass round.last_wait round.limit ≡ true)
        ↔ IsWaitedOut round }
{}

/// The clock is set by a `now` whose moment has not passed, to that moment, which the answer tells. A
/// `now` whose moment has passed is told the clock's, and no other step moves the clock.
pub fn only_now_sets_the_clock()
    ensures { (w : World) (s : Step) (answers : List PollerAnswer)
        → ClockIsSet w s (step_result w s answers).answer (step_result w s answers).world }
{}

/// What is noted as handled after a step is what was noted before, and behind it, for each event
/// that the step handled and whose key is live, one entry for each direction that the event names,
/// writability first, with the position at which the handling round began. A `handle` handles the
/// first event in hand, for the running round; a whole round handles each event that its wait
/// gives, and begins with its own step. No other step notes anything.
///
/// So each direction of a handled event is fresh for whoever was stored, or first polled, before
/// the round began, and a poll waiter or a listener that it wakes is ready at the next poll. What
/// was fresh stays so.
pub fn a_handled_event_is_noted()
    ensures { (w : World) (s : Step) (answers : List PollerAnswer)
        → HandledIsNoted w s answers (step_result w s answers).world }
{}

/// A step leaves what is of others alone: of sources, marks, failed arms, listeners and timers all
/// but its own stand after it as they stood, in the same order, so none is lost, none is changed
/// and none joins. Of a listener this says all but its waker, which a handled event takes. A step's
/// own are the source that it adds or takes out; the mark of the direction that it polls, or all
/// marks of the source that it takes out; the failed arm of the source that it polls, takes out or
/// handles an event of; the listener that it makes, polls or drops; and the timer that it makes,
/// polls, sets or ends.
///
/// The wakers of others stand too: `storings_follow_from_step_to_step` says which of them a step
/// may replace, take or give up.
pub fn a_step_leaves_others_alone()
    ensures { (w : World) (s : Step) (answers : List PollerAnswer)
        → OthersStand w s answers (step_result w s answers).world }
{}

/// The mark of a direction is the position at which its last poll waiter was stored. A poll that is
/// told `ready` uses it up; one that has to wait leaves this position, or, where that very waker is
/// the poll waiter already, the mark that stood. A `del` that takes its source out takes all marks
/// of it along. No other step changes a mark.
pub fn a_mark_is_of_the_last_storing()
    ensures { (w : World) (s : Step) (answers : List PollerAnswer)
        → MarksFollow w s (step_result w s answers).answer (step_result w s answers).world }
{}

/// An `add` that is told a key joins one source at the end of the list, under that key and the next
/// serial. No source has the key before, and each lesser key is that of a source. A `del` that is
/// told `gone` or `fault remove` takes out the source of its key, which was live, and no other. A
/// step that is told anything else, and every other step, changes neither the sources nor the count
/// of serials.
pub fn only_add_and_del_change_the_sources()
    ensures { (w : World) (s : Step) (answers : List PollerAnswer)
        → SourcesFollow w s (step_result w s answers).answer (step_result w s answers).world }
{}

/// A `poll` is told `ready` exactly where its key is live, its direction has a mark, and an event
/// of the direction was handled by a round that began after the marked position. A `step` of a
/// listener is told so exactly where the listener is there and was polled, and such an event was
/// handled by a round that began after its first poll. A `tick` is told `ready` with a deadline
/// exactly where the timer is there with that deadline, and the clock's moment is not before it. No
/// other step is told `ready`.
///
/// Which events were handled, and by a round of which begin, says `a_handled_event_is_noted`.
pub fn a_step_is_ready_exactly_where_what_it_polls_is()
    ensures { (w : World) (s : Step) (answers : List PollerAnswer)
        → ReadyIsTold w s (step_result w s answers).answer }
{}

/// A step is told that it is refused exactly where what it needs is not to be had: a `poll`, a `new` and a
/// `del` need a source with their key, a step of a listener or of a timer that listener or timer, an `add`
/// room for one source more, and a `del` a source that no listener uses. Else it is told what fits it: so
/// nobody is told to wait for what is not there, and nobody is told that something is missing which is
/// there. An event, a fault and an interrupt are noted always.
///
/// What `now`, the three forms of `timer` and the steps of a round are told, say `only_now_sets_the_clock`,
/// `a_position_and_a_deadline_have_their_steps` and `each_round_has_a_number_of_its_own`.
pub fn a_step_is_told_what_fits_it()
    ensures { (w : World) (s : Step) (answers : List PollerAnswer)
        → FitsTheStep w s (step_result w s answers).answer }
{}

/// One more number of a listener is drawn where a listener is told, and of a timer where a timer is told,
/// and in no other step. An id of a registration is drawn where a timer is registered under it, and it is
/// the next one. So no number is left out. An event that is noted stands behind those that were noted
/// before, and a fault or an interrupt is due once it was asked for; no other step of the machine touches
/// what the poller in memory is to give.
pub fn no_number_and_no_event_is_left_out()
    ensures { (w : World) (s : Step) (answers : List PollerAnswer)
        → DrawsFollow w s (step_result w s answers).answer (step_result w s answers).world }
{}

/// The calls of the poller that a step makes fit its answer: one `add`, one `remove` or one `wait`; of a
/// poll that stays pending, and of an event that is handled, one `arm` or none, and one where it is told
/// that this failed; of a whole round one `wait` and arms behind it. No other step calls the poller. A
/// poll that has to wait arms exactly where its direction had no waiter, or the last arm of its source
/// had failed; a handled event exactly where its source is live and has a waiter left. What
/// is armed changes in no step without a call, and a wait that gave events leaves their keys armed in no
/// direction, since the poller has cleared their interests: so a waiter that is left there is armed for
/// by a call of the poller, and not by what the machine remembers.
///
/// A step other than a whole round tells a failure exactly where it called the poller and this failed: so
/// no failure is kept from the caller, and no fault is told that was none. A call that failed changes no
/// interest. A whole round that ran ends with `fault wait` exactly where its wait failed, and else with
/// `fault arm` exactly where one of its arms failed. It arms at most once for each event of its wait, and
/// where it makes no arm, what was armed stays so but for the keys of these events.
///
/// What is armed is what was asked for. Of a source that is new or gone nothing is armed. A poll or a
/// handled event that armed its source leaves it armed in just the directions that have a waiter, and a
/// wait clears the keys of its events, and none where it was interrupted; of every other key what was
/// armed is (`InterestsFollow`). A whole
/// round arms anew at most one key for each of its arms that succeeded, and only directions that had a
/// waiter.
pub fn no_interest_changes_without_a_call()
    ensures { (w : World) (s : Step) (answers : List PollerAnswer)
        → CallsFollow w s answers (step_result w s answers).answer (step_result w s answers).calls
        (step_result w s answers).world }
{}

/// A source is broken where its last arm failed, at the position of the step in which it did. After a step
/// that is no whole round its own source is broken at this position where it tells `fault arm`; it is not
/// where the step called the poller and tells no such thing; and where the step made no call it is if it
/// was.
///
/// A whole round arms behind each event of its wait whose source is live and has a waiter whom no event so
/// far has taken, for just the directions of such waiters, and makes no other call; a failed arm stops
/// nothing. Of several arms of one source the last tells whether it is broken, and the last that succeeded
/// what is armed. A source or a key of which no arm was made is broken, or armed, as after the wait.
pub fn a_source_is_broken_where_its_last_arm_failed()
    ensures step { (w : World) (s : Step) (answers : List PollerAnswer)
        → let after = step_result w s answers in
        BrokenFollows w s answers after.answer after.calls after.world }
    ensures round { (w : World) (s : Step) (answers : List PollerAnswer)
        → let after = step_result w s answers in
        RoundArming w s answers after.calls after.world }
{}

/// A listener is the same after a step, but for its waker, and but for its position where this is its
/// first poll: that one it remembers, and no later one. One that is made has the source of its step's
/// key and its step's direction, no position and no waker, and it stands under the number that is told.
///
/// A timer that is made has just the deadline and the period of its step, and stands under the number
/// that is told. A `set` that is answered `set` gives its timer the deadline that it names, and keeps
/// the period, or with `every` gives the one that it names. A `tick` that is told `ready` tells the
/// timer's deadline, which has come, and the next is one period later where that is at most 10^18
/// nanoseconds; else there is none. The period stays. No other step changes deadline or period, and no
/// listener or timer is lost but the one that is given up, which is gone.
///
/// The id and the waker that a timer keeps are those that it kept, but for a `tick` that registers it
/// under the next id with its own waker, one that fires with no deadline to follow, after which it keeps
/// neither, and a `set`, which registers it under the next id with the waker that it kept, if any.
pub fn a_position_and_a_deadline_have_their_steps()
    ensures { (w : World) (s : Step) (answers : List PollerAnswer)
        → KeepsItsOwn w s (step_result w s answers).answer (step_result w s answers).world }
{}

/// The run of a list of steps over the script poller is a run of the machine: that in which the poller
/// answers as the script says. It gives the same answers and the same wakes, step for step, and leaves
/// the same world but for what is noted and due. The script's poller alone reads those: a step of the
/// machine gives the same from two worlds that differ in nothing else.
pub fn a_script_is_a_run()
    ensures steps { (w : World) (steps : List Step)
        → map (λ (s : PolledStep). s.step) (scripted w steps) ≡ steps }
    ensures answers { (w : World) (steps : List Step)
        → answers_of w (scripted w steps)
        ≡ map (λ (o : Outcome). o.answer) (outcomes_from w steps) }
    ensures wakes { (w : World) (steps : List Step)
        → wakes_of w (scripted w steps) ≡ map (λ (o : Outcome). o.wakes) (outcomes_from w steps) }
    ensures world { (w : World) (steps : List Step)
        → without_notes (world_of w (scripted w steps)) ≡ without_notes (world_after w steps) }
    ensures unread { (w v : World) (s : Step) (answers : List PollerAnswer)
        → without_notes w ≡ without_notes v
        → outcome_without_notes (step_result w s answers)
        ≡ outcome_without_notes (step_result v s answers) }
{}

/// What stands of each step of the machine, from any world and whatever the poller answers (`StepStands`),
/// as one law with no premise. It is of the step and its outcome alone: of no run, and of no world that a
/// run has to reach. So a list of steps with their outcomes is judged entry by entry. Whom a step wakes, who
/// waits after it and whom the running round has taken, it fixes from each world in which nothing stands
/// twice (`a_step_wakes_whom_it_has_to`), and where besides each registration is that of a timer, so it is
/// after the step.
///
/// Where the step makes a pass, no timer is registered afterwards that was due at it; where it is not of a
/// timer, it takes out what its pass does and no other registration. It lets no count fall and gives no
/// number again. Told pending, or having handled an event without a fault, it leaves its source unbroken
/// where a waiter is left. It counts a round where it begins one, tells what a step of a round tells, moves
/// the hand as it tells, notes each event that it handles and nothing else, moves the clock where it is a
/// `now` that is answered so, and leaves the things of others alone. Its own mark goes where it is told
/// ready, it changes the sources as its answer tells and its own listener or timer as such a step may, and
/// it is told ready exactly where it polls what is ready. It is told what fits it, and that it is refused
/// where what it needs is not to be had. It calls the poller as it tells, and no interest changes without a
/// call; each call takes the poller's next answer, and all others are left. Its own source is broken where
/// its last arm failed, and a whole round arms just the sources of which an event left a waiter. Where it is
/// refused it takes its position and does nothing else.
pub fn a_step_stands()
    ensures { (w : World) (s : PolledStep) → StepStands w s (outcome_of w s) }
{}

/// A step wakes whom it has to, and nobody else: where nothing stands twice in the world before it, whatever
/// storings of wakers this world is of, those that the step may leave (`StoringsFollow`) are of the world
/// after it, and the last that they woke are its wakes, in order. No run is needed for it, as each such
/// world is of some storings (`held`). And only these wakes follow so: another outcome of which the same
/// stands wakes the same, in the same order, and leaves the same waker at each place and the same ones
/// taken by the running round (`only`).
pub fn a_step_wakes_whom_it_has_to()
    ensures follows { (w : World) (s : PolledStep)
        → let after = outcome_of w s in WakesFollow w s.step s.answers after.wakes after.world }
    ensures held { (w : World) → NoDoubles w → (l : Storings) × EachInOneList l × AreOf w l }
    ensures only { (w : World) (s : PolledStep) (wakes : List Waker) (v : World)
        → NoDoubles w → WakesFollow w s.step s.answers wakes v
        → let after = outcome_of w s in WokeTheSame after.wakes after.world wakes v }
{}

/// A round that was stopped loses nothing. Say that it was begun and waited and handled some of its events,
/// each in a step of its own, and that it then goes on at the same moment: its other events are handled, and
/// it is ended. Then it comes to what the whole round comes to as one step, with the same answers of the
/// poller: nobody is woken before the end, and then all whom the whole round wakes, in the same order and
/// each as often; the same fault is told, the same calls of the poller were made, and the world is the same
/// but for positions in the past, namely how many steps were run and at which of them an arm failed. So no
/// event in hand is lost, none is handled twice, and none is taken for that of another.
///
/// It does not matter after which event the round was stopped. A core whose round was stopped for want of
/// memory stands for the world of the sections that were done (`Core::react`), so this says how it goes on.
/// Rounds that go on wrongly are a table of their own (`proofs/refused/FalseEnds.antt`).
pub fn a_stopped_round_ends_as_a_whole_one()
    ensures { (w : World) (given : Option ℕ) (told : PollerAnswer) (done rest : List PolledStep)
        → GoesOn w given told done rest → GoesOnAsWhole w given told done rest }
{}

/// After every run, whatever the poller answered in it, each waiter of each live source is covered and
/// no other waits, no storing of a waker is lost or woken twice, nothing stands twice in the world's
/// lists, each registration is that of a timer, each timer that waits is registered, listeners that were
/// polled stand in the order of their first polls, and the last step moved storings as such a step may.
/// The last step led from the world before it to that after the run, and all stands of it that
/// `a_step_stands` names. Since a run that is cut off at a step is a run, this holds between any two steps;
/// the steps of a trace over the poller in memory are such a run.
///
/// Over the poller in memory the waits of a trace gave each event that its steps noted once, in order, or
/// it is noted still.
pub fn a_run_stands_between_its_steps()
    ensures run { (run : List PolledStep) → StandsBetween run }
    ensures trace { (steps : List Step) → StandsAfter steps }
{}

/// After every run, whatever the poller answered in it, those of the world's listeners that were polled
/// stand in the order of their first polls: by rising position, each that of a step that was run. A
/// listener that was never polled holds no waker.
pub fn polled_listeners_stand_in_the_order_of_their_first_poll()
    ensures { (run : List PolledStep) → InPollOrder (world_of opening run) }
{}

/// A poll of a source or of a listener that is told pending leaves its source unbroken, in any world and
/// whatever the poller answers: a broken source is armed again by every poll that stays pending, and
/// where that arm fails the answer is `fault arm`. So does an event that is handled without a fault, by
/// `handle` or in a whole round that ends clean, where its source has a waiter left. A covered waiter of
/// a source that is not broken is armed for, or an event of its key is in hand: no earlier fault excuses
/// it.
pub fn a_poll_that_is_told_pending_leaves_its_source_unbroken()
    ensures step { (w : World) (s : Step) (answers : List PollerAnswer)
        → UnbrokenAsTold w s answers (step_result w s answers).answer (step_result w s answers).world }
    ensures cover { (w : World) (answered : List Answer)
        → Covered w answered
        → (key serial : ℕ) (dir : Dir) (waiter : Waker)
        → is_broken w serial ≡ false → serial_of w key ≡ Some serial
        → Contains (waiters_of w serial dir) waiter → IsArmedOrInHand w key dir }
{}
