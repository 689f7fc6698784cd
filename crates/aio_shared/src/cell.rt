//! The round cell: what whoever has the reactor lock holds.

ghost use Rattle.std.specs.Prelude.{◌≡◌, IfOk, IfErr};
ghost use Rattle.std.specs.Borrow.{sem};
ghost use Rattle.aio_react.specs.Rounds.{new_round};
ghost use Rattle.aio_shared.specs.CellLending.{LendsSeat};

use crate::waiting::{CellRound, CellWait};
use aio_base::EventWait;
use aio_react::Round;
use aio_words::RoundSeat;
use std::alloc::Global;
use std::marker::Model;

/// A round and the half of a poller that waits for its events.
#[derive(Drop)]
pub(crate) struct Work<W: EventWait> {
    pub(crate) round: CellRound,
    pub(crate) wait: CellWait<W>,
}

/// A round, the seat that begins it, and the half of a poller that waits for its events. A running
/// round has made its wait, and a fault that the round tells is one of its wait only where the wait is
/// not sure. What is large of it lies in a box, so that it is cheap to take and to give.
#[derive(Drop)]
pub struct RoundCell<W: EventWait> {
    pub(crate) seat: RoundSeat,
    pub(crate) work: Box<Work<W>>,
}

impl<W: EventWait> Model for RoundCell<W> {
    ghost use Rattle.aio_shared.specs.Cells.{CellValue, IsCell};

    ghost Value = { CellValue W };

    ghost view = { λ c. record {
      seat = c.seat;
      round = c.work.value.round;
      wait = c.work.value.wait;
      waits = W.wait_count c.work.value.wait;
      faults = W.fault_count c.work.value.wait;
      sure = W.is_sure c.work.value.wait;
    } };

    ghost invariant = { λ c. IsCell (W.is_sure c.work.value.wait) c.work.value.round };
}

impl<W: EventWait> RoundCell<W> {
    /// A cell with an idle round. The wait comes back where memory ran out.
    pub(crate) fn new(
        alloc: Global,
        seat: RoundSeat,
        round: Round,
        wait: W,
    ) -> Result<RoundCell<W>, W>
        requires { round ≡ new_round }
        ensures made { IfOk result (λ cell. cell ≡ record {
          seat = seat;
          round = round;
          wait = wait;
          waits = W.wait_count wait;
          faults = W.fault_count wait;
          sure = W.is_sure wait;
        }) }
        ensures back { IfErr result (λ back. back ≡ wait) }
    {
        let round = CellRound::new(round);
        let wait = CellWait::new(wait);
        match Box::new(alloc, Work { round, wait }) {
            Ok(work) => Ok(RoundCell { seat, work }),
            Err(failed) => Err(failed.value.wait.into_inner()),
        }
    }

    /// The half that waits again, where there is no lock for the cell.
    pub(crate) fn into_wait(self) -> W
        ensures { result ≡ self.wait }
    {
        let Work { round: _, wait } = Box::into_inner(self.work);
        wait.into_inner()
    }

    /// The round seat, to be used in calls on the words. The cell has afterwards the seat that the
    /// borrower left; all else of it stays.
    pub fn seat(&mut self) -> &mut RoundSeat
        ensures* lends { sem 𝓛 (LendsSeat W.row W.Faults W.wait_count W.wait_step self.entry result) }
        ensures value { result.now ≡ self.old.seat }
    {
        &mut self.seat
    }

    /// The round.
    pub fn round(&self) -> &Round
        ensures { result.now ≡ self.now.round }
    {
        self.work.round.as_round()
    }

    /// How many waits the half that waits has made.
    pub fn waits(&self) -> u64
        ensures { result ≡ self.now.waits }
    {
        self.work.wait.waits()
    }
}
