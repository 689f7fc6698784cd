//! The connections with which a reactor starts.

ghost use Rattle.std.specs.Prelude.{◌≡◌, ◌≤◌, vec_len, IfOk, IfErr};
ghost use Rattle.aio_shared.specs.Starting.{IsFirstMember, IsNewReactor};
ghost use Rattle.aio_sources.specs.Starting.{BeginsWith};

use crate::members::Member;
use crate::shared::{Parts, Shared, open_lock};
use aio_base::{Arm, ArmFault, EventWait, Notify};
use aio_sources::{Places, SourceRef};
use std::alloc::Global;

/// What a reactor is that started with connections: the reactor, its first member, and for each
/// connection, in order, the token of its source, or the fault of its `add`.
#[derive(Drop)]
pub struct Started<A: Arm, W: EventWait, N> {
    /// The reactor.
    pub shared: Shared<A, W>,
    /// Its first member.
    pub member: Member<N, W>,
    /// The answers of the connections, in their order.
    pub sources: Vec<Result<SourceRef<A>, ArmFault>>,
}

impl<A: Arm + Drop, W: EventWait + Drop> Shared<A, W> {
    /// A reactor as `new` makes it, to which these connections, 4,096 at most, were added in order, each
    /// under the least key that was free by then. Where an `add` failed the answer tells the key that was
    /// tried and the two counts of faults; the connection is let go, and the key is free for the next one.
    ///
    /// All memory is taken before the first `add`. Where it is not there, the one refusal, wait, notifier
    /// and connections come back as they were, in order.
    pub fn start<N: Notify>(
        alloc: Global,
        parkers: u32,
        wait: W,
        notifier: N,
        ios: Vec<A>,
    ) -> Result<Started<A, W, N>, (W, N, Vec<A>)>
        requires parkers { (1 ≤ parkers) × (parkers ≤ 16) }
        requires few { vec_len ios ≤ 4096 }
        ensures reactor { IfOk result (λ made. IsNewReactor parkers A.all_sure made.shared) }
        ensures member { IfOk result (λ made.
            IsFirstMember made.shared (W.is_sure wait) notifier made.member) }
        ensures begun { IfOk result (λ made. BeginsWith A.arm_step A.rest A.fault_count A.is_sure
            made.shared.words.identity ios.items made.sources.items) }
        ensures devices { IfErr result (λ back. (back.0 ≡ wait) × (back.1 ≡ notifier)) }
        ensures connections { IfErr result (λ back. back.2.items ≡ ios.items) }
    {
        let Ok((mut parts, seat)) = Parts::new(alloc, parkers) else {
            return Err((wait, notifier, ios));
        };
        let Ok(places) = Places::new(&parts.table, &parts.words, alloc, ios.len()) else {
            return Err((wait, notifier, ios));
        };
        match open_lock::<A, W>(alloc, seat, wait) {
            Err(wait) => Err((wait, notifier, ios)),
            Ok((lock, claim)) => {
                let sources = places.add_all(&mut parts.table, &parts.words, ios);
                Ok(parts.assemble(alloc, lock, claim, notifier, sources))
            }
        }
    }
}
