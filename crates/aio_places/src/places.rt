//! The places of pairs, made of what became of their connections as a reactor began.

ghost use Rattle.std.specs.Prelude.{◌≡◌, ◌*◌, ◌≤◌, ◌∷◌, false, length, IfOk, IsTrue};
ghost use Rattle.std.specs.List.{AllByRecursion};
ghost use Rattle.std.specs.Arc.{arc_value};
ghost use Rattle.aio_shared.specs.Members.{IsMemberOf};
ghost use Rattle.aio_places.specs.Places.{AllStandFor, ArePlacesOf, ClosesOther, HasJoined, IsPlaceOf, new_end};
ghost use Rattle.aio_places.specs.SourceEnds.{IsRestOf};
ghost use Rattle.aio_sources.specs.Sources.{Removes};

use crate::ends::SourceEnd;
use aio_base::{ArmFault, Conn, EventWait, Notify, OutOfMemory};
use aio_shared::{Member, Shared, SourceRef, Started};
use std::alloc::Global;
use std::collections::VecDeque;
use std::marker::Model;
use std::sync::{Arc, Wait};

/// The place of a pair, before a worker serves it.
#[derive(Drop)]
pub struct Place<C: Conn, W: EventWait> {
    /// The number of the pair, from 1.
    pub number: u32,
    /// Its two ends, that of side A first; or the fault of a connection that could not join the reactor.
    pub sides: Result<(SourceEnd<C, W>, SourceEnd<C, W>), ArmFault>,
}

impl<C: Conn, W: EventWait> Model for Place<C, W> {
    ghost use Rattle.aio_places.specs.Places.{PlaceValue};

    ghost Value = { PlaceValue };

    ghost view = { λ place. place.sides };
}

/// A reactor that began with the connections of pairs.
pub struct Begun<A: Conn, W: EventWait, N> {
    /// The reactor.
    pub shared: Arc<Shared<A, W>, Global>,
    /// Its first member.
    pub member: Member<N, W>,
    /// The places of the pairs, in order.
    pub places: Vec<Place<A, W>>,
}

/// A reactor over this wait, with so many parkers, whose first member has a twin of the notifier.
/// The connections join it in order; each two of them are a pair, side A first. `OutOfMemory` where
/// memory ran out; wait and connections are let go.
pub fn begin<R: Wait, A: Conn + Drop, W: EventWait + Drop, N: Notify + Drop>(
    rt: &R,
    alloc: Global,
    wait: W,
    notifier: &N,
    conns: Vec<A>,
    parkers: u32,
    pairs: u32,
) -> Result<Begun<A, W, N>, OutOfMemory>
    requires parkers { (1 ≤ parkers) × (parkers ≤ 16) }
    requires pairs { pairs ≤ 2048 }
    requires two_each { length conns.items ≡ 2 * pairs }
    ensures parkers { IfOk result (λ begun. (arc_value begun.shared).words.parkers ≡ parkers) }
    ensures member { IfOk result (λ begun. IsMemberOf (arc_value begun.shared) begun.member) }
    ensures first { IfOk result (λ begun. (begun.member.ops.number ≡ 0)
        × (begun.member.ops.splits ≡ 1)) }
    ensures wait { IfOk result (λ begun. begun.member.claim.sure_of_wait ≡ W.is_sure wait) }
    ensures notifier { IfOk result (λ begun. IsTrue (N.is_sure notifier.now)
        → IsTrue (N.is_sure begun.member.notifier)) }
    ensures count { IfOk result (λ begun. length begun.places.items ≡ pairs) }
    ensures places { IfOk result (λ begun.
        AllStandFor A.telling A.is_sure conns.items begun.places.items) }
{
    let Ok(twin) = notifier.twin() else {
        return Err(OutOfMemory);
    };
    let Ok(started) = Shared::start(alloc, parkers, wait, twin, conns) else {
        return Err(OutOfMemory);
    };
    let Started {
        shared,
        member,
        sources,
    } = started;
    let Ok(shared) = Arc::new(alloc, shared) else {
        return Err(OutOfMemory);
    };
    let places = places_of(alloc, rt, &shared, sources, pairs)?;
    Ok(Begun {
        shared,
        member,
        places,
    })
}

/// The places of so many pairs, numbered from 1, by the answers that their connections had: two for
/// each, side A's first. `OutOfMemory` where memory ran out; connections and places are let go.
fn places_of<R: Wait, A: Conn + Drop, W: EventWait + Drop>(
    alloc: Global,
    rt: &R,
    shared: &Arc<Shared<A, W>, Global>,
    answers: Vec<Result<SourceRef<A>, ArmFault>>,
    pairs: u32,
) -> Result<Vec<Place<A, W>>, OutOfMemory>
    requires joined { AllByRecursion (HasJoined A.rest (arc_value shared.now).words.identity)
        answers.items }
    requires two_each { length answers.items ≡ 2 * pairs }
    ensures { IfOk result (λ places. ArePlacesOf answers.items places.items) }
{
    let Ok(mut places) = Vec::with_capacity(alloc, pairs as usize) else {
        return Err(OutOfMemory);
    };
    let mut left = VecDeque::from(answers);
    for earlier in 0..pairs {
        let (a, b) = take_two(&mut left);
        let place = place_of(rt, shared, earlier + 1, a, b)?;
        places.push_reserved(place);
    }
    Ok(places)
}

/// Takes the first two of items, of which there are as many, in order.
fn take_two<X: Drop>(left: &mut VecDeque<X>) -> (X, X)
    requires { 2 ≤ length left.old.items }
    ensures { left.old.items ≡ result.0 ∷ result.1 ∷ left.new.items }
{
    let Some(first) = left.pop_front() else {
        unreachable!()
    };
    let Some(second) = left.pop_front() else {
        unreachable!()
    };
    (first, second)
}

/// The place of the pair of this number, by the answers of its two connections. Where one of them
/// has a fault, the source of the other is closed, and a fault of that is passed over.
/// `OutOfMemory` where memory ran out.
fn place_of<R: Wait, A: Conn + Drop, W: EventWait + Drop>(
    rt: &R,
    shared: &Arc<Shared<A, W>, Global>,
    number: u32,
    a: Result<SourceRef<A>, ArmFault>,
    b: Result<SourceRef<A>, ArmFault>,
) -> Result<Place<A, W>, OutOfMemory>
    requires a { HasJoined A.rest (arc_value shared.now).words.identity a }
    requires b { HasJoined A.rest (arc_value shared.now).words.identity b }
    ensures place { IfOk result (IsPlaceOf a b) }
    ensures other { ClosesOther (Removes A.arm_step A.rest A.fault_count) a b }
{
    let sides = match a {
        Err(fault) => {
            match b {
                Ok(other) => {
                    let _passed_over = shared.close_source(rt, other);
                }
                Err(_) => {}
            }
            Err(fault)
        }
        Ok(a) => match b {
            Err(fault) => {
                let _passed_over = shared.close_source(rt, a);
                Err(fault)
            }
            Ok(b) => {
                let a = end_of(shared, a)?;
                let b = end_of(shared, b)?;
                Ok((a, b))
            }
        },
    };
    Ok(Place { number, sides })
}

/// The end of a connection whose source has this token. `OutOfMemory` where too many hold the reactor.
fn end_of<A: Conn + Drop, W: EventWait + Drop>(
    shared: &Arc<Shared<A, W>, Global>,
    token: SourceRef<A>,
) -> Result<SourceEnd<A, W>, OutOfMemory>
    requires belongs { token.words ≡ (arc_value shared.now).words.identity }
    requires outside { token.inside ≡ false }
    requires rest { IsRestOf A.rest token.rest }
    ensures { IfOk result (λ end. end ≡ new_end token) }
{
    let Ok(shared) = Arc::try_clone(shared) else {
        return Err(OutOfMemory);
    };
    Ok(SourceEnd::new(shared, token))
}
