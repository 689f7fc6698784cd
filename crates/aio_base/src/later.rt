//! What a host of timers and tasks is at least: an object whose states follow one another.

ghost use Rattle.std.specs.Prelude.{◌≡◌, Bool};

/// A host in whose states contracts tell the later from the earlier. It has no calls: what serves
/// timers and tasks promises of each of its calls that it leaves the host later.
///
/// A host on one thread can have every state later than every other; then whether its notifier is
/// sure has to be the same in all states.
pub trait Later {
    /// Whether the host's notifier is sure: no call of it ever fails.
    ghost notifier_is_sure: { Self → Bool };

    /// The second state is later than the first, or is the first.
    ghost is_later: { Self → Self → Type 0 };

    ghost later_than_itself: { (h : Self) → is_later h h };

    ghost later_than_later: { (a b c : Self) → is_later a b → is_later b c → is_later a c };

    ghost stays_sure: { (a b : Self) → is_later a b → notifier_is_sure b ≡ notifier_is_sure a };
}
