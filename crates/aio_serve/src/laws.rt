//! What follows for pairs and servers over connections and devices that are sure, as contracts of
//! functions that do nothing.

ghost use Rattle.std.specs.Prelude.{◌≡◌, ◌⊎◌, ℕ, Bool, true, IsTrue, List};
ghost use Rattle.std.specs.List.{AllByRecursion};
ghost use Rattle.aio_base.specs.Connections.{Telling};
ghost use Rattle.aio_base.specs.Devices.{Rose};
ghost use Rattle.aio_pairs.specs.declared.outcomes.PairEnd.{PairEnd};
ghost use Rattle.aio_serve.specs.Complete.{AllOfPairs, EndsInShortLines, IsComplete, NoneIsIdle};
ghost use Rattle.aio_places.specs.Places.{all_of};
ghost use Rattle.aio_serve.specs.Places.{EndsFit, FitsUnder, Terms};
ghost use Rattle.aio_serve.specs.Servers.{HasServeCause};
ghost use Rattle.aio_serve.specs.declared.server.ServeFault.{ServeFault};
ghost use Rattle.aio_serve.specs.declared.server.ServeFault.TheVariants as serve_fault;

use aio_base::Conn;

/// Two sure connections that end, and none of whose lines is too long, come to no other end than
/// that all their lines went over, or that memory ran out: where the notifier is sure, and both are
/// prompt or the idle time cannot pass by the clock. So do the pairs of a server over such
/// connections.
pub fn pairs_of_sure_connections_end<C: Conn>()
    ensures pair { (t : Terms) (a b : Telling) (end : PairEnd)
        → IsTrue t.is_sure → EndsInShortLines a → EndsInShortLines b
        → (IsTrue a.prompt × IsTrue b.prompt) ⊎ NoneIsIdle t
        → FitsUnder t (all_of a true) (all_of b true) end → IsComplete end }
    ensures pairs { (t : Terms) (conns : List C) (ends : List PairEnd)
        → IsTrue t.is_sure
        → AllOfPairs (λ conn. IsTrue (C.is_sure conn)) conns ends
        → AllOfPairs (λ conn. EndsInShortLines (C.telling conn)) conns ends
        → AllOfPairs (λ conn. IsTrue (C.telling conn).prompt) conns ends ⊎ NoneIsIdle t
        → EndsFit C.telling C.is_sure t conns ends → AllByRecursion IsComplete ends }
{}

/// A server over a port whose count of faults does not rise, with a wait and a notifier that are
/// sure, stops for want of memory alone.
pub fn a_sure_server_stops_for_memory_alone()
    ensures { (port_before port_after : ℕ) (fault : ServeFault) → ¬ Rose port_before port_after
        → HasServeCause port_before port_after true true fault
        → fault ≡ serve_fault.OutOfMemory }
{}
