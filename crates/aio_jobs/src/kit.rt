//! Six devices, and what lends them.

use aio_base::{Clock, EventWait, Gate, Notify, Port, Spawner};

/// Six devices in one.
#[derive(Drop)]
pub struct SixDevices<P, W, N, C, G, T> {
    /// What hands out connections.
    pub port: P,
    /// The waiting half of the poller.
    pub wait: W,
    /// What ends a wait from another thread.
    pub notify: N,
    /// The clock.
    pub clock: C,
    /// The gate.
    pub gate: G,
    /// What runs the workers.
    pub spawner: T,
}

/// What has six devices and lends them.
///
/// They are lent in one piece: a call that lends several references can promise what is behind them, and
/// not that the lender has them afterwards as the borrower left them.
pub trait Devices {
    ghost use Rattle.std.specs.Prelude.{◌≡◌};
    ghost use Rattle.std.specs.Borrow.{sem};
    ghost use Rattle.aio_jobs.specs.Lending.{LendsSix};
    ghost use Rattle.aio_jobs.specs.declared.kit.SixDevices.{SixDevices};

    /// What hands out connections.
    type P: Port;

    /// The waiting half of the poller.
    type W: EventWait + Send;

    /// What ends a wait from another thread.
    type N: Notify + Send + Drop;

    /// The clock.
    type C: Clock + Send + Drop;

    /// The gate.
    type G: Gate + Sync;

    /// What runs the workers.
    type T: Spawner;

    /// The six devices.
    ghost six: { Self → SixDevices Self.P Self.W Self.N Self.C Self.G Self.T };

    /// The same with other devices.
    ghost with_six: { Self → SixDevices Self.P Self.W Self.N Self.C Self.G Self.T → Self };

    /// Lends the six, and changes none of them. Afterwards they are what the borrower left.
    fn lend(&mut self) -> &mut SixDevices<Self::P, Self::W, Self::N, Self::C, Self::G, Self::T>
        ensures* lends { sem 𝓛 (LendsSix Self.row Self.P.row Self.W.row Self.N.row Self.C.row
            Self.G.row Self.T.row (with_six self.old) self.entry result) }
        ensures value { result.now ≡ six self.old };

    ghost as_left: { (d : Self) (k : SixDevices Self.P Self.W Self.N Self.C Self.G Self.T)
        → six (with_six d k) ≡ k };
}

/// Owns six devices, and lends them.
#[derive(Drop)]
pub struct Kit<P, W, N, C, G, T> {
    /// The devices.
    pub devices: SixDevices<P, W, N, C, G, T>,
}

impl<
    P: Port,
    W: EventWait + Send,
    N: Notify + Send + Drop,
    C: Clock + Send + Drop,
    G: Gate + Sync,
    T: Spawner,
> Devices for Kit<P, W, N, C, G, T> {
    ghost use Rattle.std.specs.Prelude.{refl};

    type P = P;

    type W = W;

    type N = N;

    type C = C;

    type G = G;

    type T = T;

    ghost six = { λ kit. kit.devices };

    ghost with_six = { λ kit six. record kit { devices = six } };

    fn lend(&mut self) -> &mut SixDevices<P, W, N, C, G, T> {
        &mut self.devices
    }

    ghost as_left = { λ kit six. refl };
}
