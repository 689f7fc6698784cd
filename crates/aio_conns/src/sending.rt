//! What a connection in memory takes.

ghost use Rattle.std.specs.Prelude.{◌≡◌, ◌<◌, length, None};
ghost use Rattle.aio_conns.specs.Sent.{Writes, count_taken, new_sending, room_of};

use aio_base::Did;
use std::alloc::Global;
use std::marker::Model;

/// What was sent, and how much more is taken.
#[derive(Drop)]
pub(crate) struct Sending {
    at_once: u32,
    room: Option<u32>,
    sent: Vec<u8>,
    tells: bool,
}

impl Model for Sending {
    ghost use Rattle.std.specs.Prelude.{◌<◌};
    ghost use Rattle.aio_conns.specs.Sent.{SendingValue};

    ghost Value = { SendingValue };

    ghost view = { λ s. record {
      at_once = s.at_once;
      room = s.room;
      sent = s.sent.items;
      tells = s.tells;
    } };

    ghost invariant = { λ s. 0 < s.at_once };
}

impl Sending {
    /// Nothing was sent yet: a write takes at most `at_once` bytes, and all together take at most `room`,
    /// where 2^32 - 1 is no bound. It takes no memory.
    pub(crate) fn new(alloc: Global, at_once: u32, room: u32) -> Sending
        requires { 0 < at_once }
        ensures { result ≡ new_sending at_once room }
    {
        Sending {
            at_once,
            room: bound(room),
            sent: Vec::new(alloc),
            tells: true,
        }
    }

    /// Sends the front of `piece`, as much as is taken. It wants no memory to take it.
    pub(crate) fn write(&mut self, piece: &[u8]) -> Did
        requires { 0 < length piece.now }
        ensures writes { Writes self.old piece.now result self.new }
        ensures never { self.old.room ≡ None → ¬ (result ≡ Did.Blocked) }
    {
        let count = self.room_for(piece.len());
        if count == 0 {
            return Did::Blocked;
        }
        if let Some(left) = &mut self.room {
            *left -= count as u32;
        }
        self.tells = self.tells && self.sent.extend_from_slice(&piece[..count]).is_ok();
        Did::Bytes(count)
    }

    /// What was sent while it was told, in order.
    pub(crate) fn sent(&self) -> &[u8]
        ensures { result.now ≡ self.now.sent }
    {
        &self.sent
    }

    // How many of so many bytes are taken.
    fn room_for(&self, count: usize) -> usize
        ensures { result ≡ count_taken self.now count }
    {
        let at_once = count.min(self.at_once as usize);
        match self.room {
            None => at_once,
            Some(left) => at_once.min(left as usize),
        }
    }
}

// The bound of so much room.
fn bound(room: u32) -> Option<u32>
    ensures { result ≡ room_of room }
{
    if room == u32::MAX { None } else { Some(room) }
}
