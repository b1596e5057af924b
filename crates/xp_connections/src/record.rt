// The record of one connection as one of its ends saw it, and for how many notes its lists have
// room.
ghost use Rattle.std.specs.Prelude.{◌≡◌, ◌<◌, ◌≤◌, ◌-◌, ◌+◌, OnOk, Some, length, slice_get, true, false};
ghost use Rattle.xp_protocol.specs.Records.{blank_record, has_begun, has_taken, has_released, has_acked, has_delivered, has_ended, has_over, has_connected};
ghost use Rattle.xp_protocol.specs.Effects.{accepted_in};

use std::alloc::{AllocError, Global};
use std::marker::Model;
use xp_base::body::Body;
use xp_base::ids::{Channel, PartId};
use xp_base::layout::LINES;
use xp_base::reason::Reason;
use xp_base::session::Session;

/// How many notes a node makes at most on one end in one turn: a release that is begun, a message
/// that is accepted, the notices of a whole queue, and a message that is taken. No list of a record
/// grows by more in a turn.
pub const TURN_ROOM: u32 = LINES + 3;

/// The bodies of messages, in their order.
#[derive(Drop)]
pub struct Bodies {
    list: Vec<Body>,
}

impl Bodies {
    /// How many bodies there are.
    pub fn len(&self) -> u64
        ensures { result ≡ length self.now.list.items }
    {
        self.list.len() as u64
    }

    /// Body `n`, from 0.
    pub fn at(&self, n: u64) -> &Body
        requires { n < length self.now.list.items }
        ensures { slice_get self.now.list.items n ≡ Some result.now }
    {
        &self.list[n as usize]
    }
}

/// Numbers of messages, in their order.
#[derive(Drop)]
pub struct Numbers {
    list: Vec<u64>,
}

impl Numbers {
    /// How many numbers there are.
    pub fn len(&self) -> u64
        ensures { result ≡ length self.now.list.items }
    {
        self.list.len() as u64
    }

    /// Number `n`, from 0.
    pub fn at(&self, n: u64) -> u64
        requires { n < length self.now.list.items }
        ensures { slice_get self.now.list.items n ≡ Some result }
    {
        self.list[n as usize]
    }
}

/// A connection as one of its ends saw it: which one it is, and what came of it. Contracts see what
/// it says, for how many notes its lists have room, and for how many numbers of which the end of
/// the connection is told.
#[derive(Drop)]
pub struct Record {
    pub partner: PartId,
    pub channel: Channel,
    pub epoch: u64,
    /// The session of this end.
    pub own: Session,
    /// The session of the partner's end.
    pub theirs: Session,
    /// Whether the connection was ever connected.
    pub connected: bool,
    /// The messages that this end's sends were told were accepted.
    pub accepted: Bodies,
    /// The messages that were taken at this end.
    pub taken: Bodies,
    /// The numbers of the messages whose release was begun.
    pub released: Numbers,
    /// The last get that this end stored, 0 before.
    pub acked: u64,
    /// The numbers of the messages whose senders asked for a notice.
    pub asked: Numbers,
    /// The numbers of the messages whose delivery was told.
    pub delivered: Numbers,
    /// The numbers of the messages that were still undelivered when the connection ended.
    pub ended: Numbers,
    /// Why the connection ended, once it has.
    pub over: Option<Reason>,
    calls: u32,
    ends: u32,
}

impl Model for Record {
    ghost use Rattle.xp_connections.specs.Page.{Page};

    ghost Value = { Page };

    ghost use Rattle.xp_connections.specs.RecordInside.{view_of, IsRoomy};

    ghost view = { view_of };

    ghost invariant = { IsRoomy };
}

impl Record {
    /// A record before its connection is begun. It takes no memory.
    pub fn blank(alloc: Global, partner: PartId, channel: Channel) -> Record
        ensures { result ≡ record { said = blank_record partner channel; calls = 0; ends = 0 } }
    {
        let nobody = Session { stamp: 0, count: 0 };
        Record {
            partner,
            channel,
            epoch: 0,
            own: nobody,
            theirs: nobody,
            connected: false,
            accepted: Bodies {
                list: Vec::new(alloc),
            },
            taken: Bodies {
                list: Vec::new(alloc),
            },
            released: Numbers {
                list: Vec::new(alloc),
            },
            acked: 0,
            asked: Numbers {
                list: Vec::new(alloc),
            },
            delivered: Numbers {
                list: Vec::new(alloc),
            },
            ended: Numbers {
                list: Vec::new(alloc),
            },
            over: None,
            calls: 0,
            ends: 0,
        }
    }

    /// Whether there is room for the notes of a turn.
    pub fn is_roomy(&self) -> bool
        ensures calls { result ≡ true → TURN_ROOM ≤ self.now.calls }
        ensures ends { result ≡ true → LINES ≤ self.now.ends }
        ensures no { TURN_ROOM ≤ self.now.calls → LINES ≤ self.now.ends → result ≡ true }
    {
        self.calls >= TURN_ROOM && self.ends >= LINES
    }

    /// Makes room for the notes of a turn.
    #[cold]
    #[inline(never)]
    pub fn reserve(&mut self) -> Result<(), AllocError>
        ensures calls { OnOk result (TURN_ROOM ≤ self.new.calls) }
        ensures ends { OnOk result (LINES ≤ self.new.ends) }
        ensures same { self.new ≡ record self.old { calls = self.new.calls; ends = self.new.ends } }
        ensures calls_kept { self.old.calls ≤ self.new.calls }
        ensures ends_kept { self.old.ends ≤ self.new.ends }
    {
        let room = TURN_ROOM as usize;
        self.accepted.list.reserve(room)?;
        self.taken.list.reserve(room)?;
        self.released.list.reserve(room)?;
        self.asked.list.reserve(room)?;
        self.delivered.list.reserve(room)?;
        self.ended.list.reserve(LINES as usize)?;
        self.calls = TURN_ROOM;
        self.ends = LINES;
        Ok(())
    }
}

impl Record {
    /// The connection is begun: in which epoch, and under which sessions.
    pub fn begin(&mut self, epoch: u64, own: Session, theirs: Session)
        ensures { self.new ≡ record self.old
            { said = has_begun epoch own theirs false self.old.said } }
    {
        self.epoch = epoch;
        self.own = own;
        self.theirs = theirs;
        self.connected = false;
    }

    /// The connection is connected.
    pub fn note_connected(&mut self)
        ensures { self.new ≡ record self.old { said = has_connected self.old.said } }
    {
        self.connected = true;
    }

    /// A message was accepted, whose send asked for a notice or didn't.
    pub fn note_accepted(&mut self, number: u64, body: &Body, asks: bool)
        requires { 0 < self.old.calls }
        ensures { self.new ≡ record self.old
            { said = accepted_in number body.now asks self.old.said; calls = self.old.calls - 1 } }
    {
        let _ = self.accepted.list.push(body.copy());
        if asks {
            let _ = self.asked.list.push(number);
        }
        self.calls -= 1;
    }

    /// A message was taken.
    pub fn note_taken(&mut self, body: &Body)
        requires { 0 < self.old.calls }
        ensures { self.new ≡ record self.old
            { said = has_taken body.now self.old.said; calls = self.old.calls - 1 } }
    {
        let _ = self.taken.list.push(body.copy());
        self.calls -= 1;
    }

    /// The release of a message was begun.
    pub fn note_released(&mut self, number: u64)
        requires { 0 < self.old.calls }
        ensures { self.new ≡ record self.old
            { said = has_released number self.old.said; calls = self.old.calls - 1 } }
    {
        let _ = self.released.list.push(number);
        self.calls -= 1;
    }

    /// A get was stored.
    pub fn note_acked(&mut self, get: u64)
        ensures { self.new ≡ record self.old { said = has_acked get self.old.said } }
    {
        self.acked = get;
    }

    /// The delivery of a message was told.
    pub fn note_delivered(&mut self, number: u64)
        requires { 0 < self.old.calls }
        ensures { self.new ≡ record self.old
            { said = has_delivered number self.old.said; calls = self.old.calls - 1 } }
    {
        let _ = self.delivered.list.push(number);
        self.calls -= 1;
    }

    /// A message whose sender asked for a notice was still undelivered when the connection ended.
    pub fn note_ended(&mut self, number: u64)
        requires { 0 < self.old.ends }
        ensures { self.new ≡ record self.old
            { said = has_ended number self.old.said; ends = self.old.ends - 1 } }
    {
        let _ = self.ended.list.push(number);
        self.ends -= 1;
    }

    /// The connection is over for a reason.
    pub fn note_over(&mut self, reason: Reason)
        ensures { self.new ≡ record self.old { said = has_over reason self.old.said } }
    {
        self.over = Some(reason);
    }
}
