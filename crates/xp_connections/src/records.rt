// The records of an end's connections, and records that are made ready for the next ones.
ghost use Rattle.std.specs.Prelude.{◌≡◌, ◌<◌, ◌≤◌, ◌-◌, ◌+◌, ◌∷◌, ◌++◌, [], OnOk, length, map, reverse, nat_le, slice_get, true, false};
ghost use Rattle.xp_base.specs.declared.layout.TheConstants.{LINES};
ghost use Rattle.xp_protocol.specs.Records.{blank_record, has_begun};
ghost use Rattle.xp_protocol.specs.Effects.{BySend, Accepted, Joined, Taken, Freed, Acked, Told, ToldOver, Over, in_newest};
ghost use Rattle.xp_connections.specs.declared.record.TheConstants.{TURN_ROOM};
ghost use Rattle.xp_connections.specs.Page.{Page, said_of};

use crate::record::Record;
use std::alloc::{AllocError, Global};
use std::marker::Model;
use xp_base::body::Body;
use xp_base::ids::{Channel, PartId};
use xp_base::reason::Reason;
use xp_base::session::Session;

/// The records of an end's connections, and why those of this boot ended. Contracts see them, the
/// newest record first, whether its connection is still going on, for how many notes it has room,
/// and for how many more connections there is a place.
#[derive(Drop)]
pub struct Records {
    alloc: Global,
    partner: PartId,
    channel: Channel,
    /// The records in the order in which their connections were begun.
    list: Vec<Record>,
    /// Why connections ended, the first one first.
    closed: Vec<Reason>,
    /// Whether the newest connection was begun and isn't over.
    ongoing: bool,
    /// For how many more connections there is a place in both lists.
    next: u8,
}

impl Model for Records {
    ghost use Rattle.xp_connections.specs.Page.{Pages};

    ghost Value = { Pages };

    ghost use Rattle.xp_connections.specs.RecordsInside.{view_of, IsSound};

    ghost view = { view_of };

    ghost invariant = { IsSound };
}

impl Records {
    /// No records. It keeps the allocator, and takes no memory.
    pub fn new(alloc: Global, partner: PartId, channel: Channel) -> Records
        ensures { result ≡ record {
          partner = partner;
          channel = channel;
          said = [];
          closed = [];
          ongoing = false;
          calls =
              TURN_ROOM;
          ends = LINES;
          next = 0;
        } }
    {
        Records {
            alloc,
            partner,
            channel,
            list: Vec::new(alloc),
            closed: Vec::new(alloc),
            ongoing: false,
            next: 0,
        }
    }

    /// The partner of the end, and the channel.
    pub fn partner(&self) -> PartId
        ensures { result ≡ self.now.partner }
    {
        self.partner
    }

    pub fn channel(&self) -> Channel
        ensures { result ≡ self.now.channel }
    {
        self.channel
    }

    /// The records, in the order in which their connections were begun.
    pub fn as_slice(&self) -> &[Record]
        ensures { map said_of (reverse result.now) ≡ self.now.said }
    {
        &self.list
    }

    /// Makes room for the notes of a turn in the newest record.
    #[tactic(auto, using(crate::proofs::Newest::last_is, crate::proofs::Newest::last_set))]
    pub fn reserve(&mut self) -> Result<(), AllocError>
        ensures calls { OnOk result (TURN_ROOM ≤ self.new.calls) }
        ensures ends { OnOk result (LINES ≤ self.new.ends) }
        ensures same { self.new ≡ record self.old { calls = self.new.calls; ends = self.new.ends } }
        ensures calls_kept { self.old.calls ≤ self.new.calls }
        ensures ends_kept { self.old.ends ≤ self.new.ends }
    {
        if self.list.is_empty() {
            return Ok(());
        }
        let last = self.list.len() - 1;
        let newest = &mut self.list[last];
        if newest.is_roomy() {
            return Ok(());
        }
        newest.reserve()
    }

    /// Makes a place for two more connections.
    pub fn reserve_next(&mut self) -> Result<(), AllocError>
        ensures next { OnOk result (2 ≤ self.new.next) }
        ensures same { self.new ≡ record self.old { next = self.new.next } }
        ensures kept { self.old.next ≤ self.new.next }
    {
        if self.next >= 2 {
            return Ok(());
        }
        self.list.reserve(2)?;
        self.closed.reserve(3)?;
        self.next = 2;
        Ok(())
    }

    /// Whether there is a place for two more connections.
    pub fn has_next(&self) -> bool
        ensures { result ≡ nat_le 2 self.now.next }
    {
        self.next >= 2
    }

    /// Whether there is room for the notes of a turn.
    pub fn is_roomy(&self) -> bool
        ensures calls { result ≡ true → TURN_ROOM ≤ self.now.calls }
        ensures ends { result ≡ true → LINES ≤ self.now.ends }
        ensures no { TURN_ROOM ≤ self.now.calls → LINES ≤ self.now.ends → result ≡ true }
    {
        match self.list.last() {
            Some(newest) => newest.is_roomy(),
            None => true,
        }
    }

    /// A connection is begun: in which epoch, and under which sessions. Its record has no room for
    /// notes yet.
    pub fn begin(&mut self, epoch: u64, own: Session, theirs: Session)
        requires { 0 < self.old.next }
        ensures { let said = has_begun epoch own theirs false
            (blank_record self.old.partner self.old.channel) ∷ self.old.said in
            self.new ≡ record self.old
            { said = said; ongoing = true; calls = 0; ends = 0; next = self.old.next - 1 } }
    {
        let mut record = Record::blank(self.alloc, self.partner, self.channel);
        record.begin(epoch, own, theirs);
        let _ = self.list.push(record);
        self.ongoing = true;
        self.next -= 1;
    }

    /// A boot begins: why connections ended isn't known any more. The records stay.
    pub fn forget_reasons(&mut self)
        ensures { self.new ≡ record self.old { closed = [] } }
    {
        self.closed.clear();
    }

    /// How many connections of this boot ended.
    pub fn closed_count(&self) -> u64
        ensures { result ≡ length self.now.closed }
    {
        self.closed.len() as u64
    }

    /// Why connection `n` of this boot ended, from 0; None where it hasn't.
    pub fn closed_reason(&self, n: u64) -> Option<Reason>
        ensures { result ≡ slice_get self.now.closed n }
    {
        if n < self.closed.len() as u64 {
            Some(self.closed[n as usize])
        } else {
            None
        }
    }
}

impl Records {
    /// The newest connection is connected.
    #[tactic(auto, using(crate::proofs::Newest::last_is, crate::proofs::Newest::last_set))]
    pub fn note_connected(&mut self)
        ensures { self.new ≡ record self.old { said = in_newest Joined self.old.said } }
    {
        if self.list.is_empty() {
            return;
        }
        let last = self.list.len() - 1;
        let newest = &mut self.list[last];
        newest.note_connected();
    }

    /// A message was accepted on the newest connection, whose send asked for a notice or didn't.
    #[tactic(auto, using(crate::proofs::Newest::last_is, crate::proofs::Newest::last_set))]
    pub fn note_accepted(&mut self, number: u64, body: &Body, asks: bool)
        requires { 0 < self.old.calls }
        ensures records { self.new ≡
            record self.old {
              said = in_newest (BySend (Accepted number body.now asks))
                  self.old.said;
              calls = self.new.calls;
            } }
        ensures calls { self.old.calls ≤ self.new.calls + 1 }
    {
        if self.list.is_empty() {
            return;
        }
        let last = self.list.len() - 1;
        let newest = &mut self.list[last];
        newest.note_accepted(number, body, asks);
    }

    /// A message was taken on the newest connection.
    #[tactic(auto, using(crate::proofs::Newest::last_is, crate::proofs::Newest::last_set))]
    pub fn note_taken(&mut self, body: &Body)
        requires { 0 < self.old.calls }
        ensures records { self.new ≡
            record self.old {
              said = in_newest (Taken body.now) self.old.said;
              calls =
                  self.new.calls;
            } }
        ensures calls { self.old.calls ≤ self.new.calls + 1 }
    {
        if self.list.is_empty() {
            return;
        }
        let last = self.list.len() - 1;
        let newest = &mut self.list[last];
        newest.note_taken(body);
    }

    /// The release of a message was begun on the newest connection.
    #[tactic(auto, using(crate::proofs::Newest::last_is, crate::proofs::Newest::last_set))]
    pub fn note_released(&mut self, number: u64)
        requires { 0 < self.old.calls }
        ensures records { self.new ≡
            record self.old {
              said = in_newest (Freed number) self.old.said;
              calls = self.new.calls;
            } }
        ensures calls { self.old.calls ≤ self.new.calls + 1 }
    {
        if self.list.is_empty() {
            return;
        }
        let last = self.list.len() - 1;
        let newest = &mut self.list[last];
        newest.note_released(number);
    }

    /// A get was stored on the newest connection.
    #[tactic(auto, using(crate::proofs::Newest::last_is, crate::proofs::Newest::last_set))]
    pub fn note_acked(&mut self, get: u64)
        ensures { self.new ≡ record self.old { said = in_newest (Acked get) self.old.said } }
    {
        if self.list.is_empty() {
            return;
        }
        let last = self.list.len() - 1;
        let newest = &mut self.list[last];
        newest.note_acked(get);
    }

    /// The delivery of a message was told on the newest connection.
    #[tactic(auto, using(crate::proofs::Newest::last_is, crate::proofs::Newest::last_set))]
    pub fn note_delivered(&mut self, number: u64)
        requires { 0 < self.old.calls }
        ensures records { self.new ≡
            record self.old
            { said = in_newest (Told number) self.old.said; calls = self.new.calls } }
        ensures calls { self.old.calls ≤ self.new.calls + 1 }
    {
        if self.list.is_empty() {
            return;
        }
        let last = self.list.len() - 1;
        let newest = &mut self.list[last];
        newest.note_delivered(number);
    }

    /// A message whose sender asked for a notice was still undelivered when the newest connection
    /// ended.
    #[tactic(auto, using(crate::proofs::Newest::last_is, crate::proofs::Newest::last_set))]
    pub fn note_ended(&mut self, number: u64)
        requires { 0 < self.old.ends }
        ensures records { self.new ≡
            record self.old {
              said = in_newest (ToldOver number) self.old.said;
              ends = self.new.ends;
            } }
        ensures ends { self.old.ends ≤ self.new.ends + 1 }
    {
        if self.list.is_empty() {
            return;
        }
        let last = self.list.len() - 1;
        let newest = &mut self.list[last];
        newest.note_ended(number);
    }

    /// The newest connection is over for a reason, which is kept for the commands that wait for its
    /// end.
    #[tactic(auto, using(crate::proofs::Newest::last_is, crate::proofs::Newest::last_set))]
    pub fn note_over(&mut self, reason: Reason)
        requires { self.old.ongoing ≡ true }
        ensures { self.new ≡ record self.old {
          said = in_newest (Over reason) self.old.said;
          closed = self.old.closed ++ reason ∷ [];
          ongoing = false;
        } }
    {
        let _ = self.closed.push(reason);
        self.ongoing = false;
        if self.list.is_empty() {
            return;
        }
        let last = self.list.len() - 1;
        let newest = &mut self.list[last];
        newest.note_over(reason);
    }
}
