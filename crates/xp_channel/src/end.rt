// One end of a channel: what it knows, how its connections begin and end, and the records of them.
ghost use Rattle.std.specs.Prelude.{◌≡◌, ℕ, ◌+◌, ◌-◌, ◌<◌, ◌≤◌, ◌^◌, ◌++◌, ◌∷◌, [], length, map, reverse, IfSome, IsSome, OnOk, IfOk, Some, None, is_some, true, false, ◌&&◌, ◌||◌, not, nat_lt, nat_eq, vec_len, vec_capacity};
ghost use Rattle.xp_base.specs.declared.layout.TheConstants.{LINES};
ghost use Rattle.xp_connections.specs.declared.record.TheConstants.{TURN_ROOM};
ghost use Rattle.xp_connections.specs.Page.{said_of};
ghost use Rattle.xp_protocol.specs.Parts.{IsRequestSize};
ghost use Rattle.xp_protocol.specs.Effects.{ToldOver, with_notes};
ghost use Rattle.xp_protocol.specs.Pulling.{is_copying};
ghost use Rattle.xp_protocol.specs.Sending.{wants_notice};
ghost use Rattle.xp_protocol.specs.State.{link_of, is_connected, may_copy, is_begun};
ghost use Rattle.xp_protocol.specs.Runs.{owes};
ghost use Rattle.xp_protocol.specs.Linking.{opened_notes, close_now, channel_closed, over_note, closed_more, kept_for, request_of, link_finished, link_down, link_joined, booted_end};
ghost use Rattle.xp_pull.specs.Planned.{has_message};
ghost use Rattle.xp_channel.specs.Channel.{Channel, new_channel, no_waiting, kept, recorded, roomed};
ghost use Rattle.xp_channel.specs.Room.{needs_sides, HasRoom, HasTurnRoom, IsNoLess, Settles, IsCountable, MayAsk};
ghost use Rattle.xp_channel.specs.Opening.{contact_of, warm_in};

mod commanding;
mod planning;
mod settling;

use std::alloc::{AllocError, Global};
use std::marker::Model;
use xp_base::answer::{DrainAnswer, RegisterAnswer, ReleaseAnswer, SendAnswer, UnregisterAnswer};
use xp_base::body::LINE_BYTES;
use xp_base::ids::{Channel, PartId};
use xp_base::layout::{LINES, REQUEST_ENTRY};
use xp_base::link::{Kind, LinkState};
use xp_base::reason::Reason;
use xp_base::session::Session;
use xp_connections::record::Record;
use xp_connections::records::Records;
use xp_openclose::handshake::Handshake;
use xp_protocol::contact::{Contact, Size};
use xp_protocol::refusal::TakeRefusal;
use xp_sides::sides::Sides;

/// The work of one end, by which its steps are asked for.
#[derive(Clone, Copy)]
pub enum Work {
    /// Message requests, the store of get, and the handshake: its flags, the words that are stored
    /// before them, and the arguments of the partner's flags.
    Signal,
    /// The load of get alone, the words of the own entry, and put.
    Send,
    /// The load of both counters, and the words of the partner's entries.
    Pull,
}

/// The answers that were decided and not given yet.
#[derive(Drop)]
pub struct Decided {
    pub send: Option<SendAnswer>,
    pub take: Option<TakeRefusal>,
    pub release: Option<ReleaseAnswer>,
    pub drain: Option<DrainAnswer>,
    pub register: Option<RegisterAnswer>,
    pub unregister: Option<UnregisterAnswer>,
}

impl Decided {
    /// No command has an answer.
    pub fn nothing() -> Decided
        ensures { result ≡ record {
          send = None;
          take = None;
          release = None;
          drain = None;
          register = None;
          unregister =
              None;
        } }
    {
        Decided {
            send: None,
            take: None,
            release: None,
            drain: None,
            register: None,
            unregister: None,
        }
    }
}

/// Which waits of the caller of `command` are in progress.
#[derive(Clone, Copy)]
pub struct Waiting {
    /// Whether a wait for a connection is in progress.
    pub connected: bool,
    /// Whether a wait for the end of a connection is in progress.
    pub closed: bool,
}

impl Waiting {
    /// No wait is in progress.
    pub fn none() -> Waiting
        ensures { result ≡ no_waiting }
    {
        Waiting {
            connected: false,
            closed: false,
        }
    }
}

/// One end of a channel. Contracts see what it knows, the records of its connections, and the room
/// that it has.
#[derive(Drop)]
pub struct ChannelEnd {
    alloc: Global,
    own: PartId,
    registration: Option<Size>,
    epoch: u64,
    shake: Handshake,
    sides: Sides,
    /// The numbers whose connection ended, which is still to be told.
    ended: Vec<u64>,
    /// How many times this boot's script waited, or waits, for the end of a connection.
    closed_asked: u64,
    decided: Decided,
    waiting: Waiting,
    records: Records,
}

impl Model for ChannelEnd {
    ghost use Rattle.xp_channel.specs.Channel.{Channel};

    ghost Value = { Channel };

    ghost use Rattle.xp_channel.specs.EndInside.{view_of, IsSound};

    ghost view = { view_of };

    ghost invariant = { IsSound };
}

// Each number that waits for a notice is told as ended.
#[tactic(auto, using(crate::proofs::Telling::left_numbers, crate::proofs::Telling::left_notes))]
fn tell_over(sides: &mut Sides, ended: &mut Vec<u64>, records: &mut Records)
    requires few { length sides.old.sides.pending_notices + vec_len ended.old ≤ LINES }
    requires room { sides.old.ready ≡ true → LINES ≤ vec_capacity ended.old }
    requires paid { length sides.old.sides.pending_notices ≤ records.old.ends }
    ensures sides { sides.new ≡
        record sides.old { sides = record sides.old.sides { pending_notices = [] } } }
    ensures ended { ended.new.items ≡ ended.old.items ++ sides.old.sides.pending_notices }
    ensures room { vec_capacity ended.old ≤ vec_capacity ended.new }
    ensures records { let said = with_notes records.old.partner records.old.channel
        (map ToldOver sides.old.sides.pending_notices) records.old.said in
        records.new ≡ record records.old { said = said; ends = records.new.ends } }
{
    if let Some(number) = sides.first_notice() {
        let _ = ended.push(number);
        records.note_ended(number);
        tell_over(sides, ended, records);
    }
}

// Each number that waits for a notice waits to be told as ended.
#[tactic(auto, using(crate::proofs::Telling::left_numbers))]
fn move_notices(sides: &mut Sides, ended: &mut Vec<u64>)
    requires few { length sides.old.sides.pending_notices + vec_len ended.old ≤ LINES }
    requires room { sides.old.ready ≡ true → LINES ≤ vec_capacity ended.old }
    ensures sides { sides.new ≡
        record sides.old { sides = record sides.old.sides { pending_notices = [] } } }
    ensures ended { ended.new.items ≡ ended.old.items ++ sides.old.sides.pending_notices }
    ensures room { vec_capacity ended.old ≤ vec_capacity ended.new }
{
    if let Some(number) = sides.first_notice() {
        let _ = ended.push(number);
        move_notices(sides, ended);
    }
}

// A connection is over: its record says why, and of each number that waits for a notice that it
// ended first.
#[tactic(auto, using(crate::proofs::Silent::with_notes_append))]
fn end_connection(
    reason: Option<Reason>,
    sides: &mut Sides,
    ended: &mut Vec<u64>,
    records: &mut Records,
)
    requires ongoing { IsSome reason → records.old.ongoing ≡ true }
    requires few { length sides.old.sides.pending_notices + vec_len ended.old ≤ LINES }
    requires room { sides.old.ready ≡ true → LINES ≤ vec_capacity ended.old }
    requires paid { length sides.old.sides.pending_notices ≤ records.old.ends }
    ensures sides { sides.new ≡
        record sides.old { sides = record sides.old.sides { pending_notices = [] } } }
    ensures ended { ended.new.items ≡ ended.old.items ++ sides.old.sides.pending_notices }
    ensures records { let said = with_notes records.old.partner records.old.channel
        (over_note reason ++ map ToldOver sides.old.sides.pending_notices) records.old.said in
        let closed = closed_more reason records.old.closed in
        records.new ≡ record records.old {
          said = said;
          closed = closed;
          ongoing = records.new.ongoing;
          ends = records.new.ends;
        } }
{
    if let Some(reason) = reason {
        records.note_over(reason);
    }
    tell_over(sides, ended, records);
}

// The registration that stays after a connection: unequal sizes, and an argument that was refused,
// withdraw it.
fn kept_registration(reason: Option<Reason>, registration: Option<Size>) -> Option<Size>
    ensures { result ≡ kept_for reason registration }
{
    match reason {
        Some(Reason::UnequalSizes { .. }) | Some(Reason::BadArgs { .. }) => None,
        _ => registration,
    }
}

// The size of the sides of an end at which nothing was begun.
fn largest_size() -> Size
    ensures { result ≡ record { entries = LINES; limit = LINE_BYTES } }
{
    Size {
        entries: LINES as u8,
        limit: LINE_BYTES as u16,
    }
}

impl ChannelEnd {
    /// An end that was never in contact, and whose channel isn't registered. It keeps the
    /// allocator, and takes no memory.
    pub fn new(alloc: Global, own: PartId, partner: PartId, channel: Channel) -> ChannelEnd
        ensures { result ≡ new_channel own partner channel }
    {
        ChannelEnd {
            alloc,
            own,
            registration: None,
            epoch: 0,
            shake: Handshake::new(),
            sides: Sides::new(largest_size(), largest_size()),
            ended: Vec::new(alloc),
            closed_asked: 0,
            decided: Decided::nothing(),
            waiting: Waiting::none(),
            records: Records::new(alloc, partner, channel),
        }
    }

    /// Makes room for all that the calls of one turn append: every step of the turn may be made
    /// then, also one that opens the channel. After want of memory the end is as before, but for
    /// its room, of which none is lost.
    pub fn reserve(&mut self) -> Result<(), AllocError>
        ensures ok { OnOk result (HasTurnRoom self.new) }
        ensures room { OnOk result (HasRoom self.new) }
        ensures same { self.new ≡ roomed self.old self.new }
        ensures kept { IsNoLess self.old.room self.new.room }
    {
        if self.shake.contact().is_some() {
            self.records.reserve_next()?;
        }
        if self.needs_sides() {
            self.records.reserve()?;
            self.ended.reserve(LINES as usize)?;
            self.sides.reserve(self.alloc)?;
        }
        Ok(())
    }

    /// Whether there is room for all that the calls of one turn append.
    pub fn has_turn_room(&self) -> bool
        ensures yes { result ≡ true → HasTurnRoom self.now }
        ensures no { HasTurnRoom self.now → result ≡ true }
    {
        if self.shake.contact().is_some() && !self.records.has_next() {
            return false;
        }
        !self.needs_sides() || self.sides.is_ready() && self.records.is_roomy()
    }

    // Whether the end takes part in carrying messages.
    fn needs_sides(&self) -> bool
        ensures { result ≡ needs_sides self.now.end }
    {
        self.shake.has_sent(Kind::OpenComplete) || self.shake.has_sent(Kind::OpenReply)
    }

    /// There is contact with the partner, under these sessions, until it goes down: both versions
    /// know entries of several lines, or not both do. The channel stays registered as it is.
    pub fn start(&mut self, own: Session, theirs: Session, both_new: bool)
        ensures end { self.new ≡
            roomed (kept (link_joined both_new (contact_of own theirs) self.old.end) self.old)
            self.new }
        ensures next { self.new.room.next ≡ self.old.room.next }
    {
        move_notices(&mut self.sides, &mut self.ended);
        self.epoch = 0;
        self.sides = Sides::new(largest_size(), largest_size());
        self.shake.start(Contact { own, theirs }, both_new);
    }

    /// The channel is registered and connected on both ends, for queues of this size, from now on,
    /// in the contact that was made by `start`.
    pub fn warm(&mut self, entries: u8, limit: u16)
        requires size { IsRequestSize entries limit }
        requires contact { IsSome self.old.end.shake.meet }
        requires fresh { is_begun self.old.end ≡ false }
        requires next { 0 < self.old.room.next }
        ensures end { self.new ≡ roomed (warm_in entries limit self.old) self.new }
        ensures next { self.old.room.next ≡ self.new.room.next + 1 }
    {
        let Some(contact) = self.shake.contact() else {
            return;
        };
        let size = Size { entries, limit };
        self.records.begin(0, contact.own, contact.theirs);
        self.records.note_connected();
        self.registration = Some(size);
        self.epoch = 0;
        self.sides = Sides::new(size, size);
        self.shake.open(size);
    }
}

impl ChannelEnd {
    /// The partner is deactivated: an epoch that is begun gets the reason, unless it has one, and
    /// from then on no flag is owed and no copy goes on. What is in progress is answered by
    /// `answer`.
    #[tactic(auto, using(crate::proofs::Silent::with_notes_append))]
    pub fn down(&mut self, reason: Reason)
        ensures end { self.new ≡ kept (link_down reason self.old.end) self.old }
        ensures sent { self.new.end.shake.sent ≡ self.old.end.shake.sent }
    {
        if self.shake.is_begun() {
            self.close(reason);
        }
        self.shake.leave();
        self.sides.end_copies();
    }

    /// The session is over: a begun epoch ends with its reason, and epoch 0 of the next session
    /// follows. The registration stays, unless the reason withdraws it.
    #[tactic(auto, using(crate::proofs::Silent::with_notes_append))]
    pub fn finish(&mut self)
        ensures end { self.new ≡ roomed (kept (link_finished self.old.end) self.old) self.new }
        ensures next { self.new.room.next ≡ self.old.room.next }
    {
        let reason = self.shake.reason();
        end_connection(reason, &mut self.sides, &mut self.ended, &mut self.records);
        self.registration = kept_registration(reason, self.registration);
        self.sides.renew();
        self.shake = Handshake::new();
        self.epoch = 0;
    }

    /// The partition boots: nothing is known, and the channel isn't registered. What was recorded
    /// stays.
    pub fn boot(&mut self)
        ensures end { self.new ≡
            roomed (record self.old { end = booted_end self.old.end; waiting = no_waiting })
            self.new }
        ensures next { self.new.room.next ≡ self.old.room.next }
    {
        self.registration = None;
        self.sides.renew();
        self.shake = Handshake::new();
        self.epoch = 0;
        self.ended.clear();
        self.closed_asked = 0;
        self.decided = Decided::nothing();
        self.waiting = Waiting::none();
        self.records.forget_reasons();
    }
}

impl ChannelEnd {
    // The record of the epoch is begun, unless it was.
    fn open_record(&mut self)
        requires next { is_begun self.old.end ≡ false → 0 < self.old.room.next }
        ensures end { self.new ≡ roomed (recorded (opened_notes self.old.end) self.old) self.new }
        ensures begun { is_begun self.old.end ≡ true → self.new.room ≡ self.old.room }
        ensures next { self.old.room.next ≤ self.new.room.next + 1 }
        ensures ongoing { IsSome self.old.end.shake.meet → self.old.end.shake.reason ≡ None →
            self.new.room.ongoing ≡ true }
    {
        if self.shake.is_begun() {
            return;
        }
        if let Some(contact) = self.shake.contact() {
            self.records.begin(self.epoch, contact.own, contact.theirs);
        }
    }
}

impl ChannelEnd {
    // The connection goes down for a reason, unless it has one: what goes on is over, and what is
    // in progress is answered.
    #[tactic(auto, using(crate::proofs::Silent::close_steps))]
    fn close(&mut self, reason: Reason)
        requires { is_begun self.old.end ≡ false → self.old.room.ongoing ≡ true }
        ensures end { self.new ≡
            kept (close_now self.old.end.shake.reason reason self.old.end) self.old }
        ensures closed { is_some self.new.end.shake.reason ≡ true }
        ensures sent { self.new.end.shake.sent ≡ self.old.end.shake.sent }
        ensures meet { self.new.end.shake.meet ≡ self.old.end.shake.meet }
        ensures epoch { self.new.end.epoch ≡ self.old.end.epoch }
    {
        if self.shake.reason().is_some() {
            return;
        }
        self.shake.close(reason);
        let send = self.sides.close_send(reason);
        let take = self.sides.close_pull(reason);
        let releasing = self.sides.end_release();
        let draining = self.sides.end_drain();
        if let Some(answer) = send {
            self.decided.send = Some(answer);
        }
        if let Some(refusal) = take {
            self.decided.take = Some(refusal);
        }
        if releasing {
            self.decided.release = Some(ReleaseAnswer::NotConnected);
        }
        if draining {
            self.decided.drain = Some(DrainAnswer::Disconnecting { reason });
        }
    }

    // The channel closes for a reason, unless it has one; the record of its epoch is begun before.
    #[tactic(auto, using(crate::proofs::Silent::with_notes_append, crate::proofs::Beginning::unbegun))]
    fn close_channel(&mut self, reason: Reason)
        requires next { is_begun self.old.end ≡ false → 0 < self.old.room.next }
        requires contact { is_begun self.old.end ≡ false → IsSome self.old.end.shake.meet }
        ensures end { self.new ≡
            roomed (kept (channel_closed reason self.old.end) self.old) self.new }
        ensures settles { Settles self.old self.new }
        ensures epoch { self.new.end.epoch ≡ self.old.end.epoch }
        ensures sent { self.new.end.shake.sent ≡ self.old.end.shake.sent }
        ensures closed { is_some self.new.end.shake.reason ≡ true }
    {
        self.open_record();
        self.close(reason);
    }

    // The channel closes for a reason, unless it has one, in an epoch whose record is begun.
    #[tactic(auto, using(crate::proofs::Silent::with_notes_append))]
    fn close_begun(&mut self, reason: Reason)
        requires { is_begun self.old.end ≡ true }
        ensures end { self.new ≡ kept (channel_closed reason self.old.end) self.old }
        ensures sent { self.new.end.shake.sent ≡ self.old.end.shake.sent }
        ensures meet { self.new.end.shake.meet ≡ self.old.end.shake.meet }
    {
        self.close(reason);
    }

    // The word of the registration, 0 where there is none.
    fn request_word(&self) -> u64
        ensures { result ≡ request_of self.now.end.registration }
    {
        match self.registration {
            Some(size) => size.limit as u64 + REQUEST_ENTRY * size.entries as u64,
            None => 0,
        }
    }
}

impl ChannelEnd {
    /// The state of the link.
    pub fn state(&self) -> LinkState
        ensures { result ≡ link_of self.now.end }
    {
        self.shake.state()
    }

    /// Whether a copy of this channel goes on.
    pub fn copying(&self) -> bool
        ensures { result ≡ is_copying self.now.end.sides.pull }
    {
        self.sides.copying()
    }

    /// Whether the link is connected and the next message is cached.
    pub fn ready(&self) -> bool
        ensures { result ≡ is_connected self.now.end && has_message self.now.end.sides.pull }
    {
        self.shake.is_connected() && self.sides.has_message()
    }

    /// Whether a copy of the counters goes on, or is owed.
    pub fn wants_counters(&self) -> bool
        ensures { result ≡
            is_some self.now.end.sides.pull.counters || self.now.end.sides.pull.owed }
    {
        self.sides.wants_counters()
    }

    /// Whether a flag or a store of get is owed: there is contact then.
    pub fn owes(&self) -> bool
        ensures { result ≡ is_some self.now.end.shake.meet && owes self.now.end }
    {
        self.shake.contact().is_some() && self.owes_in_contact()
    }

    /// Whether a flag or a store of get is owed, if there is contact.
    pub fn owes_in_contact(&self) -> bool
        ensures { result ≡ owes self.now.end }
    {
        let registered = self.registration.is_some();
        let copying = self.sides.copying();
        (self.shake.is_connected() && self.sides.local_get() < self.sides.front())
            || self.shake.owed(Kind::OpenRequest, registered, copying)
            || self.shake.owed(Kind::OpenReply, registered, copying)
            || self.shake.owed(Kind::OpenComplete, registered, copying)
            || self.shake.owed(Kind::CloseRequest, registered, copying)
            || self.shake.owed(Kind::CloseReply, registered, copying)
            || self.shake.owes_message()
    }

    /// The records of the connections, in the order in which they were begun.
    pub fn records(&self) -> &[Record]
        ensures { map said_of (reverse result.now) ≡ self.now.records }
    {
        self.records.as_slice()
    }

    /// Whether no count of the end is near its type's end.
    pub fn is_countable(&self) -> bool
        ensures yes { result ≡ true → IsCountable self.now.end }
        ensures no { IsCountable self.now.end → result ≡ true }
    {
        self.sides.put() < u64::MAX
            && self.sides.taken() < u64::MAX
            && self.epoch < u64::MAX
            && self.closed_asked < u64::MAX
    }

    /// Whether one more number may wait for a notice, where the send in progress asks for one.
    pub fn may_ask(&self) -> bool
        ensures yes { result ≡ true → MayAsk self.now.end }
        ensures no { MayAsk self.now.end → result ≡ true }
    {
        !self.sides.asks()
            || (self.sides.pending_notices() as usize + self.ended.len()) < LINES as usize
    }
}
