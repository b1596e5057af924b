// The commands to an end, their answers, and its notices.
ghost use Rattle.std.specs.Prelude.{◌≡◌, ◌+◌, ◌-◌, ◌<◌, ◌≤◌, ◌^◌, [], length, slice_get, is_some, IfSome, IsSome, Some, None, true, false};
ghost use Rattle.xp_base.specs.declared.body.TheConstants.{SEND_BYTES};
ghost use Rattle.xp_base.specs.History.{Delivered, Ended};
ghost use Rattle.xp_script.specs.Commands.{verb_of};
ghost use Rattle.xp_protocol.specs.Parts.{IsRequestSize};
ghost use Rattle.xp_protocol.specs.Pulling.{take_refusal, take_due};
ghost use Rattle.xp_protocol.specs.Releasing.{release_refusal};
ghost use Rattle.xp_protocol.specs.State.{link_of, is_connected};
ghost use Rattle.xp_protocol.specs.Acts.{end_begun, send_begun, refused_send, take_begun, release_begun, drain_begun, drain_refusal, register_begun, unregister_begun, due_by, take_found, take_logged, drain_logged, taken_by, notice_due, limit_of};
ghost use Rattle.xp_channel.specs.Channel.{kept, called};
ghost use Rattle.xp_channel.specs.Room.{HasRoom, IsCountable};
ghost use Rattle.xp_channel.specs.Answering.{IsWellFormed, given, noticed};

mod linking;

use crate::end::ChannelEnd;
use xp_base::answer::{
    DrainAnswer, RegisterAnswer, ReleaseAnswer, SendAnswer, TakeAnswer, UnregisterAnswer,
};
use xp_base::link::{Kind, LinkState};
use xp_base::reason::Reason;
use xp_protocol::contact::Size;
use xp_protocol::refusal::TakeRefusal;
use xp_script::command::Command;
use xp_script::log::{LogAnswer, Verb};

impl ChannelEnd {
    /// Begins a command to this end. Its answer, where it is decided at once, is given by
    /// `answer_of`.
    pub fn begin(&mut self, command: &Command)
        requires command { IsWellFormed command.now }
        requires room { HasRoom self.old }
        requires counts { IsCountable self.old.end }
        ensures end { self.new ≡
            called (kept (end_begun self.old.end command.now) self.old) self.new }
        ensures calls { self.old.room.calls ≤ self.new.room.calls + 1 }
        ensures sent { self.new.end.shake.sent ≡ self.old.end.shake.sent }
        ensures meet { self.new.end.shake.meet ≡ self.old.end.shake.meet }
    {
        match command {
            Command::Send {
                payload,
                wait,
                notify,
                ..
            } => self.begin_send(payload.bytes(), *wait, *notify),
            Command::Take { wait, .. } => self.begin_take(*wait),
            Command::Release { number, .. } => self.begin_release(*number),
            Command::Drain { .. } => self.begin_drain(),
            Command::Register { entries, limit, .. } => self.begin_register(Size {
                entries: *entries,
                limit: *limit,
            }),
            Command::Unregister { .. } => self.begin_unregister(),
            Command::Closed { .. } => self.closed_asked += 1,
            Command::Connected { .. }
            | Command::Net { .. }
            | Command::Frames { .. }
            | Command::Deactivate { .. }
            | Command::Activate { .. }
            | Command::Leave
            | Command::Idle { .. }
            | Command::Offline
            | Command::Online => {}
        }
    }

    // The channel is registered, unless it is already.
    #[tactic(auto, using(crate::proofs::Silent::registered_silent))]
    fn begin_register(&mut self, size: Size)
        requires { IsRequestSize size.entries size.limit }
        ensures end { self.new ≡ kept (register_begun self.old.end.registration size self.old.end)
            self.old }
        ensures sent { self.new.end.shake.sent ≡ self.old.end.shake.sent }
        ensures meet { self.new.end.shake.meet ≡ self.old.end.shake.meet }
    {
        if self.registration.is_some() {
            self.decided.register = Some(RegisterAnswer::Already);
            return;
        }
        self.registration = Some(size);
        self.decided.register = Some(RegisterAnswer::Ok);
    }

    // The registration is withdrawn: a channel that is open or about to be closes.
    #[tactic(auto, using(crate::proofs::Silent::unregister_steps, crate::proofs::Beginning::request_begun))]
    fn begin_unregister(&mut self)
        ensures end { self.new ≡
            kept (unregister_begun self.old.end.registration self.old.end) self.old }
        ensures sent { self.new.end.shake.sent ≡ self.old.end.shake.sent }
        ensures meet { self.new.end.shake.meet ≡ self.old.end.shake.meet }
    {
        if self.registration.is_none() {
            self.decided.unregister = Some(UnregisterAnswer::NotRegistered);
            return;
        }
        self.registration = None;
        self.decided.unregister = Some(UnregisterAnswer::Ok);
        if self.shake.has_sent(Kind::OpenRequest) && self.shake.reason().is_none() {
            self.close_begun(Reason::Unregistered);
        }
    }

    // A message is to be sent, unless it is refused.
    #[tactic(auto, using(crate::proofs::Silent::sent_silent))]
    fn begin_send(&mut self, payload: &[u8], wait: bool, notify: bool)
        requires payload { length payload.now ≤ SEND_BYTES }
        requires room { HasRoom self.old }
        ensures end { self.new ≡ kept
            (send_begun (refused_send self.old.end payload.now) payload.now wait notify
            self.old.end) self.old }
        ensures sent { self.new.end.shake.sent ≡ self.old.end.shake.sent }
        ensures meet { self.new.end.shake.meet ≡ self.old.end.shake.meet }
    {
        match self.refuse_send(payload) {
            Some(answer) => self.decided.send = Some(answer),
            None => self.sides.start_send(payload, wait, notify),
        }
    }

    // The limit of a payload: that of the connection where it stands, else the one for which the
    // channel is registered.
    fn payload_limit(&self) -> Option<u16>
        ensures { result ≡ limit_of self.now.end }
    {
        if self.shake.is_connected() {
            return Some(self.sides.own_limit());
        }
        match self.registration {
            Some(size) => Some(size.limit),
            None => None,
        }
    }

    // Why a send is refused: for its length first, then by the state of the link.
    #[tactic(auto, using(crate::proofs::Beginning::connected))]
    fn refuse_send(&self, payload: &[u8]) -> Option<SendAnswer>
        requires payload { length payload.now ≤ SEND_BYTES }
        ensures value { result ≡ refused_send self.now.end payload.now }
        ensures complete { result ≡ None → self.now.end.shake.sent.open_complete ≡ true }
        ensures limit { result ≡ None → length payload.now ≤ self.now.end.sides.send.limit }
    {
        if let Some(limit) = self.payload_limit() {
            if payload.len() > limit as usize {
                return Some(SendAnswer::TooBig {
                    length: payload.len() as u32,
                    limit,
                });
            }
        }
        match self.shake.state() {
            LinkState::Closing(reason) => Some(SendAnswer::Disconnecting { reason }),
            LinkState::Idle | LinkState::Opening => Some(SendAnswer::NotConnected),
            LinkState::Connected => None,
        }
    }

    // A message is to be taken, unless the state of the link refuses it.
    #[tactic(auto, using(crate::proofs::Silent::took_silent, crate::proofs::Beginning::connected))]
    fn begin_take(&mut self, wait: bool)
        requires { HasRoom self.old }
        ensures end { self.new ≡ kept
            (take_begun (take_refusal (link_of self.old.end)) wait self.old.end) self.old }
        ensures sent { self.new.end.shake.sent ≡ self.old.end.shake.sent }
        ensures meet { self.new.end.shake.meet ≡ self.old.end.shake.meet }
    {
        match self.shake.state() {
            LinkState::Closing(reason) => {
                self.decided.take = Some(TakeRefusal::Disconnecting { reason });
            }
            LinkState::Idle | LinkState::Opening => {
                self.decided.take = Some(TakeRefusal::NotConnected);
            }
            LinkState::Connected => self.sides.start_take(wait),
        }
    }

    // A message is released, unless there is no connection or it isn't held.
    #[tactic(auto, using(crate::proofs::Silent::released_silent, crate::proofs::Beginning::connected))]
    fn begin_release(&mut self, number: u64)
        requires { HasRoom self.old }
        ensures end { self.new ≡
            called (kept (release_begun
            (release_refusal (link_of self.old.end) number self.old.end.sides.ack) number
            self.old.end) self.old) self.new }
        ensures calls { self.old.room.calls ≤ self.new.room.calls + 1 }
        ensures sent { self.new.end.shake.sent ≡ self.old.end.shake.sent }
        ensures meet { self.new.end.shake.meet ≡ self.old.end.shake.meet }
    {
        if !self.shake.is_connected() {
            self.decided.release = Some(ReleaseAnswer::NotConnected);
            return;
        }
        if !self.sides.is_held(number) {
            self.decided.release = Some(ReleaseAnswer::NotHeld);
            return;
        }
        let before = self.sides.front();
        self.sides.release(number);
        let front = self.sides.front();
        self.records.note_released(number);
        if front == before {
            self.decided.release = Some(ReleaseAnswer::Ok { front });
        }
    }

    // Begins a drain, which waits until the partner has acknowledged all, unless the state of the
    // link refuses it.
    #[tactic(auto, using(crate::proofs::Silent::drained_silent, crate::proofs::Beginning::connected))]
    fn begin_drain(&mut self)
        requires { HasRoom self.old }
        ensures end { self.new ≡
            kept (drain_begun (drain_refusal (link_of self.old.end)) self.old.end) self.old }
        ensures sent { self.new.end.shake.sent ≡ self.old.end.shake.sent }
        ensures meet { self.new.end.shake.meet ≡ self.old.end.shake.meet }
    {
        match self.shake.state() {
            LinkState::Closing(reason) => {
                self.decided.drain = Some(DrainAnswer::Disconnecting { reason });
            }
            LinkState::Idle | LinkState::Opening => {
                self.decided.drain = Some(DrainAnswer::NotConnected);
            }
            LinkState::Connected => self.sides.start_drain(),
        }
    }
}

impl ChannelEnd {
    /// Gives the answer of a command of a kind, where it is due.
    pub fn answer_of(&mut self, verb: Verb) -> Option<LogAnswer>
        requires taken { verb ≡ Verb.Take → self.old.end.sides.pull.taken < 2 ^ 64 - 1 }
        requires room { HasRoom self.old }
        ensures answer { result ≡ due_by verb self.old.end }
        ensures none { result ≡ None → self.new ≡ self.old }
        ensures end { self.new ≡ called (kept (given verb self.old.end) self.old) self.new }
        ensures calls { self.old.room.calls ≤ self.new.room.calls + 1 }
        ensures sent { self.new.end.shake.sent ≡ self.old.end.shake.sent }
        ensures meet { self.new.end.shake.meet ≡ self.old.end.shake.meet }
    {
        match verb {
            Verb::Send => self.give_send(),
            Verb::Take => {
                let answer = self.give_take()?;
                Some(LogAnswer::Take(answer))
            }
            Verb::Release => self.give_release(),
            Verb::Drain => {
                let answer = self.give_drain()?;
                Some(LogAnswer::Drain(answer))
            }
            Verb::Register => self.give_register(),
            Verb::Unregister => self.give_unregister(),
            Verb::Connected => self.connected_answer(),
            Verb::Closed => {
                let reason = self.closed_due()?;
                Some(LogAnswer::Closed(reason))
            }
            Verb::Net
            | Verb::Frames
            | Verb::Deactivate
            | Verb::Activate
            | Verb::Leave
            | Verb::Idle
            | Verb::Offline
            | Verb::Online => None,
        }
    }

    // The answer of a send is given, where it is decided.
    fn give_send(&mut self) -> Option<LogAnswer>
        ensures answer { result ≡ due_by Verb.Send self.old.end }
        ensures none { result ≡ None → self.new ≡ self.old }
        ensures end { self.new ≡ kept (given Verb.Send self.old.end) self.old }
        ensures sent { self.new.end.shake.sent ≡ self.old.end.shake.sent }
        ensures meet { self.new.end.shake.meet ≡ self.old.end.shake.meet }
    {
        let answer = self.decided.send?;
        self.decided.send = None;
        Some(LogAnswer::Send(answer))
    }

    // The answer of a release is given, where it is decided.
    fn give_release(&mut self) -> Option<LogAnswer>
        ensures answer { result ≡ due_by Verb.Release self.old.end }
        ensures none { result ≡ None → self.new ≡ self.old }
        ensures end { self.new ≡ kept (given Verb.Release self.old.end) self.old }
        ensures sent { self.new.end.shake.sent ≡ self.old.end.shake.sent }
        ensures meet { self.new.end.shake.meet ≡ self.old.end.shake.meet }
    {
        let answer = self.decided.release?;
        self.decided.release = None;
        Some(LogAnswer::Release(answer))
    }

    // The answer of a registration is given, where it is decided.
    fn give_register(&mut self) -> Option<LogAnswer>
        ensures answer { result ≡ due_by Verb.Register self.old.end }
        ensures none { result ≡ None → self.new ≡ self.old }
        ensures end { self.new ≡ kept (given Verb.Register self.old.end) self.old }
        ensures sent { self.new.end.shake.sent ≡ self.old.end.shake.sent }
        ensures meet { self.new.end.shake.meet ≡ self.old.end.shake.meet }
    {
        let answer = self.decided.register?;
        self.decided.register = None;
        Some(LogAnswer::Register(answer))
    }

    // The answer of the withdrawal of a registration is given, where it is decided.
    fn give_unregister(&mut self) -> Option<LogAnswer>
        ensures answer { result ≡ due_by Verb.Unregister self.old.end }
        ensures none { result ≡ None → self.new ≡ self.old }
        ensures end { self.new ≡ kept (given Verb.Unregister self.old.end) self.old }
        ensures sent { self.new.end.shake.sent ≡ self.old.end.shake.sent }
        ensures meet { self.new.end.shake.meet ≡ self.old.end.shake.meet }
    {
        let answer = self.decided.unregister?;
        self.decided.unregister = None;
        Some(LogAnswer::Unregister(answer))
    }

    // The answer of a wait for a connection, where it stands.
    fn connected_answer(&self) -> Option<LogAnswer>
        ensures { result ≡ due_by Verb.Connected self.now.end }
    {
        if self.shake.is_connected() {
            Some(LogAnswer::Connected)
        } else {
            None
        }
    }

    // Why the connection ended for whose end the script waits.
    fn closed_due(&self) -> Option<Reason>
        ensures { result ≡ slice_get self.now.end.closed (self.now.end.closed_asked - 1) }
    {
        self.records
            .closed_reason(self.closed_asked.saturating_sub(1))
    }

    // The answer of a take is given, where it is due: the refusal that was decided, or what the
    // take in progress finds.
    #[tactic(auto, using(crate::proofs::Beginning::connected))]
    fn give_take(&mut self) -> Option<TakeAnswer>
        requires taken { self.old.end.sides.pull.taken < 2 ^ 64 - 1 }
        requires room { HasRoom self.old }
        ensures answer { take_logged None result ≡ due_by Verb.Take self.old.end }
        ensures none { result ≡ None → self.new ≡ self.old }
        ensures end { self.new ≡ called (kept (given Verb.Take self.old.end) self.old) self.new }
        ensures calls { self.old.room.calls ≤ self.new.room.calls + 1 }
        ensures sent { self.new.end.shake.sent ≡ self.old.end.shake.sent }
        ensures meet { self.new.end.shake.meet ≡ self.old.end.shake.meet }
    {
        if let Some(refusal) = self.decided.take {
            self.decided.take = None;
            return Some(refusal.answer());
        }
        if self.shake.is_connected() {
            self.find_message()
        } else {
            None
        }
    }

    // The answer of the take in progress is given, where it is due. A message that is taken is held
    // until it is released.
    #[tactic(auto, using(crate::proofs::Beginning::connected))]
    fn find_message(&mut self) -> Option<TakeAnswer>
        requires connected { is_connected self.old.end ≡ true }
        requires taken { self.old.end.sides.pull.taken < 2 ^ 64 - 1 }
        requires room { HasRoom self.old }
        ensures answer { result ≡ take_due self.old.end.sides.pull }
        ensures none { result ≡ None → self.new ≡ self.old }
        ensures end { self.new ≡
            called (kept (taken_by (take_due self.old.end.sides.pull) self.old.end) self.old)
            self.new }
        ensures calls { self.old.room.calls ≤ self.new.room.calls + 1 }
        ensures sent { self.new.end.shake.sent ≡ self.old.end.shake.sent }
        ensures meet { self.new.end.shake.meet ≡ self.old.end.shake.meet }
    {
        let answer = self.sides.take();
        if let Some(TakeAnswer::Taken { body, .. }) = &answer {
            self.records.note_taken(body);
        }
        answer
    }

    // The answer of a drain is given, where it is due: the refusal that was decided, or that all
    // was acknowledged.
    fn give_drain(&mut self) -> Option<DrainAnswer>
        ensures answer { drain_logged result false ≡ due_by Verb.Drain self.old.end }
        ensures none { result ≡ None → self.new ≡ self.old }
        ensures end { self.new ≡ kept (given Verb.Drain self.old.end) self.old }
        ensures sent { self.new.end.shake.sent ≡ self.old.end.shake.sent }
        ensures meet { self.new.end.shake.meet ≡ self.old.end.shake.meet }
    {
        if let Some(answer) = self.decided.drain {
            self.decided.drain = None;
            self.sides.end_drain();
            return Some(answer);
        }
        if self.sides.is_draining() && self.shake.is_connected() && self.sides.is_acknowledged() {
            self.sides.end_drain();
            return Some(DrainAnswer::Ok);
        }
        None
    }

    /// Whether the answer of a command of a kind is due.
    pub fn is_due(&self, verb: Verb) -> bool
        ensures { result ≡ is_some (due_by verb self.now.end) }
    {
        match verb {
            Verb::Send => self.decided.send.is_some(),
            Verb::Take => self.decided.take.is_some()
                || self.shake.is_connected() && self.sides.is_due(),
            Verb::Release => self.decided.release.is_some(),
            Verb::Drain => self.decided.drain.is_some()
                || self.sides.is_draining()
                    && self.shake.is_connected()
                    && self.sides.is_acknowledged(),
            Verb::Register => self.decided.register.is_some(),
            Verb::Unregister => self.decided.unregister.is_some(),
            Verb::Connected => self.shake.is_connected(),
            Verb::Closed => self.closed_due().is_some(),
            Verb::Net
            | Verb::Frames
            | Verb::Deactivate
            | Verb::Activate
            | Verb::Leave
            | Verb::Idle
            | Verb::Offline
            | Verb::Online => false,
        }
    }

    /// Gives the notice of the lowest number whose delivery is known, where there is one.
    pub fn deliver(&mut self) -> Option<u64>
        requires { HasRoom self.old }
        ensures value { result ≡ notice_due Delivered self.old.end }
        ensures none { result ≡ None → self.new ≡ self.old }
        ensures end { self.new ≡ called (kept (noticed Delivered self.old.end) self.old) self.new }
        ensures calls { self.old.room.calls ≤ self.new.room.calls + 1 }
        ensures sent { self.new.end.shake.sent ≡ self.old.end.shake.sent }
        ensures meet { self.new.end.shake.meet ≡ self.old.end.shake.meet }
    {
        let number = self.sides.known_notice()?;
        self.records.note_delivered(number);
        Some(number)
    }

    /// Gives the notice of the lowest number whose connection ended, where there is one.
    pub fn end_notice(&mut self) -> Option<u64>
        ensures value { result ≡ notice_due Ended self.old.end }
        ensures none { result ≡ None → self.new ≡ self.old }
        ensures end { self.new ≡ kept (noticed Ended self.old.end) self.old }
        ensures sent { self.new.end.shake.sent ≡ self.old.end.shake.sent }
        ensures meet { self.new.end.shake.meet ≡ self.old.end.shake.meet }
    {
        if self.ended.is_empty() {
            return None;
        }
        Some(self.ended.remove(0))
    }
}
