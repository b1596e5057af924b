// The handshake of one epoch of a channel, as a machine: which control flags were sent, got and
// taken, and which it owes. It follows the driver's open and close exchange.
ghost use Rattle.std.specs.Prelude.{◌≡◌, ◌||◌, ◌&&◌, true, false, IfSome, IsSome, Some, None, is_some};
ghost use Rattle.xp_base.specs.Kinds.{Kinds, no_kinds, both, next_of, has};
ghost use Rattle.xp_protocol.specs.Parts.{IsRequestSize};
ghost use Rattle.xp_protocol.specs.Pulling.{lesser};
ghost use Rattle.xp_protocol.specs.State.{Shake, no_shake, both_complete, shake_state, shake_connected, shake_copies, shake_begun};
ghost use Rattle.xp_protocol.specs.Linking.{agreed, entries_in, limit_in, limit_agreed, owed_by, refused_by, shake_got, shake_left, shake_ended, shake_unequal, has_argument, without_argument};
ghost use Rattle.xp_openclose.specs.Planned.{control_owed, is_control, opened_shake, request_got, sent_with, size_after, InOrder, IsLawful};

use std::marker::Model;
use xp_base::layout::REQUEST_ENTRY;
use xp_base::link::{Kind, LinkState};
use xp_base::reason::Reason;
use xp_flags::Flags;
use xp_protocol::contact::{Contact, Replied, Size};

/// The handshake of one epoch. Contracts see what it knows.
#[derive(Drop)]
pub struct Handshake {
    /// The sessions of the contact in which the epoch is, where there is contact, and whether both
    /// versions know entries of several lines.
    meet: Option<Contact>,
    both_new: bool,
    /// The kinds that were sent, and those of the partner that were handled.
    sent: Flags,
    got: Flags,
    /// Why the channel closes, where it does.
    reason: Option<Reason>,
    /// The sizes that both ends ask for: the own one from the open request that was sent, the
    /// partner's from the one that was handled.
    own_size: Option<Size>,
    their_size: Option<Size>,
    /// The kinds of the partner that were taken and wait to be handled, and the argument words that
    /// were loaded for them.
    taken: Flags,
    request: Option<u64>,
    reply: Option<Replied>,
    code: Option<u64>,
    /// Whether a message request is owed.
    owes_message: bool,
    /// What was stored for this epoch: the counters as 0, and the argument words.
    get_zero: bool,
    put_zero: bool,
    request_put: Option<u64>,
    reply_put: bool,
    code_put: bool,
}

// The limit of an open request, 0 where there is none.
fn limit_of(size: Option<Size>) -> u16
    ensures { result ≡ limit_in size }
{
    match size {
        Some(size) => size.limit,
        None => 0,
    }
}

// The size that this end asks for, after a flag: with the open request it is that of the
// registration.
fn size_after(kind: Kind, registration: Option<Size>, size: Option<Size>) -> Option<Size>
    ensures { result ≡ size_after kind registration size }
{
    if kind == Kind::OpenRequest {
        registration
    } else {
        size
    }
}

// The lesser of two limits.
fn lesser(a: u16, b: u16) -> u16
    ensures { result ≡ lesser a b }
{
    if a < b { a } else { b }
}

impl Model for Handshake {
    ghost use Rattle.xp_protocol.specs.State.{Shake};

    ghost Value = { Shake };

    ghost use Rattle.xp_openclose.specs.HandshakeInside.{view_of, IsSound};

    ghost view = { view_of };

    ghost invariant = { IsSound };
}

impl Handshake {
    /// A handshake out of contact.
    pub fn new() -> Handshake
        ensures { result ≡ no_shake }
    {
        Handshake {
            meet: None,
            both_new: false,
            sent: Flags::empty(),
            got: Flags::empty(),
            reason: None,
            own_size: None,
            their_size: None,
            taken: Flags::empty(),
            request: None,
            reply: None,
            code: None,
            owes_message: false,
            get_zero: false,
            put_zero: false,
            request_put: None,
            reply_put: false,
            code_put: false,
        }
    }

    /// The sessions of the contact that there is.
    pub fn contact(&self) -> Option<Contact>
        ensures { result ≡ self.now.meet }
    {
        self.meet
    }

    /// Why the channel closes, where it does.
    pub fn reason(&self) -> Option<Reason>
        ensures { result ≡ self.now.reason }
    {
        self.reason
    }

    /// Whether a message request is owed.
    pub fn owes_message(&self) -> bool
        ensures { result ≡ self.now.owes_message }
    {
        self.owes_message
    }

    /// Whether get was stored as 0 for this epoch.
    pub fn is_get_zero(&self) -> bool
        ensures { result ≡ self.now.get_zero }
    {
        self.get_zero
    }

    /// Whether put was stored as 0 for this epoch.
    pub fn is_put_zero(&self) -> bool
        ensures { result ≡ self.now.put_zero }
    {
        self.put_zero
    }

    /// The request word that was loaded for the open request that was taken.
    pub fn request(&self) -> Option<u64>
        ensures { result ≡ self.now.request }
    {
        self.request
    }

    /// The reply word that was loaded for the open reply that was taken.
    pub fn reply(&self) -> Option<Replied>
        ensures { result ≡ self.now.reply }
    {
        self.reply
    }

    /// The code that was loaded for the close request that was taken.
    pub fn code(&self) -> Option<u64>
        ensures { result ≡ self.now.code }
    {
        self.code
    }

    /// The request word that was stored for this epoch.
    pub fn stored_request(&self) -> Option<u64>
        ensures { result ≡ self.now.request_put }
    {
        self.request_put
    }

    /// Whether the reply word was stored for this epoch.
    pub fn is_reply_stored(&self) -> bool
        ensures { result ≡ self.now.reply_put }
    {
        self.reply_put
    }

    /// Whether the code of the reason was stored for this epoch.
    pub fn is_code_stored(&self) -> bool
        ensures { result ≡ self.now.code_put }
    {
        self.code_put
    }

    /// Whether a flag was taken and isn't handled.
    pub fn has_taken(&self, kind: Kind) -> bool
        ensures { result ≡ has kind self.now.taken }
    {
        self.taken.contains(kind)
    }

    /// Whether a kind was sent in this epoch.
    pub fn has_sent(&self, kind: Kind) -> bool
        ensures { result ≡ has kind self.now.sent }
    {
        self.sent.contains(kind)
    }

    /// Whether a kind of the partner was handled in this epoch.
    pub fn has_got(&self, kind: Kind) -> bool
        ensures { result ≡ has kind self.now.got }
    {
        self.got.contains(kind)
    }

    /// Whether the argument of a flag is there, where it has one.
    pub fn has_argument(&self, kind: Kind) -> bool
        ensures { result ≡ has_argument kind self.now }
    {
        match kind {
            Kind::OpenRequest => self.request.is_some(),
            Kind::OpenReply => self.reply.is_some(),
            Kind::CloseRequest => self.code.is_some(),
            Kind::OpenComplete | Kind::CloseReply | Kind::MsgRequest => true,
        }
    }

    /// The state of the link.
    pub fn state(&self) -> LinkState
        ensures { result ≡ shake_state self.now }
    {
        if let Some(reason) = self.reason {
            LinkState::Closing(reason)
        } else if self.is_complete() {
            LinkState::Connected
        } else if self.sent.contains(Kind::OpenRequest) {
            LinkState::Opening
        } else {
            LinkState::Idle
        }
    }

    // Whether there is contact, and both ends have seen the open complete.
    fn is_complete(&self) -> bool
        ensures { result ≡ both_complete self.now }
    {
        self.meet.is_some()
            && self.sent.contains(Kind::OpenComplete)
            && self.got.contains(Kind::OpenComplete)
    }

    /// Whether the link is connected: the partner's words may be copied then.
    #[tactic(auto, using(crate::proofs::Order::still_copies))]
    pub fn is_connected(&self) -> bool
        ensures value { result ≡ shake_connected self.now }
        ensures open { result ≡ true → self.now.sent.open_complete ≡ true }
        ensures copies { result ≡ true → shake_copies self.now ≡ true }
    {
        self.is_complete() && self.reason.is_none()
    }

    /// Whether the partner's words may be copied.
    pub fn may_copy(&self) -> bool
        ensures value { result ≡ shake_copies self.now }
        ensures open { result ≡ true → self.now.sent.open_complete ≡ true }
    {
        self.is_complete() && !self.sent.contains(Kind::CloseReply)
    }

    /// Whether the epoch is begun.
    pub fn is_begun(&self) -> bool
        ensures { result ≡ shake_begun self.now }
    {
        self.sent.contains(Kind::OpenComplete)
            || self.sent.contains(Kind::OpenRequest)
            || self.sent.contains(Kind::OpenReply)
            || self.sent.contains(Kind::CloseRequest)
            || self.sent.contains(Kind::CloseReply)
            || self.reason.is_some()
    }

    /// Whether the epoch is over.
    pub fn is_ended(&self) -> bool
        ensures { result ≡ shake_ended self.now }
    {
        self.sent.contains(Kind::CloseReply) && self.got.contains(Kind::CloseReply)
    }

    /// The limit of a payload in this epoch, in bytes, where both open requests are there and it is
    /// agreed: the lesser of both limits, where they are equal or both versions know entries of
    /// several lines. From the own open reply on it is.
    pub fn agreed(&self) -> Option<u16>
        ensures value { result ≡ agreed self.now }
        ensures replied { self.now.sent.open_reply ≡ true → IsSome result }
    {
        if !self.sent.contains(Kind::OpenRequest) || !self.got.contains(Kind::OpenRequest) {
            return None;
        }
        let own = limit_of(self.own_size);
        let theirs = limit_of(self.their_size);
        if self.both_new || own == theirs {
            Some(lesser(own, theirs))
        } else {
            None
        }
    }

    /// Whether the channel is to close since both open requests are there and no limit is agreed.
    pub fn is_unequal(&self) -> bool
        ensures { result ≡ shake_unequal self.now }
    {
        self.reason.is_none()
            && self.sent.contains(Kind::OpenRequest)
            && self.got.contains(Kind::OpenRequest)
            && self.agreed().is_none()
    }

    /// The limit of the own open request, 0 before it is sent.
    pub fn own_limit(&self) -> u16
        ensures { result ≡ limit_in self.now.own_size }
    {
        limit_of(self.own_size)
    }

    /// The limit of the partner's open request, 0 before it is handled.
    pub fn their_limit(&self) -> u16
        ensures { result ≡ limit_in self.now.their_size }
    {
        limit_of(self.their_size)
    }

    /// The sizes of the own queue and of the partner's in this epoch: the entries that each end
    /// asks for, and the limit that is agreed.
    #[tactic(auto, using(crate::proofs::Order::lawful_left, crate::proofs::Order::lawful_right))]
    pub fn queue_sizes(&self) -> (Size, Size)
        requires { self.now.sent.open_reply ≡ true }
        ensures own { result.0 ≡
            record { entries = entries_in self.now.own_size; limit = limit_agreed self.now } }
        ensures theirs { result.1 ≡
            record { entries = entries_in self.now.their_size; limit = limit_agreed self.now } }
        ensures own_lawful { IsRequestSize (entries_in self.now.own_size) (limit_agreed self.now) }
        ensures their_lawful { IsRequestSize (entries_in self.now.their_size)
            (limit_agreed self.now) }
    {
        match (self.own_size, self.their_size) {
            (Some(own), Some(theirs)) => {
                let limit = lesser(own.limit, theirs.limit);
                let own = Size {
                    entries: own.entries,
                    limit,
                };
                let theirs = Size {
                    entries: theirs.entries,
                    limit,
                };
                (own, theirs)
            }
            _ => unreachable!(),
        }
    }

    /// Whether a kind is owed, where the channel is registered or not, and a copy of the channel
    /// goes on or not.
    pub fn owed(&self, kind: Kind, registered: bool, copying: bool) -> bool
        ensures value { result ≡ owed_by kind registered copying self.now }
        ensures order { InOrder self.now.sent }
    {
        let open = self.reason.is_none();
        match kind {
            Kind::OpenRequest => registered && open && !self.sent.contains(Kind::OpenRequest),
            Kind::OpenReply => open
                && self.agreed().is_some()
                && !self.sent.contains(Kind::OpenReply),
            Kind::OpenComplete => open
                && self.sent.contains(Kind::OpenReply)
                && self.got.contains(Kind::OpenReply)
                && !self.sent.contains(Kind::OpenComplete),
            Kind::CloseRequest => !open && !self.sent.contains(Kind::CloseRequest),
            Kind::CloseReply => self.sent.contains(Kind::CloseRequest)
                && self.got.contains(Kind::CloseRequest)
                && !self.sent.contains(Kind::CloseReply)
                && !copying,
            Kind::MsgRequest => self.owes_message,
        }
    }

    /// The control flag that is sent next: one that closes before one that opens.
    #[tactic(auto, using(crate::proofs::Order::unsent))]
    pub fn owes(&self, registered: bool, copying: bool) -> Option<Kind>
        ensures value { result ≡ control_owed registered copying self.now }
        ensures owed { IfSome result (λ k. owed_by k registered copying self.now ≡ true) }
        ensures zero { result ≡ Some Kind.OpenRequest → self.now.sent.open_complete ≡ false }
        ensures control { IfSome result (λ k. is_control k ≡ true) }
    {
        if self.owed(Kind::CloseRequest, registered, copying) {
            Some(Kind::CloseRequest)
        } else if self.owed(Kind::CloseReply, registered, copying) {
            Some(Kind::CloseReply)
        } else if self.owed(Kind::OpenRequest, registered, copying) {
            Some(Kind::OpenRequest)
        } else if self.owed(Kind::OpenReply, registered, copying) {
            Some(Kind::OpenReply)
        } else if self.owed(Kind::OpenComplete, registered, copying) {
            Some(Kind::OpenComplete)
        } else {
            None
        }
    }

    /// Whether a flag may not come now.
    pub fn refuses(&self, kind: Kind) -> bool
        ensures { result ≡ refused_by kind self.now }
    {
        let closed = self.got.contains(Kind::CloseRequest);
        match kind {
            Kind::OpenRequest => self.got.contains(Kind::OpenRequest) || closed,
            Kind::OpenReply => self.got.contains(Kind::OpenReply)
                || !self.got.contains(Kind::OpenRequest)
                || closed,
            Kind::OpenComplete => self.got.contains(Kind::OpenComplete)
                || !self.got.contains(Kind::OpenReply)
                || closed,
            Kind::CloseRequest => closed,
            Kind::CloseReply => self.got.contains(Kind::CloseReply)
                || !(self.sent.contains(Kind::CloseRequest) && closed),
            Kind::MsgRequest => false,
        }
    }

    /// The flag that was taken and is handled next.
    pub fn next_taken(&self) -> Option<Kind>
        ensures { result ≡ next_of self.now.got.close_request self.now.taken }
    {
        self.taken.next_kind(self.got.contains(Kind::CloseRequest))
    }
}

impl Handshake {
    /// Flags were taken.
    pub fn add_taken(&mut self, flags: Flags)
        ensures { self.new ≡ record self.old { taken = both self.old.taken flags } }
    {
        self.taken = self.taken.merge(flags);
    }

    // The argument of a flag is done with.
    fn drop_argument(&mut self, kind: Kind)
        ensures shake { self.new ≡ without_argument kind self.old }
        ensures sent { self.new.sent ≡ self.old.sent }
        ensures got { self.new.got ≡ self.old.got }
        ensures meet { self.new.meet ≡ self.old.meet }
        ensures reason { self.new.reason ≡ self.old.reason }
    {
        match kind {
            Kind::OpenRequest => self.request = None,
            Kind::OpenReply => self.reply = None,
            Kind::CloseRequest => self.code = None,
            Kind::OpenComplete | Kind::CloseReply | Kind::MsgRequest => {}
        }
    }

    /// A kind that was taken is handled: it is got. An open request is marked so where it is
    /// refused and the channel closes for it, and else by `accept_request`.
    pub fn mark_got(&mut self, kind: Kind)
        requires { kind ≡ Kind.OpenRequest → is_some self.old.reason ≡ true }
        ensures shake { self.new ≡ shake_got kind self.old }
        ensures sent { self.new.sent ≡ self.old.sent }
        ensures meet { self.new.meet ≡ self.old.meet }
        ensures reason { self.new.reason ≡ self.old.reason }
    {
        self.got = self.got.with(kind);
        self.taken = self.taken.without(kind);
        self.drop_argument(kind);
    }

    /// An open request that was taken is handled: its size is the one that the partner asks for.
    pub fn accept_request(&mut self, size: Size)
        requires size { IsRequestSize size.entries size.limit }
        requires first { self.old.got.open_request ≡ false }
        ensures shake { self.new ≡ request_got size self.old }
        ensures sent { self.new.sent ≡ self.old.sent }
        ensures meet { self.new.meet ≡ self.old.meet }
        ensures reason { self.new.reason ≡ self.old.reason }
    {
        self.got = self.got.with(Kind::OpenRequest);
        self.taken = self.taken.without(Kind::OpenRequest);
        self.request = None;
        self.their_size = Some(size);
    }

    /// A kind that was taken is refused: it isn't got.
    pub fn drop_taken(&mut self, kind: Kind)
        ensures shake { self.new ≡ shake_left kind self.old }
        ensures sent { self.new.sent ≡ self.old.sent }
        ensures meet { self.new.meet ≡ self.old.meet }
        ensures reason { self.new.reason ≡ self.old.reason }
    {
        self.taken = self.taken.without(kind);
        self.drop_argument(kind);
    }

    /// A control flag was sent that was owed, where the channel is registered for a size or isn't.
    /// With the open request that is the size that this end asks for in this epoch. Of a message
    /// request that was sent `owe_message` is told.
    #[tactic(auto, using(crate::proofs::Order::unsent))]
    pub fn mark_sent(&mut self, kind: Kind, registration: Option<Size>, copying: bool)
        requires control { is_control kind ≡ true }
        requires owed { owed_by kind (is_some registration) copying self.old ≡ true }
        requires size { IfSome registration (λ z. IsRequestSize z.entries z.limit) }
        ensures shake { self.new ≡ sent_with kind registration self.old }
        ensures opening { kind ≡ Kind.OpenRequest → self.old.sent.open_complete ≡ false }
    {
        self.own_size = size_after(kind, registration, self.own_size);
        self.sent = self.sent.with(kind);
    }

    /// A message request is owed, or isn't any more.
    pub fn owe_message(&mut self, owes: bool)
        ensures { self.new ≡ record self.old { owes_message = owes } }
    {
        self.owes_message = owes;
    }

    /// Get was stored as 0 for this epoch.
    pub fn zero_get(&mut self)
        ensures { self.new ≡ record self.old { get_zero = true } }
    {
        self.get_zero = true;
    }

    /// Put was stored as 0 for this epoch.
    pub fn zero_put(&mut self)
        ensures { self.new ≡ record self.old { put_zero = true } }
    {
        self.put_zero = true;
    }

    /// The request word was stored for this epoch.
    pub fn store_request(&mut self, word: u64)
        ensures { self.new ≡ record self.old { request_put = Some word } }
    {
        self.request_put = Some(word);
    }

    /// The reply word was stored for this epoch.
    pub fn store_reply(&mut self)
        ensures { self.new ≡ record self.old { reply_put = true } }
    {
        self.reply_put = true;
    }

    /// The code of the reason was stored for this epoch.
    pub fn store_code(&mut self)
        ensures { self.new ≡ record self.old { code_put = true } }
    {
        self.code_put = true;
    }

    /// The request word of an open request that was taken was loaded.
    pub fn load_request(&mut self, word: u64)
        ensures { self.new ≡ record self.old { request = Some word } }
    {
        self.request = Some(word);
    }

    /// The reply word of an open reply that was taken was loaded.
    pub fn load_reply(&mut self, reply: Replied)
        ensures { self.new ≡ record self.old { reply = Some reply } }
    {
        self.reply = Some(reply);
    }

    /// The code of a close request that was taken was loaded.
    pub fn load_code(&mut self, word: u64)
        ensures { self.new ≡ record self.old { code = Some word } }
    {
        self.code = Some(word);
    }

    /// The channel, which has no reason to close yet, closes for one.
    pub fn close(&mut self, reason: Reason)
        requires { self.old.reason ≡ None }
        ensures { self.new ≡ record self.old { reason = Some reason; owes_message = false } }
    {
        self.reason = Some(reason);
        self.owes_message = false;
    }

    /// There is no contact any more.
    pub fn leave(&mut self)
        ensures { self.new ≡ record self.old { owes_message = false; meet = None } }
    {
        self.owes_message = false;
        self.meet = None;
    }

    /// A contact is made, under these sessions, and nothing was sent or got in it. Both partitions'
    /// versions know entries of several lines, or not both do.
    pub fn start(&mut self, contact: Contact, both_new: bool)
        ensures { self.new ≡ record no_shake { meet = Some contact; both_new = both_new } }
    {
        *self = Handshake::new();
        self.meet = Some(contact);
        self.both_new = both_new;
    }

    /// Both ends have opened the channel, for queues of this size, in the contact that there is.
    pub fn open(&mut self, size: Size)
        requires { IsRequestSize size.entries size.limit }
        ensures { self.new ≡ opened_shake size self.old }
    {
        let meet = self.meet;
        let both_new = self.both_new;
        let opening = Flags::empty()
            .with(Kind::OpenRequest)
            .with(Kind::OpenReply)
            .with(Kind::OpenComplete);
        *self = Handshake::new();
        self.meet = meet;
        self.both_new = both_new;
        self.sent = opening;
        self.got = opening;
        self.own_size = Some(size);
        self.their_size = Some(size);
        self.get_zero = true;
        self.put_zero = true;
        self.request_put = Some(size.limit as u64 + REQUEST_ENTRY * size.entries as u64);
        self.reply_put = true;
    }

    /// The next epoch begins, in the same contact. The kinds that were taken are of it.
    pub fn begin_next(&mut self)
        ensures { self.new ≡ record no_shake {
          meet = self.old.meet;
          both_new = self.old.both_new;
          taken = self.old.taken;
          request = self.old.request;
          reply =
              self.old.reply;
          code = self.old.code;
        } }
    {
        let meet = self.meet;
        let both_new = self.both_new;
        let taken = self.taken;
        let request = self.request;
        let reply = self.reply;
        let code = self.code;
        *self = Handshake::new();
        self.meet = meet;
        self.both_new = both_new;
        self.taken = taken;
        self.request = request;
        self.reply = reply;
        self.code = code;
    }
}
