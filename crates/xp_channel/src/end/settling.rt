// What the partner's flags make of an end: they are taken, and handled one after the other, each
// with its argument.
ghost use Rattle.std.specs.Prelude.{◌≡◌, ◌+◌, ◌-◌, ◌<◌, ◌≤◌, ◌^◌, IfSome, IsSome, Some, None, is_some, true, false};
ghost use Rattle.xp_base.specs.Kinds.{next_of};
ghost use Rattle.xp_protocol.specs.Parts.{IsRequestSize};
ghost use Rattle.xp_protocol.specs.Effects.{first_reason};
ghost use Rattle.xp_protocol.specs.State.{is_begun};
ghost use Rattle.xp_protocol.specs.Linking.{epoch_over, changed, channel_closed, unequal, handled, has_argument, request_handled, reply_handled, code_handled, kind_got, handled_next, settle, settled, connection_noted, flags_got};
ghost use Rattle.xp_channel.specs.Channel.{kept, roomed};
ghost use Rattle.xp_channel.specs.Room.{needs_sides, may_begin, may_end, Settles};
ghost use Rattle.xp_channel.specs.Planned.{requested, error_or};

mod stepping;

use crate::end::{ChannelEnd, end_connection, kept_registration};
use xp_base::body::{BODY_BYTES, lines};
use xp_base::layout::{LINES, REQUEST_ENTRY};
use xp_base::link::Kind;
use xp_base::reason::Reason;
use xp_flags::Flags;
use xp_protocol::contact::Size;

// The size that an open request asks for, where it asks for one.
fn requested(word: u64) -> Option<Size>
    ensures value { result ≡ requested word }
    ensures size { IfSome result (λ z. IsRequestSize z.entries z.limit) }
{
    let entries = word / REQUEST_ENTRY;
    let limit = word % REQUEST_ENTRY;
    if entries == 0 || entries > LINES as u64 || limit > BODY_BYTES as u64 {
        return None;
    }
    let size = Size {
        entries: entries as u8,
        limit: limit as u16,
    };
    if size.entries as u32 * lines(size.limit) as u32 <= LINES {
        Some(size)
    } else {
        None
    }
}

// The first reason is kept.
fn first_of(first: Option<Reason>, later: Option<Reason>) -> Option<Reason>
    ensures { result ≡ first_reason first later }
{
    if first.is_some() { first } else { later }
}

impl ChannelEnd {
    // The epoch is over: the next one begins in the same contact.
    #[tactic(auto, using(crate::proofs::Silent::with_notes_append))]
    fn next_epoch(&mut self)
        requires epoch { self.old.end.epoch < 2 ^ 64 - 1 }
        requires reply { self.old.end.shake.sent.close_reply ≡ true }
        ensures end { self.new ≡ roomed (kept (epoch_over self.old.end) self.old) self.new }
        ensures settles { Settles self.old self.new }
    {
        let reason = self.shake.reason();
        end_connection(reason, &mut self.sides, &mut self.ended, &mut self.records);
        self.registration = kept_registration(reason, self.registration);
        self.sides.renew();
        self.shake.begin_next();
        self.epoch += 1;
    }

    // The channel closes where both open requests are there and no limit is agreed.
    #[tactic(auto, using(crate::proofs::Beginning::unequal_begun))]
    fn close_unequal(&mut self)
        ensures end { self.new ≡ roomed (kept (unequal self.old.end) self.old) self.new }
        ensures settles { Settles self.old self.new }
    {
        if self.shake.is_unequal() {
            let own = self.shake.own_limit();
            let theirs = self.shake.their_limit();
            self.close_channel(Reason::UnequalSizes { own, theirs });
        }
    }

    // The epoch ends where the close reply was sent and got.
    fn change(&mut self)
        requires { self.old.end.epoch + may_end self.old.end < 2 ^ 64 }
        ensures end { self.new ≡ roomed (kept (changed self.old.end) self.old) self.new }
        ensures settles { Settles self.old self.new }
    {
        if self.shake.is_ended() {
            self.next_epoch();
        } else {
            self.close_unequal();
        }
    }

    // The partner's open request is handled: the size that it asks for is known, or the channel
    // closes for it.
    fn handle_request(&mut self)
        requires contact { IsSome self.old.end.shake.meet }
        requires argument { is_some self.old.end.shake.request ≡ true }
        requires first { self.old.end.shake.got.open_request ≡ false }
        requires next { may_begin self.old.end ≤ self.old.room.next }
        ensures end { self.new ≡
            roomed (kept (request_handled self.old.end.shake.request
            (kind_got Kind.OpenRequest self.old.end)) self.old) self.new }
        ensures settles { Settles self.old self.new }
    {
        let Some(word) = self.shake.request() else {
            unreachable!();
        };
        match requested(word) {
            Some(size) => self.shake.accept_request(size),
            None => self.refuse_request(word),
        }
    }

    // The channel closes for an open request that asks for no size.
    #[tactic(auto, using(crate::proofs::Settling::settles_then))]
    fn refuse_request(&mut self, word: u64)
        requires contact { IsSome self.old.end.shake.meet }
        requires next { may_begin self.old.end ≤ self.old.room.next }
        ensures end { self.new ≡
            roomed (kept (channel_closed (Reason.BadArgs word)
            (kind_got Kind.OpenRequest self.old.end)) self.old) self.new }
        ensures settles { Settles self.old self.new }
    {
        self.close_channel(Reason::BadArgs { word });
        self.mark_refused();
    }

    // An open request for which the channel closes is got.
    fn mark_refused(&mut self)
        requires { is_some self.old.end.shake.reason ≡ true }
        ensures end { self.new ≡
            record self.old { end = kind_got Kind.OpenRequest self.old.end } }
        ensures settles { Settles self.old self.new }
    {
        self.shake.mark_got(Kind::OpenRequest);
    }

    // The partner's open reply is handled: it has to be the place of the partner's entries.
    fn handle_reply(&mut self)
        requires contact { IsSome self.old.end.shake.meet }
        requires next { may_begin self.old.end ≤ self.old.room.next }
        ensures end { self.new ≡
            roomed (kept (reply_handled self.old.end.shake.reply
            (kind_got Kind.OpenReply self.old.end)) self.old) self.new }
        ensures settles { Settles self.old self.new }
    {
        let reply = self.shake.reply();
        self.shake.mark_got(Kind::OpenReply);
        let Some(reply) = reply else {
            return;
        };
        if !reply.right {
            self.close_channel(Reason::BadArgs { word: reply.word });
        }
    }

    // The partner's close request is handled, with the code of its reason.
    fn handle_code(&mut self)
        requires contact { IsSome self.old.end.shake.meet }
        requires next { may_begin self.old.end ≤ self.old.room.next }
        ensures end { self.new ≡
            roomed (kept (code_handled self.old.end.shake.code
            (kind_got Kind.CloseRequest self.old.end)) self.old) self.new }
        ensures settles { Settles self.old self.new }
    {
        let code = self.shake.code();
        self.shake.mark_got(Kind::CloseRequest);
        let Some(word) = code else {
            return;
        };
        if word > 0 && word < 16 {
            self.close_channel(Reason::PartnerClosed { code: word as u8 });
        } else {
            self.close_channel(Reason::BadArgs { word });
        }
    }

    // A flag that was taken is handled.
    #[tactic(auto, using(crate::proofs::Silent::with_notes_append))]
    fn handle(&mut self, kind: Kind) -> Option<Reason>
        requires contact { IsSome self.old.end.shake.meet }
        requires argument { has_argument kind self.old.end.shake ≡ true }
        requires ready { self.old.end.shake.sent.open_complete ≡ true → self.old.room.ready ≡ true }
        requires next { may_begin self.old.end ≤ self.old.room.next }
        ensures end { self.new ≡ roomed (kept (handled kind self.old.end) self.old) self.new }
        ensures reason { result ≡ (handled kind self.old.end).reason }
        ensures settles { Settles self.old self.new }
    {
        if self.shake.refuses(kind) {
            self.shake.drop_taken(kind);
            return Some(Reason::BadFlags { word: 0 });
        }
        match kind {
            Kind::MsgRequest => {
                self.shake.drop_taken(kind);
                if self.shake.is_connected() {
                    self.sides.owe_copy();
                }
            }
            Kind::OpenRequest => self.handle_request(),
            Kind::OpenReply => self.handle_reply(),
            Kind::CloseRequest => self.handle_code(),
            Kind::CloseReply | Kind::OpenComplete => self.shake.mark_got(kind),
        }
        None
    }

    // The flag that comes next of those that were taken is handled, and the epoch ends where that
    // is due.
    #[tactic(auto, using(crate::proofs::Settling::handling))]
    fn handle_next(&mut self) -> Option<Reason>
        requires contact { IsSome self.old.end.shake.meet }
        requires epoch { self.old.end.epoch + may_end self.old.end < 2 ^ 64 }
        requires ready { self.old.end.shake.sent.open_complete ≡ true → self.old.room.ready ≡ true }
        requires next { may_begin self.old.end ≤ self.old.room.next }
        ensures end { self.new ≡
            roomed (kept (handled_next
            (next_of self.old.end.shake.got.close_request self.old.end.shake.taken) self.old.end)
            self.old) self.new }
        ensures reason { result ≡
            (handled_next (next_of self.old.end.shake.got.close_request self.old.end.shake.taken)
            self.old.end).reason }
        ensures settles { Settles self.old self.new }
    {
        let Some(kind) = self.shake.next_taken() else {
            return None;
        };
        if !self.shake.has_argument(kind) {
            return None;
        }
        let reason = self.handle(kind);
        self.change();
        reason
    }

    // Flags that were taken are handled one after the other.
    #[tactic(auto, using(crate::proofs::Settling::settling))]
    fn settle(&mut self, fuel: u8) -> Option<Reason>
        requires contact { IsSome self.old.end.shake.meet }
        requires epoch { self.old.end.epoch + may_end self.old.end < 2 ^ 64 }
        requires ready { self.old.end.shake.sent.open_complete ≡ true → self.old.room.ready ≡ true }
        requires next { may_begin self.old.end ≤ self.old.room.next }
        ensures end { self.new ≡ roomed (kept (settle fuel self.old.end) self.old) self.new }
        ensures reason { result ≡ (settle fuel self.old.end).reason }
        ensures settles { Settles self.old self.new }
    {
        if fuel == 0 {
            return None;
        }
        if self.shake.next_taken().is_none() {
            return None;
        }
        let first = self.handle_next();
        let later = self.settle(fuel - 1);
        first_of(first, later)
    }

    // A connection that stands is noted in its record.
    fn note_connection(&mut self)
        ensures { self.new ≡ kept (connection_noted self.old.end) self.old }
    {
        if self.shake.is_connected() {
            self.records.note_connected();
        }
    }

    // All flags that were taken are handled, and a connection that stands is noted.
    #[tactic(auto, unfolding(xp_protocol::specs::Linking::settled))]
    fn settle_all(&mut self) -> Option<Reason>
        requires contact { IsSome self.old.end.shake.meet }
        requires epoch { self.old.end.epoch + may_end self.old.end < 2 ^ 64 }
        requires ready { self.old.end.shake.sent.open_complete ≡ true → self.old.room.ready ≡ true }
        requires next { may_begin self.old.end ≤ self.old.room.next }
        ensures end { self.new ≡ roomed (kept (settled self.old.end) self.old) self.new }
        ensures reason { result ≡ (settled self.old.end).reason }
        ensures settles { Settles self.old self.new }
    {
        let reason = self.settle(6);
        self.note_connection();
        reason
    }

    /// Flags of this channel were taken. Err is BadFlags.
    pub fn flags(&mut self, flags: Flags) -> Result<(), Reason>
        requires epoch { self.old.end.epoch < 2 ^ 64 - 1 }
        requires ready { self.old.end.shake.sent.open_complete ≡ true → self.old.room.ready ≡ true }
        requires next { IsSome self.old.end.shake.meet → 0 < self.old.room.next }
        ensures end { self.new ≡ roomed (kept (flags_got flags self.old.end) self.old) self.new }
        ensures reason { result ≡ error_or (flags_got flags self.old.end).reason }
        ensures settles { Settles self.old self.new }
    {
        if self.shake.contact().is_none() {
            return Ok(());
        }
        self.shake.add_taken(flags);
        match self.settle_all() {
            None => Ok(()),
            Some(reason) => Err(reason),
        }
    }
}
