// The flags of all channels of a partner are taken.
ghost use Rattle.std.specs.Prelude.{◌≡◌, ℕ, ◌<◌, Some, None, true, false};
ghost use Rattle.xp_base.specs.declared.layout.TheConstants.{CHANNELS};
ghost use Rattle.xp_base.specs.declared.step.Answer.TheVariants.{Word};
ghost use Rattle.xp_protocol.specs.declared.rule.PeerRule.TheVariants.{TakeFlags};
ghost use Rattle.xp_protocol.specs.Effects.{first_reason};
ghost use Rattle.xp_protocol.specs.Peering.{is_bad_flags, is_unspared};
ghost use Rattle.xp_channel.specs.Channel.{kept, roomed};
ghost use Rattle.xp_channel.specs.Room.{Settles};
ghost use Rattle.xp_partner.specs.Partner.{channel_at, rooms_of, each_kept, each_roomed};
ghost use Rattle.xp_partner.specs.Room.{KeepLeft};
ghost use Rattle.xp_partner.specs.Making.{peer_made, MayTake, MayTakeFlags, flags_by, ends_reason};

use crate::ends;
use crate::partner::Partner;
use xp_base::ids::Channel;
use xp_base::reason::Reason;
use xp_channel::end::ChannelEnd;
use xp_flags::Flags;

// The first word that has other bits than the flag bytes of four channels.
const FLAG_WORD_END: u64 = 1 << 32;

impl Partner {
    /// The own flag word of the partner was taken: each end takes its flags.
    #[tactic(auto, using(crate::proofs::Taking::taking))]
    pub fn take_flags(&mut self, word: u64)
        requires { MayTakeFlags self.old }
        ensures partner { (turn : ℕ) → self.new ≡
            rooms_of (peer_made turn None TakeFlags (Word word) self.old) self.new }
        ensures left { KeepLeft self.old.channels self.new.channels }
    {
        if is_bad_flags(word) {
            self.standing.fault(Reason::BadFlags { word });
            return;
        }
        let waits = ends::any_waiting(&self.ends);
        self.standing.note_flags(word, waits);
        let reason = take_each(&mut self.ends, word);
        let reason = self.standing.end_reason(reason);
        self.give(reason);
    }
}

// Each end takes its flags. Gives the first reason.
#[tactic(auto, using(crate::proofs::Taking::each_taken))]
fn take_each(ends: &mut [ChannelEnd; 4], word: u64) -> Option<Reason>
    requires may { (c : ℕ) → c < CHANNELS → MayTake (channel_at ends.old c) }
    requires flags { is_bad_flags word ≡ false }
    ensures ends { ends.new ≡ each_roomed (each_kept (flags_by word) 0 ends.old) ends.new }
    ensures reason { result ≡ ends_reason (flags_by word) ends.old }
    ensures left { KeepLeft ends.old ends.new }
{
    let first = take(&mut ends[0], word, 0);
    let second = take(&mut ends[1], word, 1);
    let third = take(&mut ends[2], word, 2);
    let fourth = take(&mut ends[3], word, 3);
    first_of(first, first_of(second, first_of(third, fourth)))
}

// An end takes its flags.
fn take(end: &mut ChannelEnd, word: u64, channel: u8) -> Option<Reason>
    requires low { channel < CHANNELS }
    requires may { MayTake end.old }
    requires spare { is_unspared word channel ≡ true }
    ensures end { end.new ≡ roomed (kept (flags_by word channel end.old.end) end.old) end.new }
    ensures reason { result ≡ (flags_by word channel end.old.end).reason }
    ensures settles { Settles end.old end.new }
{
    let Some(flags) = Flags::of_word(word, Channel::known(channel)) else {
        unreachable!();
    };
    match end.flags(flags) {
        Ok(()) => None,
        Err(reason) => Some(reason),
    }
}

// The first reason is kept.
fn first_of(first: Option<Reason>, later: Option<Reason>) -> Option<Reason>
    ensures { result ≡ first_reason first later }
{
    if first.is_some() { first } else { later }
}

// Whether a flag word has other bits than the flags of four channels.
fn is_bad_flags(word: u64) -> bool
    ensures { result ≡ is_bad_flags word }
{
    !(word < FLAG_WORD_END
        && is_unspared(word, 0)
        && is_unspared(word, 1)
        && is_unspared(word, 2)
        && is_unspared(word, 3))
}

// Whether the byte of a channel in a flag word has the bits of flags alone.
fn is_unspared(word: u64, channel: u8) -> bool
    requires { channel < CHANNELS }
    ensures { result ≡ is_unspared word channel }
{
    Flags::of_word(word, Channel::known(channel)).is_some()
}
