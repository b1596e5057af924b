// A partner that is in contact from the opening.
ghost use Rattle.std.specs.Prelude.{◌≡◌, ◌*◌, ◌<◌, ◌^◌, IfOk, OnOk, OnErr};
ghost use Rattle.xp_protocol.specs.Parts.{IsRequestSize};
ghost use Rattle.xp_protocol.specs.State.{first_contact};
ghost use Rattle.xp_channel.specs.Channel.{roomed};
ghost use Rattle.xp_channel.specs.Opening.{contact_of};
ghost use Rattle.xp_partner.specs.Partner.{rooms_of, each_roomed};
ghost use Rattle.xp_partner.specs.Opening.{warmed, warm_channel, first_met};

use crate::ends;
use crate::partner::Partner;
use std::alloc::{AllocError, Global};
use xp_base::ids::{Channel, PartId};
use xp_base::session::Session;
use xp_channel::end::ChannelEnd;
use xp_engage::partner::PartnerEnd;
use xp_protocol::contact::Size;

// An end that is connected from the opening.
fn warm_end(
    alloc: Global,
    own: PartId,
    partner: PartId,
    channel: Channel,
    size: Size,
    sessions: (Session, Session),
    both_new: bool,
) -> Result<ChannelEnd, AllocError>
    requires size { IsRequestSize size.entries size.limit }
    requires sessions { contact_of sessions.0 sessions.1 ≡ first_contact }
    ensures { IfOk result (λ end. end ≡
        roomed (warm_channel own partner channel size both_new) end) }
{
    let mut end = ChannelEnd::new(alloc, own, partner, channel);
    end.start(sessions.0, sessions.1, both_new);
    end.reserve()?;
    end.warm(size.entries, size.limit);
    Ok(end)
}

// The ends come into contact from the opening, unless they are in it.
#[tactic(auto, using(crate::proofs::Opening::first_rooms))]
fn meet_first(
    ends: &mut [ChannelEnd; 4],
    is_met: bool,
    sessions: (Session, Session),
    both_new: bool,
)
    requires { contact_of sessions.0 sessions.1 ≡ first_contact }
    ensures { ends.new ≡ each_roomed (first_met is_met both_new ends.old) ends.new }
{
    if !is_met {
        ends::start(ends, sessions.0, sessions.1, both_new);
    }
}

impl Partner {
    /// One more of the partner's channels is registered and connected from the opening, for queues
    /// of this size, and the partner is in contact with all its ends. `theirs` is the word of its
    /// version. After want of memory nothing has changed.
    pub fn warm(
        &mut self,
        alloc: Global,
        theirs: u64,
        window: u64,
        channel: Channel,
        size: Size,
    ) -> Result<(), AllocError>
        requires size { IsRequestSize size.entries size.limit }
        requires window { 2 * window < 2 ^ 64 }
        ensures ok { OnOk result
            (self.new ≡ rooms_of (warmed theirs window channel size self.old) self.new) }
        ensures err { OnErr result (self.new ≡ self.old) }
    {
        let own = self.standing.own();
        let partner = self.standing.partner();
        let version = self.standing.version();
        let check = self.standing.check();
        let standing = PartnerEnd::warm(own, partner, version, theirs, window, check);
        let both_new = standing.both_new();
        let Some(sessions) = standing.contact() else {
            unreachable!();
        };
        let end = warm_end(alloc, own, partner, channel, size, sessions, both_new)?;
        let is_met = self.standing.contact().is_some();
        meet_first(&mut self.ends, is_met, sessions, both_new);
        self.ends[channel.get() as usize] = end;
        self.standing = standing;
        Ok(())
    }
}
