// The four ends of a partner, of which each changes.
ghost use Rattle.std.specs.Prelude.{◌≡◌, ◌&&◌, map, ℕ, ◌<◌, ◌≤◌, ◌^◌, ◌-◌, length, OnOk, IsSome, true, false};
ghost use Rattle.xp_base.specs.declared.layout.TheConstants.{CHANNELS};
ghost use Rattle.xp_protocol.specs.Linking.{link_down, link_finished, link_joined};
ghost use Rattle.xp_channel.specs.Opening.{contact_of};
ghost use Rattle.xp_channel.specs.Room.{HasTurnRoom, IsNoLess};
ghost use Rattle.xp_protocol.specs.Peering.{any_copied, any_waits};
ghost use Rattle.xp_protocol.specs.Runs.{any_owes};
ghost use Rattle.xp_partner.specs.Partner.{channel_at, each_kept, each_roomed, end_seen};
ghost use Rattle.xp_partner.specs.Booting.{each_booted};
ghost use Rattle.xp_partner.specs.Room.{KeepLeft};

use std::alloc::AllocError;
use xp_base::reason::Reason;
use xp_base::session::Session;
use xp_channel::end::ChannelEnd;

/// The partner is deactivated for a reason.
#[tactic(auto, using(crate::proofs::Leaving::going_down))]
pub fn down(ends: &mut [ChannelEnd; 4], reason: Reason)
    ensures ends { ends.new ≡ each_kept (λ c e. link_down reason e) 0 ends.old }
    ensures left { KeepLeft ends.old ends.new }
{
    ends[0].down(reason);
    ends[1].down(reason);
    ends[2].down(reason);
    ends[3].down(reason);
}

/// The session is over.
#[tactic(auto, using(crate::proofs::Leaving::finishing))]
pub fn finish(ends: &mut [ChannelEnd; 4])
    ensures ends { ends.new ≡ each_roomed (each_kept (λ c e. link_finished e) 0 ends.old) ends.new }
    ensures left { KeepLeft ends.old ends.new }
{
    ends[0].finish();
    ends[1].finish();
    ends[2].finish();
    ends[3].finish();
}

/// The partition boots: nothing is known.
#[tactic(auto, using(crate::proofs::Leaving::booting))]
pub fn boot(ends: &mut [ChannelEnd; 4])
    ensures ends { ends.new ≡ each_roomed (each_booted ends.old) ends.new }
    ensures left { KeepLeft ends.old ends.new }
{
    ends[0].boot();
    ends[1].boot();
    ends[2].boot();
    ends[3].boot();
}

/// There is contact, under these sessions: both versions know entries of several lines, or not both
/// do.
#[tactic(auto, using(crate::proofs::Leaving::finishing))]
pub fn start(ends: &mut [ChannelEnd; 4], own: Session, theirs: Session, both_new: bool)
    ensures ends { ends.new ≡
        each_roomed (each_kept (λ c e. link_joined both_new (contact_of own theirs) e) 0 ends.old)
        ends.new }
    ensures left { KeepLeft ends.old ends.new }
{
    ends[0].start(own, theirs, both_new);
    ends[1].start(own, theirs, both_new);
    ends[2].start(own, theirs, both_new);
    ends[3].start(own, theirs, both_new);
}

/// Whether a copy of any channel goes on.
#[tactic(auto, using(crate::proofs::Copying::copied_four))]
pub fn any_copying(ends: &[ChannelEnd; 4]) -> bool
    ensures { result ≡ any_copied (map end_seen ends.now) }
{
    ends[0].copying() || (ends[1].copying() || (ends[2].copying() || ends[3].copying()))
}

/// Whether a flag that was taken waits to be handled, at any end.
#[tactic(auto, using(crate::proofs::Copying::waits_four))]
pub fn any_waiting(ends: &[ChannelEnd; 4]) -> bool
    ensures { result ≡ any_waits (map end_seen ends.now) }
{
    ends[0].waits() || (ends[1].waits() || (ends[2].waits() || ends[3].waits()))
}

/// Whether a flag or a store of get is owed at any end, if there is contact.
#[tactic(auto, using(crate::proofs::Copying::owes_four))]
pub fn any_owing(ends: &[ChannelEnd; 4]) -> bool
    ensures { result ≡ any_owes (map end_seen ends.now) }
{
    ends[0].owes_in_contact()
        || (ends[1].owes_in_contact() || (ends[2].owes_in_contact() || ends[3].owes_in_contact()))
}

/// Makes room at each end for all that the calls of one turn append.
#[tactic(auto, using(crate::proofs::Reserving::four_reserved))]
pub fn reserve(ends: &mut [ChannelEnd; 4]) -> Result<(), AllocError>
    ensures ok { OnOk result ((c : ℕ) → c < CHANNELS → HasTurnRoom (channel_at ends.new c)) }
    ensures same { ends.new ≡ each_roomed ends.old ends.new }
    ensures kept { (c : ℕ) → c < CHANNELS →
        IsNoLess (channel_at ends.old c).room (channel_at ends.new c).room }
{
    ends[0].reserve()?;
    ends[1].reserve()?;
    ends[2].reserve()?;
    ends[3].reserve()?;
    Ok(())
}

/// Whether there is room at each end for all that the calls of one turn append.
#[tactic(auto, using(crate::proofs::Reserving::have_room))]
pub fn have_turn_room(ends: &[ChannelEnd; 4]) -> bool
    ensures yes { result ≡ true → (c : ℕ) → c < CHANNELS → HasTurnRoom (channel_at ends.now c) }
    ensures no { ((c : ℕ) → c < CHANNELS → HasTurnRoom (channel_at ends.now c)) → result ≡ true }
{
    let first = ends[0].has_turn_room();
    let second = ends[1].has_turn_room();
    let third = ends[2].has_turn_room();
    let fourth = ends[3].has_turn_room();
    are_all(first, second, third, fourth)
}

// Whether all four are true.
fn are_all(first: bool, second: bool, third: bool, fourth: bool) -> bool
    ensures { result ≡ (first && (second && (third && fourth))) }
{
    first && second && third && fourth
}
