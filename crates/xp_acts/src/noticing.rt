// The notices that are due are given.
ghost use Rattle.std.specs.Prelude.{◌≡◌, ◌≢◌, ℕ, ◌+◌, ◌<◌, ◌≤◌, length, IfSome, IfNone, Some, None, true, false};
ghost use Rattle.xp_base.specs.declared.layout.TheConstants.{CHANNELS, LINES};
ghost use Rattle.xp_base.specs.History.{NoticeKind, Delivered, Ended};
ghost use Rattle.xp_base.specs.Masks.{has};
ghost use Rattle.xp_protocol.specs.State.{end_of};
ghost use Rattle.xp_protocol.specs.Acts.{notice_due};
ghost use Rattle.xp_channel.specs.Room.{HasRoom};
ghost use Rattle.xp_partition.specs.declared.life.Life.TheVariants.{Up};
ghost use Rattle.xp_partition.specs.Keeping.{state_of, IsKept};
ghost use Rattle.xp_partition.specs.Partners.{AreRoomy, AllHaveNotesLeft, LeavesUntouched};
ghost use Rattle.xp_partner.specs.Room.{HasNotesLeft};
ghost use Rattle.xp_acts.specs.Acts.{Gives};
ghost use Rattle.xp_acts.specs.Noticing.{channel_in, waiting_at, ended_at, AreNoticed, AreNoticedButTouched, IsNoticedAt, AreFew, Notices, CanNotice, CanNoticeAt};

use xp_base::ids::{Channel, PartId};
use xp_base::layout::CHANNELS;
use xp_base::masks;
use xp_partition::keeping::Keeping;
use xp_partition::life::Life;

/// Gives all notices that are due, where the partition is up: they are due at partners that were
/// touched since room was made.
#[tactic(auto, using(crate::proofs::Given::noticing))]
pub fn notice(keeping: &mut Keeping)
    requires kept { IsKept keeping.old }
    requires up { (keeping.old.life ≡ Up → ⊥) → AreNoticed keeping.old }
    requires touched { AreNoticedButTouched keeping.old }
    requires few { AreFew keeping.old }
    requires room { AllHaveNotesLeft (LINES + 1) keeping.old.partners }
    ensures gives { Gives keeping.old keeping.new }
    ensures noticed { AreNoticed keeping.new }
    ensures left { (notes : ℕ) → AllHaveNotesLeft (notes + LINES) keeping.old.partners →
        AllHaveNotesLeft notes keeping.new.partners }
    ensures untouched { LeavesUntouched keeping.old.partners keeping.new.partners }
    ensures roomy { AreRoomy keeping.old.partners → AreRoomy keeping.new.partners }
{
    if matches!(keeping.life, Life::Up) {
        notice_all(keeping);
    }
}

// Gives the notices that are due at each partner.
#[tactic(auto, using(crate::proofs::Given::noticing))]
fn notice_all(keeping: &mut Keeping)
    requires can { CanNotice keeping.old }
    requires touched { AreNoticedButTouched keeping.old }
    ensures notices { Notices keeping.old keeping.new }
    ensures noticed { AreNoticed keeping.new }
{
    for number in 0..keeping.partners.len() {
        notice_at(keeping, PartId::known(number));
    }
}

// Gives the notices that are due at one partner, if it was touched.
#[tactic(auto, using(crate::proofs::Given::noticing))]
fn notice_at(keeping: &mut Keeping, number: PartId)
    requires can { CanNotice keeping.old }
    requires number { number < keeping.old.part.count }
    requires untouched { has keeping.old.partners.touched number ≡ false →
        IsNoticedAt number keeping.old }
    ensures notices { Notices keeping.old keeping.new }
    ensures noticed { IsNoticedAt number keeping.new }
{
    if masks::contains(keeping.partners.touched(), number) {
        notice_partner(keeping, number);
    }
}

// Gives the notices that are due at all ends of a partner.
#[tactic(auto, using(crate::proofs::Given::noticing))]
fn notice_partner(keeping: &mut Keeping, number: PartId)
    requires can { CanNoticeAt number keeping.old }
    ensures notices { Notices keeping.old keeping.new }
    ensures noticed { IsNoticedAt number keeping.new }
{
    for channel in 0..CHANNELS {
        notice_end(keeping, number, Channel::known(channel));
    }
}

// Gives the notices that are due at one end.
#[tactic(auto, using(crate::proofs::Given::noticing))]
fn notice_end(keeping: &mut Keeping, number: PartId, channel: Channel)
    requires can { CanNoticeAt number keeping.old }
    requires channel { channel < CHANNELS }
    ensures notices { Notices keeping.old keeping.new }
    ensures noticed { (how : NoticeKind) →
        notice_due how (channel_in keeping.new number channel).end ≡ None }
{
    deliver_all(keeping, number, channel);
    end_all(keeping, number, channel);
}

// Gives the notices of deliveries that are due at one end.
#[tactic(auto, using(crate::proofs::Given::noticing))]
fn deliver_all(keeping: &mut Keeping, number: PartId, channel: Channel)
    requires can { CanNoticeAt number keeping.old }
    requires channel { channel < CHANNELS }
    ensures notices { Notices keeping.old keeping.new }
    ensures noticed { notice_due Delivered (channel_in keeping.new number channel).end ≡ None }
{
    'deliveries: loop {
        if deliver(keeping, number, channel).is_none() {
            return;
        }
    }
}

// Gives the notices of ends of connections that are due at one end.
#[tactic(auto, using(crate::proofs::Given::noticing))]
fn end_all(keeping: &mut Keeping, number: PartId, channel: Channel)
    requires can { CanNoticeAt number keeping.old }
    requires channel { channel < CHANNELS }
    ensures notices { Notices keeping.old keeping.new }
    ensures noticed { notice_due Ended (channel_in keeping.new number channel).end ≡ None }
{
    'ends: loop {
        if end(keeping, number, channel).is_none() {
            return;
        }
    }
}

// Gives the notice of the lowest number whose delivery is known, where there is one.
#[tactic(auto, using(crate::proofs::Giving::giving))]
fn deliver(keeping: &mut Keeping, number: PartId, channel: Channel) -> Option<u64>
    requires can { CanNoticeAt number keeping.old }
    requires channel { channel < CHANNELS }
    ensures some { IfSome result (λ n. Notices keeping.old keeping.new) }
    ensures fewer { IfSome result (λ n.
        waiting_at keeping.new number channel < waiting_at keeping.old number channel) }
    ensures none { IfNone result (keeping.new ≡ keeping.old) }
    ensures noticed { IfNone result
        (notice_due Delivered (channel_in keeping.new number channel).end ≡ None) }
{
    let partner = keeping.partners.at_mut(number);
    partner.names();
    partner.deliver(channel)
}

// Gives the notice of the lowest number whose connection ended, where there is one.
#[tactic(auto, using(crate::proofs::Giving::giving))]
fn end(keeping: &mut Keeping, number: PartId, channel: Channel) -> Option<u64>
    requires can { CanNoticeAt number keeping.old }
    requires channel { channel < CHANNELS }
    ensures some { IfSome result (λ n. Notices keeping.old keeping.new) }
    ensures fewer { IfSome result (λ n.
        ended_at keeping.new number channel < ended_at keeping.old number channel) }
    ensures none { IfNone result (keeping.new ≡ keeping.old) }
    ensures noticed { IfNone result
        (notice_due Ended (channel_in keeping.new number channel).end ≡ None) }
{
    let partner = keeping.partners.at_mut(number);
    partner.names();
    partner.end_notice(channel)
}
