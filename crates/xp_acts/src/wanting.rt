// Commands that name no end: partners are deactivated and wanted again.
ghost use Rattle.std.specs.Prelude.{◌≡◌, ◌≢◌, ℕ, ◌<◌, ◌≤◌, length, map, slice_set, Some, true, false, []};
ghost use Rattle.xp_base.specs.declared.layout.TheConstants.{PARTS};
ghost use Rattle.xp_base.specs.Masks.{has};
ghost use Rattle.xp_protocol.specs.State.{peer_at, each};
ghost use Rattle.xp_protocol.specs.Acts.{peers_wanted, unwanted};
ghost use Rattle.xp_partner.specs.Partner.{peer_seen};
ghost use Rattle.xp_partition.specs.Partners.{partner_at};
ghost use Rattle.xp_acts.specs.Becoming.{Becomes};
ghost use Rattle.xp_acts.specs.Wanting.{wanting, peer_wanted};

use xp_base::ids::PartId;
use xp_partition::partners::Partners;
use xp_script::command::Command;

/// What the beginning of a command that names no end makes of the partners.
#[tactic(auto, using(crate::proofs::Becoming::unchanged))]
pub fn begin(partners: &mut Partners, command: &Command)
    requires { length partners.old.list ≤ PARTS }
    ensures { Becomes 0 partners.old
        (peers_wanted (Some command.now) (map peer_seen partners.old.list)) (λ q c. [])
        partners.new }
{
    match command {
        Command::Deactivate { partner } => want(partners, *partner, false),
        Command::Activate { partner } => want(partners, *partner, true),
        Command::Leave => leave(partners),
        _ => {}
    }
}

// The partner of a number is wanted, or isn't any more, where there is one.
fn want(partners: &mut Partners, number: PartId, wanted: bool)
    requires { length partners.old.list ≤ PARTS }
    ensures { Becomes 0 partners.old
        (slice_set (map peer_seen partners.old.list) number
        (peer_wanted wanted (peer_at (map peer_seen partners.old.list) number)))
        (λ q c. []) partners.new }
{
    if number.get() < partners.len() {
        want_known(partners, number, wanted);
    }
}

// One of the partners is wanted, or isn't any more.
fn want_known(partners: &mut Partners, number: PartId, wanted: bool)
    requires { number < length partners.old.list }
    ensures list { partners.new.list ≡
        slice_set partners.old.list number
        (wanting wanted (partner_at partners.old.list number)) }
    ensures here { has partners.new.touched number ≡ true }
    ensures others { (q : ℕ) → q < PARTS → q ≢ number →
        has partners.new.touched q ≡ has partners.old.touched q }
{
    partners.touch(number);
    let partner = partners.at_mut(number);
    partner.names();
    if wanted {
        partner.activate();
    } else {
        partner.deactivate();
    }
}

// No partner is wanted any more.
#[tactic(auto, using(crate::proofs::Wants::leaving))]
fn leave(partners: &mut Partners)
    requires { length partners.old.list ≤ PARTS }
    ensures { Becomes 0 partners.old (each (λ q p. unwanted p) 0 (map peer_seen partners.old.list))
        (λ q c. []) partners.new }
{
    for number in 0..partners.len() {
        want_known(partners, PartId::known(number), false);
    }
}
