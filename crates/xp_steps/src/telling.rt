// Words of the partition's own memory that concern all its partners.
ghost use Rattle.std.specs.Prelude.{◌≡◌, ℕ, ◌<◌, ◌≤◌, length};
ghost use Rattle.xp_base.specs.declared.layout.TheConstants.{PARTS};
ghost use Rattle.xp_partition.specs.Partners.{partner_at};
ghost use Rattle.xp_steps.specs.Changing.{ChangesOne};
ghost use Rattle.xp_steps.specs.Telling.{IsTold, AreTold};

use xp_base::ids::PartId;
use xp_base::masks::contains;
use xp_partition::partners::Partners;
use xp_partner::partner::Partner;

/// A word of the partition's own memory that was taken, loaded or stored.
#[derive(Clone, Copy)]
pub enum OwnWord {
    /// The engagement word was loaded.
    Engaged(u64),
    /// The deactivation word was taken.
    Deactivated(u64),
    /// This heartbeat mask was stored.
    Mask(u64),
    /// This stamp was stored: the boot is over.
    Stamp(u32),
}

/// All partners are told a word of the partition's own memory.
#[tactic(auto, using(crate::proofs::Told::telling))]
pub fn tell_all(partners: &mut Partners, word: OwnWord)
    requires few { length partners.old.list ≤ PARTS }
    requires known { (q : ℕ) → q < length partners.old.list
        → (partner_at partners.old.list q).standing.partner ≡ q }
    ensures { AreTold word partners.old partners.new }
{
    for number in 0..partners.len() {
        tell(partners, PartId::known(number), word);
    }
}

// One partner is told a word of the partition's own memory.
#[tactic(auto, using(crate::proofs::Changing::changing))]
fn tell(partners: &mut Partners, number: PartId, word: OwnWord)
    requires number { number < length partners.old.list }
    requires known { (partner_at partners.old.list number).standing.partner ≡ number }
    ensures one { ChangesOne number partners.old partners.new }
    ensures told { IsTold word number (partner_at partners.old.list number)
        (partner_at partners.new.list number) }
{
    partners.touch(number);
    let partner = partners.at_mut(number);
    hear(partner, number, word);
}

// What the word makes of the partner that is told it.
#[tactic(auto, using(crate::proofs::Told::hearing))]
fn hear(partner: &mut Partner, number: PartId, word: OwnWord)
    requires { partner.old.standing.partner ≡ number }
    ensures { IsTold word number partner.old partner.new }
{
    partner.names();
    match word {
        OwnWord::Engaged(word) => partner.engaged(word),
        OwnWord::Deactivated(word) => partner.told(word),
        OwnWord::Mask(mask) => partner.masked(contains(mask, number)),
        OwnWord::Stamp(stamp) => partner.set_stamp(stamp),
    }
}
