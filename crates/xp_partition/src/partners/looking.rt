// What is asked of all partners together.
ghost use Rattle.std.specs.Prelude.{◌≡◌, ◌<◌, ◌≤◌, ◌&&◌, ◌||◌, not, nat_eq, length, map, bit_or, if◌then◌else◌};
ghost use Rattle.xp_base.specs.declared.layout.TheConstants.{PARTS};
ghost use Rattle.xp_protocol.specs.Peering.{is_masked, is_left, mask_from};
ghost use Rattle.xp_protocol.specs.Runs.{some_owe};
ghost use Rattle.xp_plan.specs.PeerSteps.{any_left};
ghost use Rattle.xp_partner.specs.Partner.{peer_seen};

use crate::partners::Partners;
use xp_base::ids::PartId;
use xp_base::masks::bit;
use xp_engage::area::AreaState;
use xp_partner::partner::Partner;

// Whether the own memory is open to a partner, or about to be.
fn is_masked(partner: &Partner) -> bool
    ensures { result ≡ is_masked (peer_seen partner.now) }
{
    let standing = partner.standing();
    let is_open = match standing.area() {
        AreaState::Ready | AreaState::Leaving => true,
        AreaState::Old | AreaState::Off => false,
    };
    is_open || standing.prepared()
}

// Whether the own memory for a partner waits to be free.
fn is_left(partner: &Partner) -> bool
    ensures { result ≡ is_left partner.now.standing.engage }
{
    let standing = partner.standing();
    match standing.area() {
        AreaState::Old => true,
        AreaState::Off | AreaState::Ready => false,
        AreaState::Leaving => !standing.attached(),
    }
}

impl Partners {
    /// Whether a flag or a store of get is owed to any partner in contact.
    pub fn owe(&self) -> bool
        ensures { result ≡ some_owe (map peer_seen self.now.list) }
    {
        for partner in &self.list {
            if partner.owes() {
                return true;
            }
        }
        false
    }

    /// The mask of the partners for which the own memory is open, or about to be.
    #[tactic(auto, using(crate::proofs::Looking::masking))]
    pub fn mask(&self) -> u64
        requires { length self.now.list ≤ PARTS }
        ensures { result ≡ mask_from 0 (map peer_seen self.now.list) }
    {
        let mut mask = 0;
        for number in 0..self.len() {
            let number = PartId::known(number);
            if is_masked(self.at(number)) {
                mask |= bit(number);
            }
        }
        mask
    }

    /// Whether the own memory for a partner of partition `own` waits to be free.
    #[tactic(auto, using(crate::proofs::Looking::leaving))]
    pub fn any_left(&self, own: PartId) -> bool
        requires { length self.now.list ≤ PARTS }
        ensures { result ≡ any_left own 0 (map peer_seen self.now.list) }
    {
        for number in 0..self.len() {
            let number = PartId::known(number);
            if number != own && is_left(self.at(number)) {
                return true;
            }
        }
        false
    }
}
