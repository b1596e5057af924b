// The room of a partner's ends.
ghost use Rattle.std.specs.Prelude.{◌≡◌, OnOk, true};
ghost use Rattle.xp_partner.specs.Partner.{rooms_of};
ghost use Rattle.xp_partner.specs.Room.{HaveTurnRoom, AreNoLess};

use crate::ends;
use crate::partner::Partner;
use std::alloc::AllocError;

impl Partner {
    /// Makes room at each end for all that the calls of one turn append. Room that was made before
    /// is kept. After want of memory the partner is as before, but for its room.
    #[tactic(auto, using(crate::proofs::Reserving::reserved))]
    pub fn reserve(&mut self) -> Result<(), AllocError>
        ensures ok { OnOk result (HaveTurnRoom self.new) }
        ensures same { self.new ≡ rooms_of self.old self.new }
        ensures kept { AreNoLess self.old self.new }
    {
        ends::reserve(&mut self.ends)
    }

    /// Whether there is room at each end for all that the calls of one turn append.
    pub fn has_turn_room(&self) -> bool
        ensures yes { result ≡ true → HaveTurnRoom self.now }
        ensures no { HaveTurnRoom self.now → result ≡ true }
    {
        ends::have_turn_room(&self.ends)
    }
}
