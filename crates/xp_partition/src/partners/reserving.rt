// The room at the ends of the partners that were touched.
ghost use Rattle.std.specs.Prelude.{◌≡◌, ◌≢◌, ℕ, ◌<◌, ◌≤◌, length, OnOk, OnErr, true, false};
ghost use Rattle.xp_base.specs.declared.layout.TheConstants.{PARTS};
ghost use Rattle.xp_base.specs.Masks.{has};
ghost use Rattle.xp_partner.specs.Room.{HaveTurnRoom};
ghost use Rattle.xp_partition.specs.Partners.{partner_at, AreRoomy, AllHaveTurnRoom, AreSameButRoom};

use crate::partners::Partners;
use std::alloc::AllocError;
use xp_base::ids::PartId;
use xp_base::masks;

impl Partners {
    /// Makes room for a turn at the ends of each partner that was touched. Then none counts as
    /// touched. After want of memory all is as before, but for more room.
    #[tactic(auto, using(crate::proofs::Roomy::unchanged))]
    pub fn reserve(&mut self) -> Result<(), AllocError>
        requires few { length self.old.list ≤ PARTS }
        requires roomy { AreRoomy self.old }
        ensures ok { OnOk result (AllHaveTurnRoom self.new) }
        ensures none { OnOk result (self.new.touched ≡ 0) }
        ensures err { OnErr result (self.new.touched ≡ self.old.touched) }
        ensures same { AreSameButRoom self.old self.new }
        ensures roomy { AreRoomy self.new }
    {
        if self.touched != 0 {
            self.reserve_touched()?;
            self.touched = 0;
        }
        Ok(())
    }

    // Makes room for a turn at the ends of each partner that was touched; the set stays.
    #[tactic(auto, using(crate::proofs::Roomy::reserving_all))]
    fn reserve_touched(&mut self) -> Result<(), AllocError>
        requires few { length self.old.list ≤ PARTS }
        requires roomy { AreRoomy self.old }
        ensures ok { OnOk result (AllHaveTurnRoom self.new) }
        ensures touched { self.new.touched ≡ self.old.touched }
        ensures same { AreSameButRoom self.old self.new }
        ensures roomy { AreRoomy self.new }
    {
        for number in 0..self.len() {
            self.reserve_at(PartId::known(number))?;
        }
        Ok(())
    }

    // Makes room for a turn at the ends of one partner, if it was touched.
    #[tactic(auto, using(crate::proofs::Roomy::reserving))]
    fn reserve_at(&mut self, number: PartId) -> Result<(), AllocError>
        requires { number < length self.old.list }
        ensures ok { OnOk result
            (has self.old.touched number ≡ true → HaveTurnRoom (partner_at self.new.list number)) }
        ensures others { (q : ℕ) → q ≢ number →
            partner_at self.new.list q ≡ partner_at self.old.list q }
        ensures untouched { has self.old.touched number ≡ false → self.new ≡ self.old }
        ensures touched { self.new.touched ≡ self.old.touched }
        ensures same { AreSameButRoom self.old self.new }
    {
        if masks::contains(self.touched, number) {
            let partner = &mut self.list[number.get() as usize];
            partner.reserve()?;
        }
        Ok(())
    }
}
