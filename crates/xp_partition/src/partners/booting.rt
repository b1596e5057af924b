// All partners of a partition that boots.
ghost use Rattle.std.specs.Prelude.{◌≡◌, ℕ, ◌<◌, ◌≤◌, length};
ghost use Rattle.xp_base.specs.declared.layout.TheConstants.{PARTS};
ghost use Rattle.xp_partner.specs.Partner.{rooms_of};
ghost use Rattle.xp_partition.specs.Partners.{partner_at, with_partner, booted_anew};

use crate::partners::Partners;
use xp_base::ids::PartId;

impl Partners {
    /// The partition boots, under a stamp that isn't known yet: nothing is known of any partner.
    #[tactic(auto, using(crate::proofs::Restarting::booting_all))]
    pub fn boot(&mut self)
        requires { length self.old.list ≤ PARTS }
        ensures count { length self.new.list ≡ length self.old.list }
        ensures each { (q : ℕ) → q < length self.old.list → partner_at self.new.list q ≡
            rooms_of (booted_anew (partner_at self.old.list q)) (partner_at self.new.list q) }
        ensures touched { self.new.touched ≡ self.old.touched }
    {
        for number in 0..self.len() {
            self.boot_at(PartId::known(number));
        }
    }

    // Nothing is known of one partner, under a stamp that isn't known yet.
    #[tactic(auto, using(crate::proofs::Roomy::reserving))]
    fn boot_at(&mut self, number: PartId)
        requires { number < length self.old.list }
        ensures whole { self.new ≡ with_partner number (partner_at self.new.list number) self.old }
        ensures partner { partner_at self.new.list number ≡
            rooms_of (booted_anew (partner_at self.old.list number))
            (partner_at self.new.list number) }
    {
        let partner = &mut self.list[number.get() as usize];
        partner.boot();
        partner.set_stamp(0);
    }
}
