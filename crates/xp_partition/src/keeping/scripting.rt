// The script of a boot.
ghost use Rattle.std.specs.Prelude.{◌≡◌, ◌-◌, ◌<◌, ◌^◌, length, slice_get, is_some, true};
ghost use Rattle.std.specs.Option.{option_copied};
ghost use Rattle.xp_protocol.specs.Parts.{script_in};
ghost use Rattle.xp_protocol.specs.Acts.{current, upcoming};
ghost use Rattle.xp_protocol.specs.Peering.{or_zero};
ghost use Rattle.xp_protocol.specs.Rules.{offline_asked};
ghost use Rattle.xp_partition.specs.Keeping.{state_of};

use crate::keeping::Keeping;
use xp_script::command::Command;
use xp_script::script::Script;

impl Keeping {
    // The script of this boot, where there is one.
    fn boot_script(&self) -> Option<&Script>
        ensures { option_copied result
            ≡ slice_get self.now.part.scripts (self.now.clock.boots - 1) }
    {
        let boot = self.clock.boots().saturating_sub(1);
        self.part.scripts.list.get(boot as usize)
    }

    /// How many commands the script of this boot has.
    #[tactic(auto, using(crate::proofs::Scripting::commands))]
    pub fn commands(&self) -> usize
        ensures { result ≡ length (script_in self.now.part self.now.clock.boots) }
    {
        match self.boot_script() {
            Some(script) => script.len(),
            None => 0,
        }
    }

    // A command of the script, by its place.
    #[tactic(auto, using(crate::proofs::Scripting::commands))]
    fn command_at(&self, place: u64) -> Option<&Command>
        ensures { option_copied result
            ≡ slice_get (script_in self.now.part self.now.clock.boots) place }
    {
        let script = self.boot_script()?;
        script.get(place)
    }

    /// The command that comes next.
    pub fn upcoming(&self) -> Option<&Command>
        ensures { option_copied result ≡ upcoming self.now.part (state_of self.now) }
    {
        self.command_at(self.script.begun())
    }

    /// The command that was begun last. It is in progress, or was answered.
    pub fn current(&self) -> Option<&Command>
        ensures { option_copied result ≡ current self.now.part (state_of self.now) }
    {
        self.command_at(self.script.begun().saturating_sub(1))
    }

    /// Whether the command in progress still has to store the offline count.
    pub fn stores_offline(&self) -> bool
        ensures { result ≡ is_some (offline_asked self.now.part (state_of self.now)) }
    {
        if !self.script.is_doing() || self.beat.has_stored(self.script.begun()) {
            return false;
        }
        match self.current() {
            Some(Command::Offline) => true,
            Some(Command::Online) => self.beat.is_offline(),
            _ => false,
        }
    }

    /// What the command in progress makes of the offline count: `offline` raises it, and `online`
    /// lowers it.
    pub fn next_offline(&self) -> u64
        requires asked { is_some (offline_asked self.now.part (state_of self.now)) ≡ true }
        requires count { self.now.beat.offline < 2 ^ 64 - 1 }
        ensures { result ≡ or_zero (offline_asked self.now.part (state_of self.now)) }
    {
        let count = self.beat.offline();
        match self.current() {
            Some(Command::Offline) => count + 1,
            _ => count.saturating_sub(1),
        }
    }
}
