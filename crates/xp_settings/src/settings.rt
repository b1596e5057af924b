// What the setting lines of a text have set so far.
ghost use Rattle.std.specs.Prelude.{◌≡◌};
ghost use Rattle.xp_script.specs.Settings.{joins};

use std::alloc::{AllocError, Global};
use xp_base::ids::{Channel, PartId};
use xp_script::limits::RESTART_LIMIT;
use xp_script::setting::{Faults, Minors, Pokes, Restarts, Setting, Stops, Warm, Warms};

/// What the setting lines of a text have set so far, by kinds, each kind in the order of the text.
#[derive(Drop)]
pub struct Settings {
    pub budget: Option<u64>,
    pub check: Option<u64>,
    pub minors: Minors,
    pub warms: Warms,
    pub faults: Faults,
    pub stops: Stops,
    pub restarts: Restarts,
    pub pokes: Pokes,
}

impl Settings {
    ghost use Rattle.std.specs.Prelude.{◌≡◌, OnOk};
    ghost use Rattle.xp_settings.specs.Tests.{has_minor, has_warm, has_end, has_stop, has_restarts};
    ghost use Rattle.xp_settings.specs.Settings.{no_settings, with_setting};

    pub fn new(alloc: Global) -> Settings
        ensures { result ≡ no_settings }
    {
        Settings {
            budget: None,
            check: None,
            minors: Minors {
                list: Vec::new(alloc),
            },
            warms: Warms {
                list: Vec::new(alloc),
            },
            faults: Faults {
                list: Vec::new(alloc),
            },
            stops: Stops {
                list: Vec::new(alloc),
            },
            restarts: Restarts {
                list: Vec::new(alloc),
            },
            pokes: Pokes {
                list: Vec::new(alloc),
            },
        }
    }

    /// Adds a setting.
    pub fn add(&mut self, setting: Setting) -> Result<(), AllocError>
        ensures { OnOk result (self.new ≡ with_setting setting self.old) }
    {
        match setting {
            Setting::Budget(turns) => self.budget = Some(turns),
            Setting::Check(turns) => self.check = Some(turns),
            Setting::Minor(minor) => self.minors.list.push(minor)?,
            Setting::Warm(warm) => self.warms.list.push(warm)?,
            Setting::Fault(fault) => self.faults.list.push(fault)?,
            Setting::Stop(stop) => self.stops.list.push(stop)?,
            Setting::Restart(restart) => self.restarts.list.push(restart)?,
            Setting::Poke(poke) => self.pokes.list.push(poke)?,
        }
        Ok(())
    }

    /// Whether a line gives the partition its minor version.
    #[tactic(auto, unfolding(crate::specs::Tests::has_minor))]
    pub fn has_minor(&self, part: PartId) -> bool
        ensures { result ≡ has_minor part self.now.minors }
    {
        self.minors.list.iter().any(|minor| minor.part == part)
    }

    /// Whether a line joins the two partitions, in either order, on the channel.
    #[tactic(auto, unfolding(crate::specs::Tests::has_warm))]
    pub fn has_warm(&self, first: PartId, second: PartId, channel: Channel) -> bool
        ensures { result ≡ has_warm first second channel self.now.warms }
    {
        self.warms
            .list
            .iter()
            .any(|warm| joins(warm, first, second, channel))
    }

    /// Whether a line joins the partition of this number to another.
    #[tactic(auto, unfolding(crate::specs::Tests::has_end))]
    pub fn has_end(&self, number: u64) -> bool
        ensures { result ≡ has_end number self.now.warms }
    {
        self.warms.list.iter().any(|warm| warm.first.get() as u64 == number
            || warm.second.get() as u64 == number)
    }

    /// Whether a line stops the partition.
    #[tactic(auto, unfolding(crate::specs::Tests::has_stop))]
    pub fn has_stop(&self, part: PartId) -> bool
        ensures { result ≡ has_stop part self.now.stops }
    {
        self.stops.list.iter().any(|stop| stop.part == part)
    }

    /// Whether as many lines restart the partition as may.
    #[tactic(auto, unfolding(crate::specs::Tests::has_restarts))]
    pub fn has_restarts(&self, part: PartId) -> bool
        ensures { result ≡ has_restarts part self.now.restarts }
    {
        let restarts = self
            .restarts
            .list
            .iter()
            .filter(|restart| restart.part == part);
        restarts.count() as u64 >= RESTART_LIMIT
    }
}

/// Whether the two partitions are the ends of the line, in either order, and it is of the channel.
fn joins(warm: &Warm, first: PartId, second: PartId, channel: Channel) -> bool
    ensures { result ≡ joins first second channel warm.now }
{
    // The channel comes first: of all lines before, most are of another one.
    if warm.channel != channel {
        return false;
    }
    let here = warm.first == first && warm.second == second;
    let there = warm.first == second && warm.second == first;
    here || there
}
