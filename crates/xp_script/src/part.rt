// What a partition is told of a scenario.
ghost use Rattle.std.specs.Prelude.{◌≡◌, ◌<◌, ◌++◌, filter, IfOk, OnOk, option_to_list};
ghost use Rattle.xp_base.specs.declared.layout.TheConstants.{CHANNELS};
ghost use Rattle.std.specs.List.{list_any};
ghost use Rattle.xp_script.specs.Lawful.{boots_of, IsLawful};
ghost use Rattle.xp_script.specs.Parts.{link_in, links_to, links_of, is_fault_of, is_link_to, is_minor_for, stop_of, restarts_of, part_of};

use crate::count::Count;
use crate::scenario::Scenario;
use crate::script::Boots;
use crate::setting::{Faults, Minors, Moment, Restarts, Stops, Warms};
use std::alloc::{AllocError, Global};
use std::marker::Model;
use xp_base::ids::{Channel, PartId};
use xp_base::layout::CHANNELS;

/// A channel that opens connected, as one of its ends sees it.
#[derive(Clone, Copy)]
pub struct Link {
    pub partner: PartId,
    pub channel: Channel,
    /// How many messages each queue holds: 1 to 8.
    pub entries: u8,
    /// The longest payload, in bytes: 0 to `LINE_BYTES`, and to `BODY_BYTES` where both have minor
    /// version 2.
    pub limit: u16,
}

/// The links of a partition, by partner and channel. Contracts see the list of them.
#[derive(Drop)]
pub struct Links {
    pub list: Vec<Link>,
}

impl Model for Links {
    ghost use Rattle.std.specs.Prelude.{List};
    ghost use Rattle.xp_script.specs.declared.part.Link.{Link};

    ghost Value = { List Link };

    ghost view = { λ l. l.list.items };
}

/// Moments of one partition, in the order of the text. Contracts see the list of them.
#[derive(Drop)]
pub struct Moments {
    pub list: Vec<Moment>,
}

impl Model for Moments {
    ghost use Rattle.std.specs.Prelude.{List};
    ghost use Rattle.xp_script.specs.declared.setting.Moment.{Moment};

    ghost Value = { List Moment };

    ghost view = { λ m. m.list.items };
}

/// A partition's part of a scenario: all that its node knows of it. Pokes are none of it, since
/// they come from outside.
#[derive(Drop)]
pub struct ScenarioPart {
    pub part: PartId,
    /// How many partitions there are.
    pub count: Count,
    /// How many turns a partition may take where nothing schedules it: 1 to 4,000,000.
    pub budget: u64,
    /// How many of its own turns a partition makes between two heartbeat checks of a partner, or 0
    /// for no checks.
    pub check: u64,
    /// The minor versions of this partition and of the partners that it has a link to, where a
    /// setting says them.
    pub minors: Minors,
    pub links: Links,
    /// The faults of this partition.
    pub faults: Faults,
    /// When the partition stops, where it does.
    pub stop: Option<Moment>,
    /// When the partition restarts.
    pub restarts: Moments,
    /// The scripts of the partition, one for each boot.
    pub scripts: Boots,
}

// The link that the line of two partitions and a channel gives `part`.
fn link_on(warms: &Warms, part: PartId, partner: PartId, channel: Channel) -> Option<Link>
    ensures { option_to_list result ≡ link_in part partner channel warms.now }
{
    for warm in &warms.list {
        if warm.joins(part, partner, channel) {
            return Some(Link {
                partner,
                channel,
                entries: warm.entries,
                limit: warm.limit,
            });
        }
    }
    None
}

// Appends the links of a partition to a partner, by channel.
fn push_links(
    links: &mut Vec<Link>,
    warms: &Warms,
    part: PartId,
    partner: PartId,
) -> Result<(), AllocError>
    ensures { OnOk result (
        links.new.items ≡ links.old.items ++ links_to part partner 0 CHANNELS warms.now
        ) }
{
    for channel in 0..CHANNELS {
        if let Some(link) = link_on(warms, part, partner, Channel::known(channel)) {
            links.push(link)?;
        }
    }
    Ok(())
}

impl Links {
    // Whether one of the links is to this partition.
    fn is_to(&self, partner: PartId) -> bool
        ensures { result ≡ list_any (is_link_to partner) self.now }
    {
        for link in &self.list {
            if link.partner == partner {
                return true;
            }
        }
        false
    }
}

impl Minors {
    // The lines of a partition and of the partners of its links.
    fn lines_for(&self, alloc: Global, part: PartId, links: &Links) -> Result<Minors, AllocError>
        ensures { IfOk result (λ minors. minors ≡ filter (is_minor_for part links.now) self.now) }
    {
        let mut list = Vec::new(alloc);
        for minor in &self.list {
            if minor.part == part || links.is_to(minor.part) {
                list.push(*minor)?;
            }
        }
        Ok(Minors { list })
    }
}

impl Faults {
    // The lines of a partition.
    fn lines_of(&self, alloc: Global, part: PartId) -> Result<Faults, AllocError>
        ensures { IfOk result (λ faults. faults ≡ filter (is_fault_of part) self.now) }
    {
        let mut list = Vec::new(alloc);
        for fault in &self.list {
            if fault.part == part {
                list.push(*fault)?;
            }
        }
        Ok(Faults { list })
    }
}

impl Stops {
    // When a partition stops.
    fn moment_of(&self, part: PartId) -> Option<Moment>
        ensures { result ≡ stop_of part self.now }
    {
        for stop in &self.list {
            if stop.part == part {
                return Some(stop.moment);
            }
        }
        None
    }
}

impl Restarts {
    // When a partition restarts.
    fn moments_of(&self, alloc: Global, part: PartId) -> Result<Moments, AllocError>
        ensures { IfOk result (λ moments. moments ≡ restarts_of part self.now) }
    {
        let mut list = Vec::new(alloc);
        for restart in &self.list {
            if restart.part == part {
                list.push(restart.moment)?;
            }
        }
        Ok(Moments { list })
    }
}

impl Scenario {
    /// The links of a partition.
    pub fn links(&self, alloc: Global, part: PartId) -> Result<Links, AllocError>
        ensures { IfOk result (λ links. links ≡ links_of self.now part) }
    {
        let count = self.count.get();
        let mut list = Vec::new(alloc);
        for partner in 0..count {
            push_links(&mut list, &self.warms, part, PartId::known(partner))?;
        }
        Ok(Links { list })
    }

    /// A partition's part of the scenario.
    pub fn part(&self, alloc: Global, part: PartId) -> Result<ScenarioPart, AllocError>
        requires lawful { IsLawful self.now }
        requires part { part < self.now.count }
        ensures { IfOk result (λ told. told ≡ part_of self.now part) }
    {
        let links = self.links(alloc, part)?;
        Ok(ScenarioPart {
            part,
            count: self.count,
            budget: self.budget,
            check: self.check,
            minors: self.minors.lines_for(alloc, part, &links)?,
            faults: self.faults.lines_of(alloc, part)?,
            stop: self.stops.moment_of(part),
            restarts: self.restarts.moments_of(alloc, part)?,
            scripts: self.scripts.list[part.get() as usize].copy(alloc)?,
            links,
        })
    }
}
