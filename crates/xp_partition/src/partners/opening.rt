// The partners of a partition that opens.
ghost use Rattle.std.specs.Prelude.{◌≡◌, ℕ, ◌*◌, ◌<◌, List, [], ◌∷◌, bit_or, ◌^◌, length, IfOk, OnOk};
ghost use Rattle.xp_base.specs.declared.layout.TheConstants.{CHANNELS};
ghost use Rattle.xp_script.specs.declared.part.Link.{Link};
ghost use Rattle.xp_protocol.specs.Parts.{IsLawfulPart, IsRequestSize};
ghost use Rattle.xp_protocol.specs.State.{version_of};
ghost use Rattle.xp_partition.specs.Opening.{cold_partner, IsWarmedAt, Opens};

use crate::partners::Partners;
use std::alloc::{AllocError, Global};
use xp_base::ids::{Channel, PartId};
use xp_base::layout::{VERSION_BASE, window};
use xp_base::masks::bit;
use xp_partner::partner::Partner;
use xp_protocol::contact::Size;
use xp_script::part::{Link, ScenarioPart};

// The word of a partition's version.
fn version(part: &ScenarioPart, number: PartId) -> u64
    ensures { result ≡ version_of part.now number }
{
    VERSION_BASE + part.minors.of(number) as u64
}

// A partner that isn't in contact.
fn cold_partner(alloc: Global, part: &ScenarioPart, number: PartId) -> Partner
    requires { IsLawfulPart part.now }
    ensures { result ≡ cold_partner part.now number }
{
    let own = part.part;
    let window = window(part.count.get());
    if part.links.list.is_empty() {
        Partner::new(
            alloc,
            own,
            number,
            version(part, own),
            0,
            window,
            part.check,
        )
    } else {
        Partner::off(alloc, own, number, version(part, own), window, part.check)
    }
}

impl Partners {
    /// The partners at the opening, and the mask of those that are in contact.
    pub fn open(alloc: Global, part: &ScenarioPart) -> Result<(Partners, u64), AllocError>
        requires { IsLawfulPart part.now }
        ensures { IfOk result (λ x. Opens part.now [] x.1 x.0) }
    {
        let mut partners = Partners::cold(alloc, part)?;
        let mut mask = 0;
        for link in &part.links.list {
            partners.warm(alloc, part, *link)?;
            mask |= bit(link.partner);
        }
        Ok((partners, mask))
    }

    // The partners before their links are connected: none is in contact.
    #[tactic(auto, using(crate::proofs::Opened::opening_all))]
    fn cold(alloc: Global, part: &ScenarioPart) -> Result<Partners, AllocError>
        requires { IsLawfulPart part.now }
        ensures { IfOk result (λ partners. Opens part.now part.now.links 0 partners) }
    {
        let mut list = Vec::new(alloc);
        for number in 0..part.count.get() {
            list.push(cold_partner(alloc, part, PartId::known(number)))?;
        }
        Ok(Partners { list, touched: 0 })
    }

    // One more of the links is connected.
    fn warm(&mut self, alloc: Global, part: &ScenarioPart, link: Link) -> Result<(), AllocError>
        requires lawful { IsLawfulPart part.now }
        requires number { link.partner < length self.old.list }
        requires channel { link.channel < CHANNELS }
        requires size { IsRequestSize link.entries link.limit }
        ensures { OnOk result ((more : List Link) (mask : ℕ) →
            Opens part.now (link ∷ more) mask self.old →
            Opens part.now more (bit_or mask (2 ^ link.partner)) self.new) }
    {
        self.touch(link.partner);
        let theirs = version(part, link.partner);
        let window = window(part.count.get());
        let size = Size {
            entries: link.entries,
            limit: link.limit,
        };
        self.warm_at(alloc, link.partner, theirs, window, link.channel, size)
    }

    // A partner is warm, with this one of its channels connected.
    #[tactic(auto, using(crate::proofs::Roomy::same_at))]
    fn warm_at(
        &mut self,
        alloc: Global,
        number: PartId,
        theirs: u64,
        window: u64,
        channel: Channel,
        size: Size,
    ) -> Result<(), AllocError>
        requires number { number < length self.old.list }
        requires size { IsRequestSize size.entries size.limit }
        requires window { 2 * window < 2 ^ 64 }
        ensures { OnOk result (IsWarmedAt theirs window number channel size self.old self.new) }
    {
        let partner = &mut self.list[number.get() as usize];
        partner.warm(alloc, theirs, window, channel, size)
    }
}
