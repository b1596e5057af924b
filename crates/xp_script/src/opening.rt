// The words of all partitions before the first turn.
ghost use Rattle.std.specs.Prelude.{◌≡◌, ◌+◌, ◌-◌, ◌*◌, ◌^◌, ◌<◌, ◌≤◌, length, IfOk};
ghost use Rattle.xp_base.specs.declared.layout.TheConstants.{PARTS};
ghost use Rattle.xp_script.specs.Sizes.{IsCount};
ghost use Rattle.xp_script.specs.Settings.{minor_of};
ghost use Rattle.xp_script.specs.Lawful.{IsLawful};
ghost use Rattle.xp_script.specs.Parts.{links_of};
ghost use Rattle.xp_script.specs.Opening.{page_words, partner_mask, booted_words, link_words, all_link_words, put_words, open_part, opening};

use crate::part::{Link, Links};
use crate::scenario::Scenario;
use std::alloc::{AllocError, Global};
use xp_base::ids::{Channel, PartId};
use xp_base::layout::{
    BEAT, CHANNELS, ENGAGED, MASK, OPEN_WORDS, PART_AT, PARTS_MASK_AT, RECORDS_PLACE_AT,
    REQUEST_ENTRY, SECOND, SIGNATURE, SIGNATURE_AT, STAMP, VARIABLES_AT, VARIABLES_PLACE_AT,
    VERSION_AT, VERSION_BASE,
};
use xp_base::places::{args, counters, flag_word, queue_word, record};
use xp_base::session::Session;
use xp_base::words::Words;

// The mask of so many partitions.
#[tactic(auto, using(crate::proofs::Openings::whole_mask))]
fn parts_mask(count: u8) -> u64
    requires { IsCount count }
    ensures { result ≡ 2 ^ count - 1 }
{
    2 * ((1 << (count - 1)) - 1) + 1
}

// Puts the page of a partition among `count`, with its minor version.
fn put_page(words: &mut Words, part: PartId, count: u8, minor: u8)
    requires part { part < length words.old }
    requires count { IsCount count }
    ensures words { words.new ≡ put_words words.old part (page_words count minor part) }
    ensures count { length words.new ≡ length words.old }
{
    words.set(part, SIGNATURE_AT, SIGNATURE);
    words.set(part, VERSION_AT, VERSION_BASE + minor as u64);
    words.set(part, PART_AT, part.get() as u64);
    words.set(part, VARIABLES_PLACE_AT, VARIABLES_AT as u64);
    words.set(part, PARTS_MASK_AT, parts_mask(count));
    words.set(part, RECORDS_PLACE_AT, OPEN_WORDS as u64);
}

// A bit for each partner that has a link.
fn mask_of(links: &Links) -> u64
    ensures { result ≡ partner_mask links.now }
{
    let mut mask = 0;
    for link in &links.list {
        mask |= 1 << link.partner.get();
    }
    mask
}

// Puts the words of a partition that opens booted, where it has a link.
fn put_booted(words: &mut Words, part: PartId, links: &Links)
    requires { part < length words.old }
    ensures words { words.new ≡ put_words words.old part (booted_words links.now) }
    ensures count { length words.new ≡ length words.old }
{
    if links.list.is_empty() {
        return;
    }
    let mask = mask_of(links);
    words.set(part, STAMP, 1);
    words.set(part, BEAT, 1);
    words.set(part, MASK, mask);
    words.set(part, ENGAGED, mask);
}

// Puts the record for a partner in contact, and the request and the reply of the channel.
fn put_link(words: &mut Words, part: PartId, link: Link)
    requires { part < length words.old }
    ensures words { words.new ≡ put_words words.old part (link_words link) }
    ensures count { length words.new ≡ length words.old }
{
    let first = Channel::known(0);
    let session = Session { stamp: 1, count: 1 }.word();
    let partner = link.partner;
    words.set(part, record(partner, 0), SECOND);
    words.set(part, record(partner, 1), session);
    words.set(part, record(partner, 2), session);
    words.set(part, record(partner, 3), args(partner, first, 0) as u64);
    words.set(part, record(partner, 4), counters(partner, first, 0) as u64);
    words.set(part, record(partner, 5), flag_word(partner) as u64);
    words.set(part, record(partner, 6), CHANNELS as u64);
    let request = link.limit as u64 + REQUEST_ENTRY * link.entries as u64;
    let reply = queue_word(partner, link.channel, 0) as u64;
    words.set(part, args(partner, link.channel, 0), request);
    words.set(part, args(partner, link.channel, 1), reply);
}

fn put_links(words: &mut Words, part: PartId, links: &Links)
    requires { part < length words.old }
    ensures words { words.new ≡ put_words words.old part (all_link_words links.now) }
    ensures count { length words.new ≡ length words.old }
{
    for link in &links.list {
        put_link(words, part, *link);
    }
}

impl Scenario {
    /// The words before the first turn.
    pub fn opening(&self, alloc: Global) -> Result<Words, AllocError>
        requires { IsLawful self.now }
        ensures words { IfOk result (λ words. words ≡ opening self.now) }
        ensures count { IfOk result (λ words. length words ≡ self.now.count) }
    {
        let count = self.count.get();
        let mut words = Words::open(alloc, count)?;
        for number in 0..count {
            let part = PartId::known(number);
            let links = self.links(alloc, part)?;
            put_page(&mut words, part, count, self.minors.of(part));
            put_booted(&mut words, part, &links);
            put_links(&mut words, part, &links);
        }
        Ok(words)
    }
}
