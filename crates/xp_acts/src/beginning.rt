// The next command of the script is begun.
ghost use Rattle.std.specs.Prelude.{◌≡◌, ◌≢◌, ◌+◌, ◌^◌, ◌<◌, ◌≤◌, ℕ, [], ◌∷◌, IfSome, IsSome, IfNone, Some, None, true, false, length, map, slice_get, option_to_list};
ghost use Rattle.std.specs.Option.{option_copied};
ghost use Rattle.xp_base.specs.declared.layout.TheConstants.{PARTS, CHANNELS};
ghost use Rattle.xp_base.specs.History.{Begun};
ghost use Rattle.xp_protocol.specs.Parts.{script_in};
ghost use Rattle.xp_protocol.specs.Acts.{EndName, upcoming, named_end, MayAct};
ghost use Rattle.xp_protocol.specs.Logged.{begun_entry};
ghost use Rattle.xp_counts.specs.Counted.{AreCounted};
ghost use Rattle.xp_channel.specs.Answering.{IsWellFormed};
ghost use Rattle.xp_partner.specs.Partner.{peer_seen, channel_of};
ghost use Rattle.xp_channel.specs.Room.{IsCountable};
ghost use Rattle.xp_partition.specs.Keeping.{state_of, IsKept};
ghost use Rattle.xp_partition.specs.Partners.{partner_at, AreRoomy, AllHaveNotes, LeavesUntouched};
ghost use Rattle.xp_acts.specs.Acts.{Acts};
ghost use Rattle.xp_acts.specs.Becoming.{Becomes, AreNumbered};
ghost use Rattle.xp_acts.specs.Commands.{peers_begun, notes_begun, CanBegin, CanLog};

use crate::{ends, wanting};
use xp_partition::keeping::Keeping;
use xp_partition::life::Life;
use xp_partition::partners::Partners;
use xp_script::command::Command;
use xp_script::log::Entry;
use xp_script::part::ScenarioPart;

/// Begins the next command of the script, where the partition is up, no command is in progress and
/// one is left. Gives its entry of the log, which has no answer yet.
pub fn begin(keeping: &mut Keeping) -> Option<Entry>
    requires kept { IsKept keeping.old }
    requires counts { AreCounted (2 ^ 63) (state_of keeping.old) }
    requires log { CanLog keeping.old }
    requires room { AllHaveNotes 1 keeping.old.partners }
    ensures some { IfSome result (λ entry. Acts keeping.old keeping.new (Begun ∷ [])) }
    ensures entry { IfSome result (λ entry. begun_entry keeping.old.clock.boots
        (keeping.old.script.begun + 1) (upcoming keeping.old.part (state_of keeping.old))
        ≡ entry ∷ []) }
    ensures none { IfNone result (keeping.new ≡ keeping.old) }
    ensures may { IfNone result (MayAct keeping.old.part (state_of keeping.old) Begun → ⊥) }
    ensures room { (notes : ℕ) → AllHaveNotes (notes + 1) keeping.old.partners →
        AllHaveNotes notes keeping.new.partners }
    ensures touched { LeavesUntouched keeping.old.partners keeping.new.partners }
    ensures roomy { AreRoomy keeping.old.partners → AreRoomy keeping.new.partners }
{
    if !may_begin(keeping) {
        return None;
    }
    let entry = next_entry(keeping)?;
    begin_next(keeping);
    Some(entry)
}

// Whether the partition is up, and no command is in progress.
fn may_begin(keeping: &Keeping) -> bool
    ensures yes { result ≡ true → CanBegin keeping.now }
    ensures no { result ≡ false → CanBegin keeping.now → ⊥ }
{
    matches!(keeping.life, Life::Up) && !keeping.script.is_doing()
}

// The entry of the log of the command that comes next.
fn next_entry(keeping: &Keeping) -> Option<Entry>
    requires { CanLog keeping.now }
    ensures { option_to_list result ≡ begun_entry keeping.now.clock.boots
        (keeping.now.script.begun + 1) (upcoming keeping.now.part (state_of keeping.now)) }
{
    let command = keeping.upcoming()?;
    Some(Entry {
        boot: keeping.clock.boots() as u8,
        number: keeping.script.begun() as u32 + 1,
        verb: command.verb(),
        answer: None,
    })
}

// A command of the script of a boot, by its place.
#[tactic(auto, using(crate::proofs::Begun::scripted))]
fn command_in(part: &ScenarioPart, boot: u64, place: u64) -> Option<&Command>
    ensures { option_copied result ≡ slice_get (script_in part.now boot) place }
{
    let script = part.scripts.list.get(boot.saturating_sub(1) as usize)?;
    script.get(place)
}

// Begins the next command, where there is one and it can be begun.
fn begin_next(keeping: &mut Keeping)
    requires kept { IsKept keeping.old }
    requires counts { AreCounted (2 ^ 63) (state_of keeping.old) }
    requires room { AllHaveNotes 1 keeping.old.partners }
    requires may { CanBegin keeping.old }
    requires left { IsSome (upcoming keeping.old.part (state_of keeping.old)) }
    ensures acts { Acts keeping.old keeping.new (Begun ∷ []) }
    ensures room { (notes : ℕ) → AllHaveNotes (notes + 1) keeping.old.partners →
        AllHaveNotes notes keeping.new.partners }
    ensures touched { LeavesUntouched keeping.old.partners keeping.new.partners }
    ensures count { length keeping.new.partners.list ≡ length keeping.old.partners.list }
{
    let boot = keeping.clock.boots();
    let Some(command) = command_in(&keeping.part, boot, keeping.script.begun()) else {
        return;
    };
    begin_command(&mut keeping.partners, command);
    keeping.script.begin(keeping.clock.turns());
}

// Begins a command, at the end that it names or by itself.
fn begin_command(partners: &mut Partners, command: &Command)
    requires few { length partners.old.list ≤ PARTS }
    requires numbered { AreNumbered partners.old }
    requires formed { IsWellFormed command.now }
    requires end { (n : EndName) → named_end command.now ≡ Some n →
        (n.partner < length partners.old.list) × (n.channel < CHANNELS) }
    requires room { AllHaveNotes 1 partners.old }
    requires counts { (q c : ℕ) → IsCountable (channel_of (partner_at partners.old.list q) c).end }
    ensures { Becomes 1 partners.old
        (peers_begun command.now (named_end command.now) (map peer_seen partners.old.list))
        (notes_begun command.now (named_end command.now) (map peer_seen partners.old.list))
        partners.new }
{
    match ends::named_end(command) {
        Some(end) => ends::begin(partners, end, command),
        None => wanting::begin(partners, command),
    }
}
