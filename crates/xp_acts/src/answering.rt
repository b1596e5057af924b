// The command in progress is answered.
ghost use Rattle.std.specs.Prelude.{◌≡◌, ◌≢◌, ℕ, ◌+◌, ◌-◌, ◌<◌, ◌≤◌, ◌^◌, [], ◌∷◌, IfSome, IfNone, None, true, false, not, nat_lt, length, map};
ghost use Rattle.xp_base.specs.declared.layout.TheConstants.{PARTS};
ghost use Rattle.xp_base.specs.History.{Answered};
ghost use Rattle.xp_protocol.specs.Acts.{due, due_to, current, partition_due, online_due, has_stored, all_gone, after_act, noted_act};
ghost use Rattle.xp_counts.specs.Counted.{AreCounted};
ghost use Rattle.xp_partner.specs.Partner.{peer_seen};
ghost use Rattle.xp_partition.specs.declared.life.Life.TheVariants.{Up};
ghost use Rattle.xp_partition.specs.Keeping.{state_of, IsKept};
ghost use Rattle.xp_partition.specs.Partners.{AreRoomy, AllHaveNotes, AllHaveNotesLeft, LeavesUntouched};
ghost use Rattle.xp_acts.specs.Acts.{Acts};
ghost use Rattle.xp_acts.specs.Becoming.{Becomes};
ghost use Rattle.xp_acts.specs.Commands.{CanAnswer};
ghost use Rattle.xp_acts.specs.Wanting.{has_left};

use crate::ends;
use xp_base::ids::PartId;
use xp_engage::area::{AreaState, PartnerState};
use xp_partition::keeping::Keeping;
use xp_partition::life::Life;
use xp_partition::partners::Partners;
use xp_partner::partner::Partner;
use xp_script::command::Command;
use xp_script::log::{LogAnswer, OnlineAnswer};

/// Answers the command in progress, where the partition is up and its answer is due.
pub fn answer(keeping: &mut Keeping) -> Option<LogAnswer>
    requires kept { IsKept keeping.old }
    requires counts { AreCounted (2 ^ 63) (state_of keeping.old) }
    requires room { AllHaveNotesLeft 1 keeping.old.partners }
    ensures value { keeping.old.life ≡ Up → result ≡ due keeping.old.part (state_of keeping.old) }
    ensures down { (keeping.old.life ≡ Up → ⊥) → result ≡ None }
    ensures some { IfSome result (λ a. Acts keeping.old keeping.new (Answered ∷ [])) }
    ensures none { IfNone result (keeping.new ≡ keeping.old) }
    ensures room { (notes : ℕ) → AllHaveNotes (notes + 1) keeping.old.partners →
        AllHaveNotes notes keeping.new.partners }
    ensures left { (notes : ℕ) → AllHaveNotesLeft (notes + 1) keeping.old.partners →
        AllHaveNotesLeft notes keeping.new.partners }
    ensures touched { LeavesUntouched keeping.old.partners keeping.new.partners }
    ensures roomy { AreRoomy keeping.old.partners → AreRoomy keeping.new.partners }
{
    if !may_answer(keeping) {
        return None;
    }
    let answer = give(keeping)?;
    keeping.script.answer();
    Some(answer)
}

// Whether the partition is up, and a command is in progress.
fn may_answer(keeping: &Keeping) -> bool
    ensures yes { result ≡ true → CanAnswer keeping.now }
    ensures no { result ≡ false → CanAnswer keeping.now → ⊥ }
{
    matches!(keeping.life, Life::Up) && keeping.script.is_doing()
}

// Gives the answer of the command that was begun last, where it is due.
fn give(keeping: &mut Keeping) -> Option<LogAnswer>
    requires kept { IsKept keeping.old }
    requires counts { AreCounted (2 ^ 63) (state_of keeping.old) }
    requires room { AllHaveNotesLeft 1 keeping.old.partners }
    ensures value { result ≡ due_to keeping.old.part (state_of keeping.old)
        (current keeping.old.part (state_of keeping.old)) }
    ensures none { IfNone result (keeping.new ≡ keeping.old) }
    ensures some { IfSome result (λ a. Becomes 1 keeping.old.partners
        (after_act keeping.old.part (state_of keeping.old) Answered).peers
        (noted_act keeping.old.part (state_of keeping.old) Answered) keeping.new.partners) }
    ensures rest { keeping.new ≡ record keeping.old { partners = keeping.new.partners } }
{
    let command = keeping.current()?;
    match ends::named_end(command) {
        Some(end) => {
            let verb = command.verb();
            ends::answer(&mut keeping.partners, end, verb)
        }
        None => partition_answer(keeping, command),
    }
}

// The answer of a command that names no end, where it is due.
fn partition_answer(keeping: &Keeping, command: &Command) -> Option<LogAnswer>
    requires kept { IsKept keeping.now }
    requires counts { AreCounted (2 ^ 63) (state_of keeping.now) }
    ensures { result ≡ partition_due keeping.now.part (state_of keeping.now) command.now }
{
    match command {
        Command::Deactivate { .. } => Some(LogAnswer::Deactivate),
        Command::Activate { .. } => Some(LogAnswer::Activate),
        Command::Leave if all_left(&keeping.partners, keeping.part.part) => Some(LogAnswer::Leave),
        Command::Idle { turns } if has_idled(keeping, *turns) => Some(LogAnswer::Idle),
        Command::Offline if has_stored(keeping) => Some(LogAnswer::Offline),
        Command::Online => online_answer(keeping),
        _ => None,
    }
}

// Whether the command in progress has stored the offline count.
fn has_stored(keeping: &Keeping) -> bool
    ensures { result ≡ has_stored (state_of keeping.now) }
{
    keeping.beat.has_stored(keeping.script.begun())
}

// The answer of `online`, where it is due.
fn online_answer(keeping: &Keeping) -> Option<LogAnswer>
    ensures { result
        ≡ online_due (has_stored (state_of keeping.now)) keeping.now.beat.offline }
{
    if has_stored(keeping) {
        Some(LogAnswer::Online(OnlineAnswer::Ok))
    } else if keeping.beat.is_offline() {
        None
    } else {
        Some(LogAnswer::Online(OnlineAnswer::NotOffline))
    }
}

// Whether so many turns have passed since the last command was begun.
fn has_idled(keeping: &Keeping, turns: u64) -> bool
    requires { keeping.now.clock.turns < 2 ^ 64 - 1 }
    ensures { result ≡ not (nat_lt keeping.now.clock.turns (keeping.now.script.since + turns)) }
{
    keeping.clock.turns() >= keeping.script.since().saturating_add(turns)
}

// Whether a partner isn't wanted, isn't active any more, and the own memory isn't open to it.
fn has_left(partner: &Partner) -> bool
    ensures { result ≡ has_left (peer_seen partner.now) }
{
    let standing = partner.standing();
    let is_off = matches!(standing.area(), AreaState::Off);
    let is_inactive = matches!(standing.state(), PartnerState::Inactive);
    !standing.is_wanted() && is_off && is_inactive
}

// Whether all partners of partition `own` have left.
#[tactic(auto, using(crate::proofs::Gone::leaving))]
fn all_left(partners: &Partners, own: PartId) -> bool
    requires { length partners.now.list ≤ PARTS }
    ensures { result ≡ all_gone own 0 (map peer_seen partners.now.list) }
{
    for number in 0..partners.len() {
        let number = PartId::known(number);
        if number != own && !has_left(partners.at(number)) {
            return false;
        }
    }
    true
}
