// All that the answer of a step leaves.
ghost use Rattle.std.specs.Prelude.{◌≡◌, ◌≢◌, ℕ, ◌+◌, ◌<◌};
ghost use Rattle.xp_base.specs.declared.layout.TheConstants.{CHANNELS};
ghost use Rattle.xp_protocol.specs.Effects.{with_notes};
ghost use Rattle.xp_protocol.specs.Rules.{mark_of, after_answer, noted_rule};
ghost use Rattle.xp_channel.specs.Planned.{MayFail};
ghost use Rattle.xp_partition.specs.Keeping.{state_of, records_at, IsKept};
ghost use Rattle.xp_partition.specs.Partners.{AreRoomy, AllHaveNotes, AllHaveNotesLeft, LeavesUntouched};
ghost use Rattle.xp_steps.specs.Stepping.{CanStep, IsStepped};

use crate::{booting, linking, owning, peering};
use xp_base::ids::{Channel, PartId};
use xp_base::step::{Answer, CopyMark};
use xp_partition::keeping::Keeping;
use xp_partition::life::Life;
use xp_protocol::rule::{OwnRule, PeerRule, Rule};

/// The step of a rule has answered, which was wanted with this mark: all that becomes of what the
/// partition keeps.
#[tactic(auto, using(crate::proofs::Stepped::stepped))]
pub fn step(keeping: &mut Keeping, rule: Rule, mark: Option<CopyMark>, answer: Answer)
    requires can { CanStep keeping.old rule }
    requires mark { mark ≡ mark_of keeping.old.part (state_of keeping.old) rule }
    requires load { MayFail mark answer }
    requires room { AllHaveNotes 1 keeping.old.partners }
    ensures state { state_of keeping.new
        ≡ after_answer keeping.old.part (state_of keeping.old) rule answer }
    ensures records { (q c : ℕ) → q < keeping.old.part.count → c < CHANNELS →
        records_at keeping.new q c ≡ with_notes q c
        (noted_rule keeping.old.part (state_of keeping.old) rule answer q c)
        (records_at keeping.old q c) }
    ensures part { keeping.new.part ≡ keeping.old.part }
    ensures kept { IsKept keeping.new }
    ensures left { (notes : ℕ) → AllHaveNotes (notes + 1) keeping.old.partners
        → AllHaveNotesLeft notes keeping.new.partners }
    ensures roomy { AreRoomy keeping.old.partners → AreRoomy keeping.new.partners }
    ensures untouched { LeavesUntouched keeping.old.partners keeping.new.partners }
{
    follow(keeping, rule, mark, answer);
}

// The step of a rule has answered: its end, its partner or its partition takes the answer.
#[tactic(auto, using(crate::proofs::Stepped::following))]
fn follow(keeping: &mut Keeping, rule: Rule, mark: Option<CopyMark>, answer: Answer)
    requires can { CanStep keeping.old rule }
    requires mark { mark ≡ mark_of keeping.old.part (state_of keeping.old) rule }
    requires load { MayFail mark answer }
    requires room { AllHaveNotes 1 keeping.old.partners }
    ensures { IsStepped keeping.old rule answer keeping.new }
{
    match rule {
        Rule::Link(number, channel, rule) => {
            let number = PartId::known(number);
            linking::step(keeping, number, Channel::known(channel), rule, mark, answer);
        }
        Rule::Peer(number, rule) => follow_peer(keeping, PartId::known(number), rule, mark, answer),
        Rule::Own(rule) => follow_own(keeping, rule, mark, answer),
    }
}

// A step for a partner, in a boot or after it.
#[tactic(auto, using(crate::proofs::Stepped::following))]
fn follow_peer(
    keeping: &mut Keeping,
    number: PartId,
    rule: PeerRule,
    mark: Option<CopyMark>,
    answer: Answer,
)
    requires can { CanStep keeping.old (Rule.Peer number rule) }
    requires mark { mark ≡
        mark_of keeping.old.part (state_of keeping.old) (Rule.Peer number rule) }
    requires load { MayFail mark answer }
    requires room { AllHaveNotes 1 keeping.old.partners }
    ensures { IsStepped keeping.old (Rule.Peer number rule) answer keeping.new }
{
    match keeping.life {
        Life::Booting => booting::clear(keeping, number, rule, word_of(answer)),
        Life::Up => peering::step(keeping, number, rule, mark, answer),
        Life::Halted { .. } => unreachable!(),
    }
}

// A step for the partition, in a boot or after it.
#[tactic(auto, using(crate::proofs::Stepped::following))]
fn follow_own(keeping: &mut Keeping, rule: OwnRule, mark: Option<CopyMark>, answer: Answer)
    requires can { CanStep keeping.old (Rule.Own rule) }
    requires mark { mark ≡ mark_of keeping.old.part (state_of keeping.old) (Rule.Own rule) }
    requires load { MayFail mark answer }
    ensures { IsStepped keeping.old (Rule.Own rule) answer keeping.new }
{
    let word = word_of(answer);
    match keeping.life {
        Life::Booting => booting::step(keeping, rule, word),
        Life::Up => owning::step(keeping, rule, word),
        Life::Halted { .. } => unreachable!(),
    }
}

// The word of an answer that is one.
fn word_of(answer: Answer) -> u64
    requires { answer ≢ Answer.Failed }
    ensures { answer ≡ Answer.Word result }
{
    match answer {
        Answer::Word(word) => word,
        Answer::Failed => unreachable!(),
    }
}
