// What a step counts: a copy that is begun, and a message that is put; and the numbers of copies.
ghost use Rattle.std.specs.Prelude.{◌≡◌, ℕ, ◌-◌, ◌<◌, ◌^◌};
ghost use Rattle.xp_base.specs.declared.step.CopyKind.{CopyKind};
ghost use Rattle.xp_protocol.specs.declared.rule.Rule.TheVariants.{Link};
ghost use Rattle.xp_protocol.specs.Rules.{begun_of, puts_after};
ghost use Rattle.xp_steps.specs.Counting.{counted_by, numbered_by};

use xp_base::step::{Answer, CopyMark};
use xp_partition::clock::Clock;
use xp_protocol::rule::{LinkRule, RingRule};

/// The mark of a copy with its number; `going` is that of the copy of this kind that goes on.
pub fn numbered(mark: CopyMark, clock: &Clock, going: u64) -> CopyMark
    requires { begun_of mark.kind clock.now.copies < 2 ^ 64 - 1 }
    ensures { result ≡ numbered_by mark going clock.now.copies }
{
    let number = if mark.word == 0 {
        clock.copies(mark.kind) + 1
    } else {
        going
    };
    CopyMark { number, ..mark }
}

/// A copy is counted where its first word is loaded.
pub fn count_copy(clock: &mut Clock, mark: Option<CopyMark>)
    requires { (kind : CopyKind) → begun_of kind clock.old.copies < 2 ^ 64 - 1 }
    ensures { clock.new ≡ record clock.old { copies = counted_by mark clock.old.copies } }
{
    if let Some(mark) = mark {
        if mark.word == 0 {
            clock.count_copy(mark.kind);
        }
    }
}

/// A message is counted where the store of put has answered.
pub fn count_put(clock: &mut Clock, rule: LinkRule, answer: Answer)
    requires { clock.old.puts < 2 ^ 64 - 1 }
    ensures { (q c : ℕ) → clock.new ≡
        record clock.old { puts = puts_after (Link q c rule) answer clock.old.puts } }
{
    let Answer::Word(_) = answer else {
        return;
    };
    match rule {
        LinkRule::Ring(RingRule::AcceptMessage) => clock.count_put(),
        LinkRule::Ring(RingRule::ReadGet)
        | LinkRule::Ring(RingRule::WriteEntryWord(_))
        | LinkRule::Pull(_)
        | LinkRule::Acknowledge
        | LinkRule::SetFlag(_)
        | LinkRule::ZeroGet
        | LinkRule::ZeroPut
        | LinkRule::StoreArgument(_)
        | LinkRule::ReadArgument(_) => {}
    }
}
