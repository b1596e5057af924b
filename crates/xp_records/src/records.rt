// What the records of every history that is reached say.
ghost use Rattle.std.specs.Prelude.{List};
ghost use Rattle.xp_base.specs.History.{Event};
ghost use Rattle.xp_base.specs.Memory.{Memory};
ghost use Rattle.xp_script.specs.declared.scenario.Scenario.{Scenario};
ghost use Rattle.xp_script.specs.Lawful.{IsLawful};
ghost use Rattle.xp_protocol.specs.Reached.{ReachedWords};
ghost use Rattle.xp_records.specs.Anew.{SidesAnew};
ghost use Rattle.xp_records.specs.Answers.{SendAnswers};
ghost use Rattle.xp_records.specs.Noticed.{DeliveredAcknowledged, NoticesRecorded};
ghost use Rattle.xp_records.specs.Promises.{Promises};

use xp_counts::laws::{boots_planned, plans_few};

/// Whatever history the rules reach in a lawful scenario: until an end sends the open
/// complete of an epoch both its sides are as new, and it sends it after both open requests.
/// So no send is in progress and nothing is copied where the open complete makes both sides
/// anew in the agreed limit.
pub fn sides_anew()
    ensures { (s : Scenario) → IsLawful s →
        (h : List Event) (m : Memory) → ReachedWords s h m → SidesAnew s h }
{}

/// Whatever history the rules reach in a lawful scenario: the numbers that the records of an end
/// have as delivered, and those that they have as ended, are exactly the notices that were given at
/// it, in their order, turn by turn; and a record has none as ended without the reason for which
/// its connection is over.
pub fn notices_recorded()
    ensures { (s : Scenario) → IsLawful s →
        (h : List Event) (m : Memory) → ReachedWords s h m → NoticesRecorded s h }
{}

/// Whatever history the rules reach in a lawful scenario: a number is told as delivered only once
/// the partner has acknowledged it, in each connection that ever was, however long it is over.
pub fn delivered_acknowledged()
    ensures { (s : Scenario) → IsLawful s →
        (h : List Event) (m : Memory) → ReachedWords s h m → DeliveredAcknowledged s h }
{}

/// Whatever history the rules reach in a lawful scenario: the log's entries of sends are those of
/// the sends of the turns, and each send that is answered is answered for the first cause that
/// holds over its steps: the payload is too long, the link closes or isn't connected, the queue is
/// full and the send may not wait, the link began to close, the message was accepted.
pub fn sends_answered()
    ensures { (s : Scenario) → IsLawful s →
        (h : List Event) (m : Memory) → ReachedWords s h m → SendAnswers s h }
{}

/// Whatever history the rules reach in a lawful scenario: all promises hold of it at once. In each
/// connection that ever was, the messages taken are a prefix of those that were accepted; entries
/// are reused only after an acknowledgement, and no channel memory is touched without the own
/// engagement bit there; sends are answered for their causes, notices are told once; and nothing
/// that was read is refused: no reason that refuses a word or a version stands at a partner or an
/// end, in a record or in an answer, and no partition halts. A partner is to be deactivated for a
/// missed heartbeat only by a check of it, and for the words that it read.
pub fn all_promised()
    ensures { (s : Scenario) → IsLawful s →
        (h : List Event) (m : Memory) → ReachedWords s h m → Promises s h m }
{
    boots_planned();
    plans_few();
}
