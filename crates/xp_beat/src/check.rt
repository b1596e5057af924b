// What a check of a partner's heartbeat shows.
ghost use Rattle.std.specs.Prelude.{◌≡◌, ◌↔◌};
ghost use Rattle.xp_beat.specs.Checking.{beat_answer, answer_reason, HasBeat};

use xp_base::ids::PartId;
use xp_base::masks::contains;
use xp_base::reason::Reason;

/// What a check shows.
#[derive(Clone, Copy)]
pub enum BeatAnswer {
    /// The partner's heartbeat is for this partition, and it goes on or the partner is offline.
    Alive,
    /// It isn't: the count of the last check, 0 where there was none in this contact, and the count
    /// and the mask of this one.
    NoHeartbeat { last: u64, now: u64, mask: u64 },
}

impl BeatAnswer {
    /// The reason to deactivate the partner, where there is one.
    pub fn reason(self) -> Option<Reason>
        ensures { result ≡ answer_reason self }
    {
        match self {
            BeatAnswer::Alive => None,
            BeatAnswer::NoHeartbeat { last, now, mask } => Some(Reason::NoHeartbeat {
                last,
                now,
                mask,
            }),
        }
    }
}

/// What a check by partition `own` shows: `last` is the count of the last check in this contact,
/// and the others are the words that were read. The driver tests a remote heartbeat in the same way
/// (`xpc_get_remote_heartbeat_sn2`).
#[tactic(auto, using(crate::proofs::Checking::checking))]
pub fn check(own: PartId, last: Option<u64>, now: u64, mask: u64, offline: u64) -> BeatAnswer
    ensures value { result ≡ beat_answer own last now mask offline }
    ensures alive { result ≡ BeatAnswer.Alive ↔ HasBeat own last now mask offline }
{
    let is_last = match last {
        Some(last) => last == now,
        None => false,
    };
    if !contains(mask, own) || offline == 0 && is_last {
        BeatAnswer::NoHeartbeat {
            last: last.unwrap_or(0),
            now,
            mask,
        }
    } else {
        BeatAnswer::Alive
    }
}
