// Why a take is refused: an answer that is decided before it is given holds no message, so that an
// end stays small.
ghost use Rattle.std.specs.Prelude.{◌≡◌};
ghost use Rattle.xp_protocol.specs.Pulling.{refused_take};

use xp_base::answer::TakeAnswer;
use xp_base::reason::Reason;

/// Why a take is refused.
#[derive(Clone, Copy)]
pub enum TakeRefusal {
    /// The link goes down for this reason.
    Disconnecting { reason: Reason },
    /// There is no connection.
    NotConnected,
}

impl TakeRefusal {
    /// The answer of the take.
    pub fn answer(self) -> TakeAnswer
        ensures { result ≡ refused_take self }
    {
        match self {
            TakeRefusal::Disconnecting { reason } => TakeAnswer::Disconnecting { reason },
            TakeRefusal::NotConnected => TakeAnswer::NotConnected,
        }
    }
}
