// The errands of an agenda, in their order, and their quotas.
ghost use Rattle.std.specs.Prelude.{◌≡◌, ◌<◌, ◌≤◌, IfSome, IsSome, slice_get};
ghost use Rattle.xp_rounds.specs.declared.rounds.TheConstants.{VISIT_TURNS};
ghost use Rattle.xp_plan.specs.Plan.{errands_of, quota as quota_of, IsErrand};

use xp_plan::errand::{Agenda, Errand};
use xp_rounds::rounds::VISIT_TURNS;

// How many errands an agenda has at most.
pub const ERRANDS: u8 = 13;

// An errand of an agenda, by its place there.
pub fn errand_at(agenda: Agenda, at: u8) -> Option<Errand>
    ensures value { result ≡ slice_get (errands_of agenda) at }
    ensures errand { IfSome result IsErrand }
    ensures few { IsSome result → at < ERRANDS }
{
    match agenda {
        Agenda::Boot => { if at == 0 { Some(Errand::Boot) } else { None } }
        Agenda::Own => own_errand(at),
        Agenda::Apart => apart_errand(at),
        Agenda::Joined => joined_errand(at),
    }
}

fn own_errand(at: u8) -> Option<Errand>
    ensures value { result ≡ slice_get (errands_of Agenda.Own) at }
    ensures errand { IfSome result IsErrand }
    ensures few { IsSome result → at < ERRANDS }
{
    match at {
        0 => Some(Errand::Beat),
        1 => Some(Errand::Mask),
        2 => Some(Errand::Activations),
        3 => Some(Errand::Deactivations),
        4 => Some(Errand::Engagements),
        5 => Some(Errand::Script),
        _ => None,
    }
}

fn apart_errand(at: u8) -> Option<Errand>
    ensures value { result ≡ slice_get (errands_of Agenda.Apart) at }
    ensures errand { IfSome result IsErrand }
    ensures few { IsSome result → at < ERRANDS }
{
    match at {
        0 => Some(Errand::Look),
        1 => Some(Errand::Prepare),
        2 => Some(Errand::Engage),
        3 | 5 => Some(Errand::Answer),
        4 => Some(Errand::Record),
        6 => Some(Errand::Leave),
        7 => Some(Errand::Bulk),
        _ => None,
    }
}

fn joined_errand(at: u8) -> Option<Errand>
    ensures value { result ≡ slice_get (errands_of Agenda.Joined) at }
    ensures errand { IfSome result IsErrand }
    ensures few { IsSome result → at < ERRANDS }
{
    match at {
        0 => Some(Errand::Look),
        1 => Some(Errand::Flags),
        2 => Some(Errand::Check),
        3 => Some(Errand::Signal(0)),
        4 => Some(Errand::Signal(1)),
        5 => Some(Errand::Signal(2)),
        6 => Some(Errand::Signal(3)),
        7 => Some(Errand::Counters(0)),
        8 => Some(Errand::Counters(1)),
        9 => Some(Errand::Counters(2)),
        10 => Some(Errand::Counters(3)),
        11 => Some(Errand::Bulk),
        12 => Some(Errand::Leave),
        _ => None,
    }
}

// How many turns of a visit an errand may take.
pub fn quota(errand: Errand) -> u8
    ensures value { result ≡ quota_of errand }
    ensures range { result ≤ VISIT_TURNS }
{
    match errand {
        Errand::Beat
        | Errand::Mask
        | Errand::Activations
        | Errand::Deactivations
        | Errand::Engagements
        | Errand::Flags => 1,
        Errand::Engage | Errand::Answer => 2,
        Errand::Check | Errand::Counters(_) | Errand::Leave => 3,
        Errand::Look => 5,
        Errand::Signal(_) => 9,
        Errand::Record => 15,
        Errand::Bulk => 24,
        Errand::Prepare => 35,
        Errand::Script => 90,
        Errand::Boot => VISIT_TURNS,
    }
}
