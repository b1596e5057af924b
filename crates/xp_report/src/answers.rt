// The answers of commands.
ghost use Rattle.std.specs.Prelude.{◌≡◌};
ghost use Rattle.xp_report.specs.Lines.{Appends};
ghost use Rattle.xp_report.specs.Answers.{register_text, unregister_text, online_text, disconnecting_text, send_text, taken_text, take_text, release_text, drain_text, given_text, answer_text};

use crate::device::write_transmit_answer;
use std::alloc::AllocError;
use xp_base::answer::{
    DrainAnswer, RegisterAnswer, ReleaseAnswer, SendAnswer, TakeAnswer, UnregisterAnswer,
};
use xp_base::body::Body;
use xp_base::reason::Reason;
use xp_base::show::write_payload;
use xp_script::log::{LogAnswer, OnlineAnswer};

fn register_word(answer: RegisterAnswer) -> &'static str
    ensures { result.now ≡ register_text answer }
{
    match answer {
        RegisterAnswer::Ok => "ok",
        RegisterAnswer::Already => "already",
    }
}

fn unregister_word(answer: UnregisterAnswer) -> &'static str
    ensures { result.now ≡ unregister_text answer }
{
    match answer {
        UnregisterAnswer::Ok => "ok",
        UnregisterAnswer::NotRegistered => "not-registered",
    }
}

fn online_word(answer: OnlineAnswer) -> &'static str
    ensures { result.now ≡ online_text answer }
{
    match answer {
        OnlineAnswer::Ok => "ok",
        OnlineAnswer::NotOffline => "not-offline",
    }
}

#[tactic(auto, unfolding(crate::specs::Answers::disconnecting_text))]
fn write_disconnecting(out: &mut String, reason: Reason) -> Result<(), AllocError>
    ensures { Appends result out.old out.new (disconnecting_text reason) }
{
    write!(out, "disconnecting {reason}")
}

#[tactic(auto, unfolding(crate::specs::Answers::send_text))]
fn write_send_answer(out: &mut String, answer: &SendAnswer) -> Result<(), AllocError>
    ensures { Appends result out.old out.new (send_text answer.now) }
{
    match answer {
        SendAnswer::Ok(number) => write!(out, "ok {number}"),
        SendAnswer::TooBig { length, limit } => write!(out, "too-big {length} {limit}"),
        SendAnswer::Disconnecting { reason } => write_disconnecting(out, *reason),
        SendAnswer::NotConnected => out.push_str("not-connected"),
        SendAnswer::NoSlot { put, get } => write!(out, "no-slot {put} {get}"),
    }
}

fn write_taken(out: &mut String, number: u64, body: &Body) -> Result<(), AllocError>
    ensures { Appends result out.old out.new (taken_text number body.now) }
{
    write!(out, "ok {number} ")?;
    write_payload(out, body.bytes())
}

#[tactic(auto, unfolding(crate::specs::Answers::take_text))]
fn write_take_answer(out: &mut String, answer: &TakeAnswer) -> Result<(), AllocError>
    ensures { Appends result out.old out.new (take_text answer.now) }
{
    match answer {
        TakeAnswer::Taken { number, body } => write_taken(out, *number, body),
        TakeAnswer::Empty { put } => write!(out, "empty {put}"),
        TakeAnswer::Disconnecting { reason } => write_disconnecting(out, *reason),
        TakeAnswer::NotConnected => out.push_str("not-connected"),
    }
}

#[tactic(auto, unfolding(crate::specs::Answers::release_text))]
fn write_release_answer(out: &mut String, answer: &ReleaseAnswer) -> Result<(), AllocError>
    ensures { Appends result out.old out.new (release_text answer.now) }
{
    match answer {
        ReleaseAnswer::Ok { front } => write!(out, "ok {front}"),
        ReleaseAnswer::NotHeld => out.push_str("not-held"),
        ReleaseAnswer::NotConnected => out.push_str("not-connected"),
    }
}

#[tactic(auto, unfolding(crate::specs::Answers::drain_text))]
fn write_drain_answer(out: &mut String, answer: &DrainAnswer) -> Result<(), AllocError>
    ensures { Appends result out.old out.new (drain_text answer.now) }
{
    match answer {
        DrainAnswer::Ok => out.push_str("ok"),
        DrainAnswer::Disconnecting { reason } => write_disconnecting(out, *reason),
        DrainAnswer::NotConnected => out.push_str("not-connected"),
    }
}

fn write_given(out: &mut String, answer: &LogAnswer) -> Result<(), AllocError>
    ensures { Appends result out.old out.new (given_text answer.now) }
{
    match answer {
        LogAnswer::Register(answer) => out.push_str(register_word(*answer)),
        LogAnswer::Unregister(answer) => out.push_str(unregister_word(*answer)),
        LogAnswer::Closed(reason) => write!(out, "{reason}"),
        LogAnswer::Send(answer) => write_send_answer(out, answer),
        LogAnswer::Take(answer) => write_take_answer(out, answer),
        LogAnswer::Release(answer) => write_release_answer(out, answer),
        LogAnswer::Drain(answer) => write_drain_answer(out, answer),
        LogAnswer::Net(answer) => write_transmit_answer(out, answer),
        LogAnswer::Online(answer) => out.push_str(online_word(*answer)),
        LogAnswer::Connected
        | LogAnswer::Frames
        | LogAnswer::Deactivate
        | LogAnswer::Activate
        | LogAnswer::Leave
        | LogAnswer::Idle
        | LogAnswer::Offline => out.push_str("ok"),
    }
}

/// Writes the answer of a command, where it has one.
pub fn write_answer(out: &mut String, answer: &Option<LogAnswer>) -> Result<(), AllocError>
    ensures { Appends result out.old out.new (answer_text answer.now) }
{
    match answer {
        None => out.push_str("unanswered"),
        Some(answer) => write_given(out, answer),
    }
}
