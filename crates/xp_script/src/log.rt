// The log: the commands that were begun, and their answers.
ghost use Rattle.std.specs.Prelude.{Some};
ghost use Rattle.xp_script.specs.Commands.{verb_text};

use std::fmt;
use xp_base::answer::{
    DrainAnswer, RegisterAnswer, ReleaseAnswer, SendAnswer, TakeAnswer, TransmitAnswer,
    UnregisterAnswer,
};
use xp_base::reason::Reason;

/// The word of a command, as scenarios and reports spell it.
#[derive(Clone, Copy)]
pub enum Verb {
    Register,
    Unregister,
    Connected,
    Closed,
    Send,
    Take,
    Release,
    Drain,
    Net,
    Frames,
    Deactivate,
    Activate,
    Leave,
    Idle,
    Offline,
    Online,
}

impl fmt::Display for Verb {
    ghost output = { λ v. Some (verb_text v) };

    fn fmt<W: fmt::Write>(&self, f: &mut fmt::Formatter<W>) -> fmt::Result {
        f.write_str(match self {
            Verb::Register => "register",
            Verb::Unregister => "unregister",
            Verb::Connected => "connected",
            Verb::Closed => "closed",
            Verb::Send => "send",
            Verb::Take => "take",
            Verb::Release => "release",
            Verb::Drain => "drain",
            Verb::Net => "net",
            Verb::Frames => "frames",
            Verb::Deactivate => "deactivate",
            Verb::Activate => "activate",
            Verb::Leave => "leave",
            Verb::Idle => "idle",
            Verb::Offline => "offline",
            Verb::Online => "online",
        })
    }
}

/// The answer of `online`.
#[derive(Clone, Copy)]
pub enum OnlineAnswer {
    /// The lowered offline count was stored.
    Ok,
    /// The offline count was 0.
    NotOffline,
}

/// The answer of a command. Those without fields are `ok`.
#[derive(Drop)]
pub enum LogAnswer {
    Register(RegisterAnswer),
    Unregister(UnregisterAnswer),
    /// The channel is connected.
    Connected,
    /// Why the connection ended.
    Closed(Reason),
    Send(SendAnswer),
    Take(TakeAnswer),
    Release(ReleaseAnswer),
    Drain(DrainAnswer),
    Net(TransmitAnswer),
    /// As many frames were handed up as the command waits for.
    Frames,
    Deactivate,
    Activate,
    /// Every partner was deactivated, is inactive, and its area is off.
    Leave,
    /// The turns have passed.
    Idle,
    /// The raised offline count was stored.
    Offline,
    Online(OnlineAnswer),
}

/// A command that was begun.
#[derive(Drop)]
pub struct Entry {
    /// The boot that began the command, from 1.
    pub boot: u8,
    /// The command's number in the script of that boot, from 1.
    pub number: u32,
    pub verb: Verb,
    /// The command's answer, where it has one.
    pub answer: Option<LogAnswer>,
}
