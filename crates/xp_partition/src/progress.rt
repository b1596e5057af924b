// How far the script of a boot has come.
ghost use Rattle.std.specs.Prelude.{◌≡◌, ℕ, ◌+◌, ◌-◌, ◌<◌, ◌^◌, false};
ghost use Rattle.xp_base.specs.History.{Begun, Answered};
ghost use Rattle.xp_protocol.specs.Acts.{script_acted};

use std::marker::Model;

/// How far the script of a boot has come: how many commands were begun, whether the last of them is
/// in progress, and after how many turns it was begun.
#[derive(Drop)]
pub struct Progress {
    begun: u64,
    doing: bool,
    since: u64,
}

impl Model for Progress {
    ghost use Rattle.xp_protocol.specs.State.{Script};

    ghost Value = { Script };

    ghost view = { λ x. record { begun = x.begun; doing = x.doing; since = x.since } };
}

impl Progress {
    /// No command was begun.
    pub fn new() -> Progress
        ensures { result ≡ record { begun = 0; doing = false; since = 0 } }
    {
        Progress {
            begun: 0,
            doing: false,
            since: 0,
        }
    }

    /// How many commands were begun.
    pub fn begun(&self) -> u64
        ensures { result ≡ self.now.begun }
    {
        self.begun
    }

    /// Whether a command is in progress: the one that was begun last.
    pub fn is_doing(&self) -> bool
        ensures { result ≡ self.now.doing }
    {
        self.doing
    }

    /// After how many turns the last command was begun.
    pub fn since(&self) -> u64
        ensures { result ≡ self.now.since }
    {
        self.since
    }

    /// The next command is begun, after so many turns.
    pub fn begin(&mut self, turns: u64)
        requires { self.old.begun < 2 ^ 64 - 1 }
        ensures { self.new ≡ script_acted Begun turns self.old }
    {
        self.begun += 1;
        self.doing = true;
        self.since = turns;
    }

    /// The command in progress is answered.
    pub fn answer(&mut self)
        ensures { (turns : ℕ) → self.new ≡ script_acted Answered turns self.old }
    {
        self.doing = false;
    }
}
