// The commands of the script to the ends of a partner, their answers, and the notices.
ghost use Rattle.std.specs.Prelude.{◌≡◌, ℕ, ◌+◌, ◌-◌, ◌<◌, ◌≤◌, ◌^◌, is_some, Some, None, true};
ghost use Rattle.xp_base.specs.History.{Delivered, Ended};
ghost use Rattle.xp_protocol.specs.Acts.{end_begun, due_by, notice_due};
ghost use Rattle.xp_channel.specs.Channel.{kept, called};
ghost use Rattle.xp_channel.specs.Room.{HasRoom, IsCountable};
ghost use Rattle.xp_channel.specs.Answering.{IsWellFormed, given, noticed};
ghost use Rattle.xp_partner.specs.Partner.{channel_of, with_channel};
ghost use Rattle.xp_partner.specs.Room.{HaveNotes, HaveNotesLeft};

use crate::partner::Partner;
use xp_base::ids::Channel;
use xp_script::command::Command;
use xp_script::log::{LogAnswer, Verb};

impl Partner {
    /// Begins a command of the script to the end of a channel. Its answer, where it is decided at
    /// once, is given by `answer_of`.
    #[tactic(auto, using(crate::proofs::Channels::putting))]
    pub fn begin(&mut self, channel: Channel, command: &Command)
        requires command { IsWellFormed command.now }
        requires room { HasRoom (channel_of self.old channel) }
        requires counts { IsCountable (channel_of self.old channel).end }
        ensures whole { self.new ≡ with_channel channel (channel_of self.new channel) self.old }
        ensures end { channel_of self.new channel ≡
            called (kept (end_begun (channel_of self.old channel).end command.now)
            (channel_of self.old channel)) (channel_of self.new channel) }
        ensures room { (notes : ℕ) → HaveNotes (notes + 1) self.old → HaveNotes notes self.new }
        ensures left { (notes : ℕ) → HaveNotesLeft (notes + 1) self.old →
            HaveNotesLeft notes self.new }
    {
        let end = &mut self.ends[channel.get() as usize];
        end.begin(command);
    }

    /// Gives the answer of a command of a kind at the end of a channel, where it is due.
    #[tactic(auto, using(crate::proofs::Channels::putting))]
    pub fn answer_of(&mut self, channel: Channel, verb: Verb) -> Option<LogAnswer>
        requires counts { IsCountable (channel_of self.old channel).end }
        requires room { HasRoom (channel_of self.old channel) }
        ensures answer { result ≡ due_by verb (channel_of self.old channel).end }
        ensures none { result ≡ None → self.new ≡ self.old }
        ensures whole { self.new ≡ with_channel channel (channel_of self.new channel) self.old }
        ensures end { channel_of self.new channel ≡
            called (kept (given verb (channel_of self.old channel).end)
            (channel_of self.old channel)) (channel_of self.new channel) }
        ensures room { (notes : ℕ) → HaveNotes (notes + 1) self.old → HaveNotes notes self.new }
        ensures left { (notes : ℕ) → HaveNotesLeft (notes + 1) self.old →
            HaveNotesLeft notes self.new }
    {
        let end = &mut self.ends[channel.get() as usize];
        end.answer_of(verb)
    }

    /// Whether the answer of a command of a kind at the end of a channel is due.
    pub fn is_due(&self, channel: Channel, verb: Verb) -> bool
        ensures { result ≡ is_some (due_by verb (channel_of self.now channel).end) }
    {
        self.ends[channel.get() as usize].is_due(verb)
    }

    /// Gives the notice of the lowest number of a channel whose delivery is known, where there is
    /// one.
    #[tactic(auto, using(crate::proofs::Channels::putting))]
    pub fn deliver(&mut self, channel: Channel) -> Option<u64>
        requires { HasRoom (channel_of self.old channel) }
        ensures value { result ≡ notice_due Delivered (channel_of self.old channel).end }
        ensures none { result ≡ None → self.new ≡ self.old }
        ensures whole { self.new ≡ with_channel channel (channel_of self.new channel) self.old }
        ensures end { channel_of self.new channel ≡
            called (kept (noticed Delivered (channel_of self.old channel).end)
            (channel_of self.old channel)) (channel_of self.new channel) }
        ensures calls { (channel_of self.old channel).room.calls
            ≤ (channel_of self.new channel).room.calls + 1 }
        ensures room { (notes : ℕ) → HaveNotes (notes + 1) self.old → HaveNotes notes self.new }
        ensures left { (notes : ℕ) → HaveNotesLeft (notes + 1) self.old →
            HaveNotesLeft notes self.new }
    {
        let end = &mut self.ends[channel.get() as usize];
        end.deliver()
    }

    /// Gives the notice of the lowest number of a channel whose connection ended, where there is
    /// one. It takes no room.
    #[tactic(auto, using(crate::proofs::Channels::noticing))]
    pub fn end_notice(&mut self, channel: Channel) -> Option<u64>
        ensures value { result ≡ notice_due Ended (channel_of self.old channel).end }
        ensures none { result ≡ None → self.new ≡ self.old }
        ensures whole { self.new ≡ with_channel channel (channel_of self.new channel) self.old }
        ensures end { channel_of self.new channel ≡
            kept (noticed Ended (channel_of self.old channel).end) (channel_of self.old channel) }
        ensures room { (notes : ℕ) → HaveNotes notes self.old → HaveNotes notes self.new }
        ensures left { (notes : ℕ) → HaveNotesLeft notes self.old → HaveNotesLeft notes self.new }
    {
        let end = &mut self.ends[channel.get() as usize];
        end.end_notice()
    }
}
