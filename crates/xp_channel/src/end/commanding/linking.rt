// Commands to one end by themselves: they are begun and answered, and the end knows which wait.
ghost use Rattle.std.specs.Prelude.{◌≡◌, ◌+◌, ◌-◌, ◌<◌, ◌≤◌, ◌^◌, ◌↔◌, not, is_some, Some, None, true, false};
ghost use Rattle.xp_protocol.specs.Acts.{end_begun, due_by};
ghost use Rattle.xp_channel.specs.Channel.{kept, called};
ghost use Rattle.xp_channel.specs.Room.{HasRoom, IsCountable};
ghost use Rattle.xp_channel.specs.Answering.{IsWellFormed, given};
ghost use Rattle.xp_channel.specs.Linked.{command_of, verb_of_link, linked};
ghost use Rattle.xp_channel.specs.Waiting.{waited, is_answerable, first_due, answer_by, answered_by};

use crate::commands::{LinkAnswer, LinkCommand, link_answer};
use crate::end::ChannelEnd;
use xp_protocol::contact::Size;
use xp_script::log::Verb;

impl ChannelEnd {
    /// Begins a command, and gives its answer where that is due at once; else the command is in
    /// progress. Commands of different kinds may be in progress beside each other; one that is
    /// begun takes the place of one of its kind.
    pub fn command(&mut self, command: LinkCommand<'_>) -> Option<LinkAnswer>
        requires command { IsWellFormed (command_of self.old.partner self.old.channel command) }
        requires room { HasRoom self.old }
        requires calls { self.old.end.shake.sent.open_complete ≡ true → 1 < self.old.room.calls }
        requires counts { IsCountable self.old.end }
        ensures answer { let f = end_begun self.old.end
            (command_of self.old.partner self.old.channel command.entry) in
            result ≡ linked (due_by (verb_of_link command.entry) f.local) }
        ensures end { let f = end_begun self.old.end
            (command_of self.old.partner self.old.channel command.entry) in
            let verb = verb_of_link command.entry in
            let waits = not (is_some (due_by verb f.local)) in
            let answered = kept (given verb f.local) (kept f self.old) in
            self.new ≡ called (waited verb waits answered) self.new }
        ensures calls { self.old.room.calls ≤ self.new.room.calls + 2 }
    {
        self.begin_link(command);
        let verb = command.verb();
        let answer = self.answer_of(verb);
        self.wait_for(verb, answer.is_none());
        link_answer(answer)
    }

    /// Gives an answer of a command in progress that is due, in the order of the commands; None
    /// where none is. Each is given once.
    pub fn answer(&mut self) -> Option<LinkAnswer>
        requires room { HasRoom self.old }
        requires counts { IsCountable self.old.end }
        ensures answer { result ≡ linked (answer_by (first_due self.old) self.old) }
        ensures end { self.new ≡ called (answered_by (first_due self.old) self.old) self.new }
        ensures calls { self.old.room.calls ≤ self.new.room.calls + 1 }
    {
        let verb = self.first_due()?;
        let answer = self.answer_of(verb);
        self.wait_for(verb, false);
        link_answer(answer)
    }

    // Begins a command.
    fn begin_link(&mut self, command: LinkCommand<'_>)
        requires command { IsWellFormed (command_of self.old.partner self.old.channel command) }
        requires room { HasRoom self.old }
        requires counts { IsCountable self.old.end }
        ensures end { self.new ≡
            called (kept (end_begun self.old.end
            (command_of self.old.partner self.old.channel command.entry)) self.old) self.new }
        ensures calls { self.old.room.calls ≤ self.new.room.calls + 1 }
        ensures sent { self.new.end.shake.sent ≡ self.old.end.shake.sent }
    {
        match command {
            LinkCommand::Register { entries, limit } => {
                self.begin_register(Size { entries, limit })
            }
            LinkCommand::Unregister => self.begin_unregister(),
            LinkCommand::Connected => {}
            LinkCommand::Closed => self.closed_asked += 1,
            LinkCommand::Send {
                payload,
                wait,
                notify,
            } => self.begin_send(payload, wait, notify),
            LinkCommand::Take { wait } => self.begin_take(wait),
            LinkCommand::Release { number } => self.begin_release(number),
            LinkCommand::Drain => self.begin_drain(),
        }
    }

    // A wait for a connection, or for the end of one, is in progress or isn't.
    fn wait_for(&mut self, verb: Verb, waits: bool)
        ensures { self.new ≡ waited verb waits self.old }
    {
        match verb {
            Verb::Connected => self.waiting.connected = waits,
            Verb::Closed => self.waiting.closed = waits,
            _ => {}
        }
    }

    // The first command in progress whose answer is due.
    fn first_due(&self) -> Option<Verb>
        ensures { result ≡ first_due self.now }
    {
        if self.is_due(Verb::Register) {
            Some(Verb::Register)
        } else if self.is_due(Verb::Unregister) {
            Some(Verb::Unregister)
        } else if self.waiting.connected && self.is_due(Verb::Connected) {
            Some(Verb::Connected)
        } else if self.waiting.closed && self.is_due(Verb::Closed) {
            Some(Verb::Closed)
        } else if self.is_due(Verb::Send) {
            Some(Verb::Send)
        } else if self.is_due(Verb::Take) {
            Some(Verb::Take)
        } else if self.is_due(Verb::Release) {
            Some(Verb::Release)
        } else if self.is_due(Verb::Drain) {
            Some(Verb::Drain)
        } else {
            None
        }
    }
}
