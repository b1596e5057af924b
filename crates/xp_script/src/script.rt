// Scripts: the commands of each boot of each partition.
ghost use Rattle.std.specs.Prelude.{◌≡◌, ◌<◌, length, slice_get, Some, IfOk};
ghost use Rattle.std.specs.Option.{option_copied};

use crate::command::Command;
use std::alloc::{AllocError, Global};
use std::marker::Model;

/// The commands of one boot, in their order. Contracts see the list of them.
#[derive(Drop)]
pub struct Script {
    pub commands: Vec<Command>,
}

impl Model for Script {
    ghost use Rattle.std.specs.Prelude.{List};
    ghost use Rattle.xp_script.specs.declared.command.Command.{Command};

    ghost Value = { List Command };

    ghost view = { λ s. s.commands.items };
}

impl Script {
    /// The script of some commands.
    pub fn new(commands: Vec<Command>) -> Script
        ensures { result ≡ commands.items }
    {
        Script { commands }
    }

    /// How many commands there are.
    pub fn len(&self) -> usize
        ensures { result ≡ length self.now }
    {
        self.commands.len()
    }

    /// The command of a place, from 0.
    pub fn at(&self, place: usize) -> &Command
        requires { place < length self.now }
        ensures { slice_get self.now place ≡ Some result.now }
    {
        &self.commands[place]
    }

    /// The command of a place, from 0, where there is one.
    pub fn get(&self, place: u64) -> Option<&Command>
        ensures { option_copied result ≡ slice_get self.now place }
    {
        self.commands.get(place as usize)
    }

    /// Another script of the same commands.
    pub fn copy(&self, alloc: Global) -> Result<Script, AllocError>
        ensures { IfOk result (λ script. script ≡ self.now) }
    {
        let mut commands = Vec::new(alloc);
        for command in &self.commands {
            commands.push(command.copy(alloc)?)?;
        }
        Ok(Script { commands })
    }
}

/// The scripts of a partition, one for each boot. A boot without one has no commands. Contracts see
/// the list of them.
#[derive(Drop)]
pub struct Boots {
    pub list: Vec<Script>,
}

impl Model for Boots {
    ghost use Rattle.std.specs.Prelude.{List};
    ghost use Rattle.xp_script.specs.declared.command.Command.{Command};

    ghost Value = { List (List Command) };

    ghost view = { λ b. b.list.items };
}

impl Boots {
    /// Other boots of the same scripts.
    pub fn copy(&self, alloc: Global) -> Result<Boots, AllocError>
        ensures { IfOk result (λ boots. boots ≡ self.now) }
    {
        let mut list = Vec::new(alloc);
        for script in &self.list {
            list.push(script.copy(alloc)?)?;
        }
        Ok(Boots { list })
    }
}

/// The scripts by partition. Contracts see the list of them.
#[derive(Drop)]
pub struct Scripts {
    pub list: Vec<Boots>,
}

impl Model for Scripts {
    ghost use Rattle.std.specs.Prelude.{List};
    ghost use Rattle.xp_script.specs.declared.command.Command.{Command};

    ghost Value = { List (List (List Command)) };

    ghost view = { λ s. s.list.items };
}
