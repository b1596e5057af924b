// The first words of lines.
ghost use Rattle.std.specs.Prelude.{◌≡◌};
ghost use Rattle.xp_scenario.specs.Heads.{head_in, plan_word_in};

use xp_commands::verb::verb;
use xp_script::log::Verb;
use xp_settings::word::{SettingWord, setting_word};

/// The first word of a line.
#[derive(Clone, Copy)]
pub enum Head {
    Xpsim,
    Partitions,
    Setting(SettingWord),
    Script,
    Command(Verb),
    Schedule,
    Plan(PlanWord),
}

/// The first word of a line of the schedule.
#[derive(Clone, Copy)]
pub enum PlanWord {
    Turns,
    Rounds,
}

/// The first word of a line that this is.
#[tactic(auto, unfolding(crate::specs::Heads::head_in))]
pub fn head_of(word: &[u8]) -> Option<Head>
    ensures { result ≡ head_in word.now }
{
    if let Some(verb) = verb(word) {
        return Some(Head::Command(verb));
    }
    if let Some(setting) = setting_word(word) {
        return Some(Head::Setting(setting));
    }
    if let Some(plan) = plan_word(word) {
        return Some(Head::Plan(plan));
    }
    if word == b"xpsim".as_slice() {
        Some(Head::Xpsim)
    } else if word == b"partitions".as_slice() {
        Some(Head::Partitions)
    } else if word == b"script".as_slice() {
        Some(Head::Script)
    } else if word == b"schedule".as_slice() {
        Some(Head::Schedule)
    } else {
        None
    }
}

/// The first word of a line of the schedule that this is.
#[tactic(auto, unfolding(crate::specs::Heads::plan_word_in))]
fn plan_word(word: &[u8]) -> Option<PlanWord>
    ensures { result ≡ plan_word_in word.now }
{
    if word == b"turns".as_slice() {
        Some(PlanWord::Turns)
    } else if word == b"rounds".as_slice() {
        Some(PlanWord::Rounds)
    } else {
        None
    }
}
