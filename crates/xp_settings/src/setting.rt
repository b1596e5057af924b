// The readers of setting lines.
ghost use Rattle.std.specs.Prelude.{◌≡◌};
ghost use Rattle.xp_forms.specs.Forms.{Gives, reads};
ghost use Rattle.xp_script.specs.declared.setting.Moment as moment_types;
ghost use Rattle.xp_script.specs.declared.setting.Setting as setting_types;
ghost use Rattle.xp_settings.specs.Settings.{moment_form};

use crate::settings::Settings;
use crate::word::SettingWord;
use xp_base::body::BODY_BYTES;
use xp_base::ids::PartId;
use xp_base::layout::{FIRST_MINOR, LAST_MINOR, LINES, PART_WORDS, window};
use xp_forms::fault::{LineCause, LineError};
use xp_forms::fields::{
    at_last, channel, end, interval, kind, limit, no_word, number, other, part, peeked,
};
use xp_script::count::Count;
use xp_script::limits::{BUDGET_LIMIT, CHECK_LIMIT, CHECK_WINDOWS, longest_limit};
use xp_script::setting::{Fault, Minor, Moment, Poke, Restart, Setting, Stop, Warm};
use xp_text::line::Line;

impl Settings {
    ghost use Rattle.std.specs.Prelude.{◌≡◌, ◌<◌, ◌≤◌, ◌^◌};
    ghost use Rattle.xp_forms.specs.Forms.{Says};
    ghost use Rattle.xp_settings.specs.Settings.{setting_form, misplaced, names_end};
    ghost use Rattle.xp_settings.specs.Tests.{longest_between};
    ghost use Rattle.xp_settings.specs.declared.word.SettingWord.TheVariants as words;

    /// Reads a setting after its word.
    pub fn setting(
        &self,
        count: Count,
        word: SettingWord,
        line: &mut Line,
    ) -> Result<Setting, LineError>
        ensures { Says result (setting_form count self.now word) line.old }
    {
        match word {
            SettingWord::Budget => self.budget(count, line),
            SettingWord::Check => self.check(count, line),
            SettingWord::Minor => self.minor(count, line),
            SettingWord::Warm => self.warm(count, line),
            SettingWord::Fault => self.fault(count, line),
            SettingWord::Stop => self.stop(count, line),
            SettingWord::Restart => self.restart(count, line),
            SettingWord::Poke => self.poke(count, line),
        }
    }

    /// What is wrong with a setting line in another section.
    pub fn misplaced(&self, word: SettingWord) -> LineCause
        ensures { result ≡ misplaced word self.now }
    {
        match word {
            SettingWord::Budget if self.budget.is_some() => LineCause::Twice,
            SettingWord::Check if self.check.is_some() => LineCause::Twice,
            _ => LineCause::Order,
        }
    }

    fn budget(&self, count: Count, line: &mut Line) -> Result<Setting, LineError>
        ensures { Says result (setting_form count self.now words.Budget) line.old }
    {
        if self.budget.is_some() {
            return Err(at_last(line, LineCause::Twice));
        }
        let turns = number(line, 1, BUDGET_LIMIT)?;
        end(line, LineCause::Extra)?;
        Ok(Setting::Budget(turns))
    }

    fn check(&self, count: Count, line: &mut Line) -> Result<Setting, LineError>
        ensures { Says result (setting_form count self.now words.Check) line.old }
    {
        if self.check.is_some() {
            return Err(at_last(line, LineCause::Twice));
        }
        let turns = interval(line, CHECK_WINDOWS * window(count.get()), CHECK_LIMIT)?;
        end(line, LineCause::Extra)?;
        Ok(Setting::Check(turns))
    }

    fn minor(&self, count: Count, line: &mut Line) -> Result<Setting, LineError>
        ensures { Says result (setting_form count self.now words.Minor) line.old }
    {
        if self.names_end(peeked(line)) {
            return Err(at_last(line, LineCause::Order));
        }
        let part = part(line, count)?;
        if self.has_minor(part) {
            return Err(at_last(line, LineCause::Twice));
        }
        let version = number(line, FIRST_MINOR as u64, LAST_MINOR as u64)? as u8;
        end(line, LineCause::Extra)?;
        Ok(Setting::Minor(Minor { part, version }))
    }

    fn warm(&self, count: Count, line: &mut Line) -> Result<Setting, LineError>
        ensures { Says result (setting_form count self.now words.Warm) line.old }
    {
        let first = part(line, count)?;
        let second = other(line, count, first)?;
        let channel = channel(line)?;
        if self.has_warm(first, second, channel) {
            return Err(at_last(line, LineCause::Twice));
        }
        if !line.accept(b"entries") {
            return Err(no_word(line, LineCause::Word));
        }
        let entries = number(line, 1, LINES as u64)? as u8;
        if !line.accept(b"limit") {
            return Err(no_word(line, LineCause::Word));
        }
        let limit = limit(line, self.longest_between(first, second), entries)?;
        end(line, LineCause::Extra)?;
        Ok(Setting::Warm(Warm {
            first,
            second,
            channel,
            entries,
            limit,
        }))
    }

    fn fault(&self, count: Count, line: &mut Line) -> Result<Setting, LineError>
        ensures { Says result (setting_form count self.now words.Fault) line.old }
    {
        let part = part(line, count)?;
        let kind = kind(line)?;
        let copy = number(line, 1, u64::MAX)?;
        if line.accept(b"at") {
            let load = number(line, 0, u64::MAX)?;
            end(line, LineCause::Extra)?;
            return Ok(Setting::Fault(Fault {
                part,
                kind,
                copy,
                load,
            }));
        }
        end(line, LineCause::Word)?;
        Ok(Setting::Fault(Fault {
            part,
            kind,
            copy,
            load: 0,
        }))
    }

    fn stop(&self, count: Count, line: &mut Line) -> Result<Setting, LineError>
        ensures { Says result (setting_form count self.now words.Stop) line.old }
    {
        let part = part(line, count)?;
        if self.has_stop(part) {
            return Err(at_last(line, LineCause::Twice));
        }
        match moment(line) {
            Ok(moment) => Ok(Setting::Stop(Stop { part, moment })),
            Err(error) => Err(error),
        }
    }

    fn restart(&self, count: Count, line: &mut Line) -> Result<Setting, LineError>
        ensures { Says result (setting_form count self.now words.Restart) line.old }
    {
        let part = part(line, count)?;
        if self.has_restarts(part) {
            return Err(at_last(line, LineCause::Twice));
        }
        match moment(line) {
            Ok(moment) => Ok(Setting::Restart(Restart { part, moment })),
            Err(error) => Err(error),
        }
    }

    fn poke(&self, count: Count, line: &mut Line) -> Result<Setting, LineError>
        ensures { Says result (setting_form count self.now words.Poke) line.old }
    {
        let turn = number(line, 0, u64::MAX)?;
        let owner = part(line, count)?;
        let index = number(line, 0, PART_WORDS as u64 - 1)? as u32;
        let word = number(line, 0, u64::MAX)?;
        end(line, LineCause::Extra)?;
        Ok(Setting::Poke(Poke {
            turn,
            owner,
            index,
            word,
        }))
    }

    /// Whether the number names a partition of a `warm` line.
    fn names_end(&self, number: Option<u64>) -> bool
        ensures { result ≡ names_end number self.now.warms }
    {
        match number {
            Some(number) => self.has_end(number),
            None => false,
        }
    }

    /// The longest payload that both partitions may allow on a channel between them.
    fn longest_between(&self, first: PartId, second: PartId) -> u16
        ensures value { result ≡ longest_between first second self.now.minors }
        ensures range { result ≤ BODY_BYTES }
    {
        longest_limit(self.minors.of(first).min(self.minors.of(second)))
    }
}

/// A moment, and the line's end.
fn moment(line: &mut Line) -> Result<Moment, LineError>
    ensures { (setting : moment_types.Moment → setting_types.Setting)
        → Gives setting result (reads (moment_form setting) line.old) }
{
    if line.accept(b"put") {
        let put = number(line, 1, u64::MAX)?;
        end(line, LineCause::Extra)?;
        return Ok(Moment::Put(put));
    }
    if line.accept(b"turn") {
        let turn = number(line, 0, u64::MAX)?;
        end(line, LineCause::Extra)?;
        return Ok(Moment::Turn(turn));
    }
    Err(no_word(line, LineCause::Word))
}
