// One line of a text.
ghost use Rattle.std.specs.Prelude.{◌≡◌};
ghost use Rattle.xp_text.specs.Lines.{line_of};
ghost use Rattle.xp_forms.specs.Forms.{Gives, reads};
ghost use Rattle.xp_scenario.specs.Drafts.{line_says, after_head, in_section, header_form, count_form, script_form, schedule_form};

use crate::draft::{Draft, Section};
use crate::head::{Head, head_of};
use crate::plan::plan;
use std::alloc::Global;
use xp_base::layout::PARTS;
use xp_forms::fault::{LineCause, LineError};
use xp_forms::fields::{at_last, end, is_ascii, no_word, number, part};
use xp_script::count::Count;
use xp_script::limits::FEWEST_PARTS;
use xp_text::line::Line;

/// Adds to the draft what a line says.
#[tactic(auto, unfolding(crate::specs::Drafts::line_says, xp_forms::specs::Forms::next_word))]
pub fn read_line(alloc: Global, draft: &mut Draft, bytes: &[u8]) -> Result<(), LineError>
    ensures { Gives (λ _. draft.new) result (line_says draft.old (line_of bytes.now)) }
{
    let mut line = Line::new(bytes);
    match line.next_word() {
        None => Ok(()),
        Some(word) if is_ascii(word) => read_head(alloc, draft, word, &mut line),
        Some(_) => Err(at_last(&line, LineCause::Word)),
    }
}

/// Adds what a line says after its first word.
fn read_head(
    alloc: Global,
    draft: &mut Draft,
    word: &[u8],
    line: &mut Line,
) -> Result<(), LineError>
    ensures { Gives (λ _. draft.new) result
        (after_head draft.old.section word.now draft.old line.old) }
{
    if draft.section == Section::Opening {
        return if word == b"xpsim".as_slice() {
            header(draft, line)
        } else {
            Err(at_last(line, LineCause::Header))
        };
    }
    match head_of(word) {
        Some(head) => in_section(alloc, draft, head, line),
        None => Err(at_last(line, LineCause::Word)),
    }
}

fn in_section(
    alloc: Global,
    draft: &mut Draft,
    head: Head,
    line: &mut Line,
) -> Result<(), LineError>
    ensures { Gives (λ _. draft.new) result (in_section draft.old.section head draft.old line.old) }
{
    match (draft.section, head) {
        (Section::Counting, Head::Partitions) => count(alloc, draft, line),
        (Section::Settings, Head::Setting(word)) => {
            let setting = draft.settings.setting(draft.count, word, line)?;
            draft.settings.add(setting)?;
            Ok(())
        }
        (Section::Scripts, Head::Command(verb)) => {
            let command = draft.owner().command(alloc, verb, line)?;
            draft.add_command(command)?;
            Ok(())
        }
        (Section::Schedule, Head::Plan(word)) => {
            let plan = plan(word, draft.count, line)?;
            draft.add_plan(plan)?;
            Ok(())
        }
        (Section::Scripts, Head::Setting(word)) => {
            Err(at_last(line, draft.settings.misplaced(word)))
        }
        (Section::Schedule, Head::Setting(word)) => {
            Err(at_last(line, draft.settings.misplaced(word)))
        }
        (Section::Settings, Head::Script) => script(alloc, draft, line),
        (Section::Scripts, Head::Script) => script(alloc, draft, line),
        (Section::Settings, Head::Schedule) => schedule(draft, line),
        (Section::Scripts, Head::Schedule) => schedule(draft, line),
        _ => Err(at_last(line, LineCause::Order)),
    }
}

fn header(draft: &mut Draft, line: &mut Line) -> Result<(), LineError>
    ensures { Gives (λ _. draft.new) result (reads (header_form draft.old) line.old) }
{
    if !line.accept(b"1") {
        return Err(no_word(line, LineCause::Header));
    }
    end(line, LineCause::Extra)?;
    draft.section = Section::Counting;
    Ok(())
}

fn count(alloc: Global, draft: &mut Draft, line: &mut Line) -> Result<(), LineError>
    ensures { Gives (λ _. draft.new) result (reads (count_form draft.old) line.old) }
{
    let count = number(line, FEWEST_PARTS as u64, PARTS as u64)?;
    end(line, LineCause::Extra)?;
    draft.set_count(alloc, Count::known(count as u8))?;
    Ok(())
}

fn script(alloc: Global, draft: &mut Draft, line: &mut Line) -> Result<(), LineError>
    ensures { Gives (λ _. draft.new) result (reads (script_form draft.old) line.old) }
{
    let part = part(line, draft.count)?;
    end(line, LineCause::Extra)?;
    draft.begin_script(alloc, part)?;
    Ok(())
}

fn schedule(draft: &mut Draft, line: &mut Line) -> Result<(), LineError>
    ensures { Gives (λ _. draft.new) result (reads (schedule_form draft.old) line.old) }
{
    end(line, LineCause::Extra)?;
    draft.section = Section::Schedule;
    Ok(())
}
