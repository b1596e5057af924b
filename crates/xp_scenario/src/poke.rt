// Where a text writes memory from outside.
ghost use Rattle.std.specs.Prelude.{◌≡◌};
ghost use Rattle.xp_scenario.specs.Pokes.{poke_in};

use xp_text::line::Line;
use xp_text::parts::{LINE_END, first_part};

/// The line and the column of the first `poke` line's first word, both from 1. None: no line begins
/// with `poke`. A text of the language has the word nowhere else.
#[tactic(auto, unfolding(crate::specs::Pokes::poke_in))]
pub fn poke_place(text: &[u8]) -> Option<(u64, u64)>
    ensures { result ≡ poke_in text.now }
{
    let mut rest = text;
    let mut number: u64 = 1;
    loop {
        let (bytes, more) = first_part(LINE_END, rest);
        let mut line = Line::new(bytes);
        if line.accept(b"poke") {
            return Some((number, line.last()));
        }
        match more {
            Some(more) => {
                rest = more;
                number += 1;
            }
            None => return None,
        }
    }
}
