// Two faults in one text: the first one in the order of the text is told, and a line that isn't
// right before too much of something.
use std::alloc::{AllocError, Global};
use std::test::Fail;
use xp_forms::fault::LineCause;
use xp_scenario::fault::ScenarioFault;
use xp_scenario::text::parse;

/// A line of a script, and the column and the cause of its fault.
type Row = (&'static [u8], u64, LineCause);

/// Each cause but `Header`, which is of the first line with words alone.
const FAULTS: [Row; 9] = [
    (b"frobnicate\n", 1, LineCause::Word),
    (b"take 1\n", 7, LineCause::Missing),
    (b"leave now\n", 7, LineCause::Extra),
    (b"idle x\n", 6, LineCause::Number),
    (b"send 1 0 6\n", 10, LineCause::Payload),
    (b"take 0 0\n", 6, LineCause::Partition),
    (b"take 1 4\n", 8, LineCause::Channel),
    (b"check 0\n", 1, LineCause::Twice),
    (b"rounds 1\n", 1, LineCause::Order),
];

/// The fault of a text of these lines.
fn fault_of(alloc: Global, lines: &[&[u8]]) -> Result<Option<ScenarioFault>, AllocError> {
    let mut text = Vec::new(alloc);
    for line in lines {
        text.extend_from_slice(line)?;
    }
    Ok(parse(alloc, &text).err())
}

fn bad_line(line: u64, column: u64, cause: LineCause) -> Option<ScenarioFault> {
    Some(ScenarioFault::BadLine {
        line,
        column,
        cause,
    })
}

const OPENING: &[u8] = b"xpsim 1\npartitions 3\ncheck 0\nscript 0\n";

#[test]
fn the_first_line_is_told(rt: HostRuntime) -> Result<(), Fail> {
    for (first, column, cause) in FAULTS {
        for (second, _, _) in FAULTS {
            let found = fault_of(rt.alloc(), &[OPENING, first, second])?;
            assert!(rt; found == bad_line(5, column, cause), "{first:?} {second:?}");
        }
    }
    Ok(())
}

#[test]
fn the_header_is_told_first(rt: HostRuntime) -> Result<(), Fail> {
    for (line, _, _) in FAULTS {
        let found = fault_of(
            rt.alloc(),
            &[b"xpsim 2\npartitions 3\ncheck 0\nscript 0\n", line],
        )?;
        assert!(rt; found == bad_line(1, 7, LineCause::Header), "{line:?}");
    }
    Ok(())
}

/// More turns than a scenario may have, by its budget.
const MANY: &[u8] = b"xpsim 1\npartitions 5\ncheck 0\nbudget 4000000\nscript 0\n";

#[test]
fn a_line_is_told_before_too_much(rt: HostRuntime) -> Result<(), Fail> {
    for (line, column, cause) in FAULTS {
        let found = fault_of(rt.alloc(), &[MANY, line])?;
        assert!(rt; found == bad_line(6, column, cause), "{line:?}");
    }
    Ok(())
}
