// Scenarios as text: what `print` writes of what `parse` read, and the other way round.
use std::alloc::{AllocError, Global};
use std::process::Abort;
use std::test::Fail;
use xp_generator::generator::generate;
use xp_print::text::print;
use xp_scenario::text::parse;

/// Each kind of line, spelled as it may be: settings of all kinds in any order, comments, blanks,
/// upper case digits, runs of any length, numbers with leading zeros.
const SPELLED: &[u8] = b"# Each kind of line.
\txpsim 1
partitions 03
fault 2 entries 1
minor 1 2
poke 7 1 36431 18446744073709551615
minor 0 2
warm 1 0 0 entries 4 limit 240\r
restart 2 turn 0
stop 1 put 3
warm 0 2 1 entries 8 limit 112 # the device's

fault 0 page 18446744073709551615 at 05
budget 10
stop 0 turn 9
check 4096
restart 2 put 1
poke 0 0 0 0
script 2
net 14*00
frames 18446744073709551615
deactivate 0
activate 0
script 0
register 1 0 entries 4 limit 240
connected 1 0
send 1 0 -
send 1 0 0A0b notify
send 1 0 3*61 nowait
send 1 0 2*61+61+6162 nowait notify
send 1 0 6162626262+63+4*64
take 1 0
take 1 0 nowait
release 1 0 7
unregister 1 0
closed 1 0
drain 1 0
script 0
script 2
leave
idle 1000000
offline
online
schedule
turns 2 04
rounds 0
turns 0 0";

const PRINTED: &[u8] = b"xpsim 1
partitions 3
budget 10
check 4096
minor 1 2
minor 0 2
warm 1 0 0 entries 4 limit 240
warm 0 2 1 entries 8 limit 112
fault 2 entries 1 at 0
fault 0 page 18446744073709551615 at 5
stop 1 put 3
stop 0 turn 9
restart 2 turn 0
restart 2 put 1
poke 7 1 36431 18446744073709551615
poke 0 0 0 0
script 0
register 1 0 entries 4 limit 240
connected 1 0
send 1 0 -
send 1 0 0a0b notify
send 1 0 616161 nowait
send 1 0 4*61+62 nowait notify
send 1 0 61+4*62+63+4*64
take 1 0
take 1 0 nowait
release 1 0 7
unregister 1 0
closed 1 0
drain 1 0
script 0
script 2
net 14*00
frames 18446744073709551615
deactivate 0
activate 0
script 2
leave
idle 1000000
offline
online
schedule
turns 2 4
rounds 0
turns 0 0
";

/// A text without more than its opening, and what is printed of it.
const SHORTEST: (&[u8], &[u8]) = (
    b"xpsim 1\npartitions 64",
    b"xpsim 1\npartitions 64\nbudget 250000\ncheck 0\n",
);

/// Whether this is printed of what the text spells.
fn prints(alloc: Global, text: &[u8], printed: &[u8]) -> Result<bool, AllocError> {
    match parse(alloc, text) {
        Ok(scenario) => Ok(print(alloc, &scenario)?.as_slice() == printed),
        Err(_) => Ok(false),
    }
}

#[test]
fn prints_each_kind_of_line(rt: HostRuntime) -> Result<(), Fail> {
    assert!(rt; prints(rt.alloc(), SPELLED, PRINTED)?);
    Ok(())
}

#[test]
fn prints_what_it_printed(rt: HostRuntime) -> Result<(), Fail> {
    assert!(rt; prints(rt.alloc(), PRINTED, PRINTED)?);
    Ok(())
}

#[test]
fn prints_the_default_budget(rt: HostRuntime) -> Result<(), Fail> {
    let (text, printed) = SHORTEST;
    assert!(rt; prints(rt.alloc(), text, printed)?);
    Ok(())
}

/// Whether the printed text of the scenario of a number is read back, and prints alike.
fn is_read_back(alloc: Global, n: u32) -> Result<bool, AllocError> {
    let scenario = generate(alloc, n)?;
    let text = print(alloc, &scenario)?;
    prints(alloc, &text, &text)
}

#[test]
fn reads_generated_scenarios_back(rt: HostRuntime) -> Result<(), Fail> {
    for n in 0..100 {
        assert!(rt; is_read_back(rt.alloc(), n)?, "{n}");
    }
    Ok(())
}
