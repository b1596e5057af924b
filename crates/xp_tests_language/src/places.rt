// The line of a summary, and the place of a text's first poke.
use std::process::Abort;
use std::test::Fail;
use xp_node::node::Node;
use xp_report::summary::summary;
use xp_scenario::poke::poke_place;

#[test]
fn summary_of_no_partition(rt: HostRuntime) -> Result<(), Fail> {
    let nodes: [Node; 0] = [];
    let text = summary(rt.alloc(), 7, &nodes)?;
    let line: &[u8] = b"big 7 partitions 0 accepted 0 taken 0 acked 0 delivered 0 done 0\n";
    assert!(rt; text.as_slice() == line);
    Ok(())
}

/// A text, and the line and column of its first poke.
const POKES: [(&[u8], Option<(u64, u64)>); 6] = [
    (b"poke", Some((1, 1))),
    (
        b"xpsim 1\npartitions 2\n\tpoke 0 8 1 2\npoke 0 8 1 2\n",
        Some((3, 2)),
    ),
    (b"# poke\nxpsim 1 # poke\n\npoke", Some((4, 1))),
    (b"xpsim 1\npartitions 2\n# poke 0 8 1 2\n", None),
    (b"pokes 1\nxpsim poke\n", None),
    (b"", None),
];

fn expect_place(rt: &impl Abort, text: &[u8], place: Option<(u64, u64)>) {
    assert!(rt; poke_place(text) == place, "{text:?}");
}

#[test]
fn first_pokes(rt: HostRuntime) {
    for (text, place) in POKES {
        expect_place(&rt, text, place);
    }
}
