//! Words that mean no job.
use super::*;

/// Words of no command.
const NO_COMMANDS: &str = r#"
# No first word, another one, no file, no options.
|
observe
observe f
observe ""
print f --output frames
"" f --output frames
Observe f --output frames
"observe " f --output frames
observ f --output frames
f observe --output frames
f --output frames
observe --output frames
observe --output frames f
observe --output frames f --output
--output frames observe f
# No output, and another form of it.
observe f --last 3
observe f --node --output
observe f --node frames
observe f --output ""
observe f --output json
observe f --output frame
observe f --output framess
observe f --output Frames
observe f --output " frames"
observe f --output --output
# No value.
observe f --output
observe f frames
observe f --last --output frames
observe f --last --output frames 3
observe f --output --last 3 frames
# Name and value in one word.
observe f --output=frames
observe f --output=frames ""
observe f --output= frames
# Unknown names.
observe f output frames
observe f -o frames
observe f --follow --output frames
# A name twice, with one value and with two.
observe f --output json --output frames
observe f --capacity 7 --capacity 7 --output frames
observe f --slot 64 --output frames --slot 72
observe f --node a --node b --output frames
observe f --last 1 --output frames --last 1
# The last and the first.
observe f --first 3 --last 5 --output frames
"#;

/// Words that mean none behind `observe f --output frames`.
const NO_OPTIONS: &str = r#"
# No value.
more
""
--last
# Name and value in one word.
--last=3
--last=3 3
# Unknown names.
--verdict 3
"" 3
-- 3
-last 3
last 3
--las 3
--lasts 3
--Last 3
"--last " 3
# A name twice, with one value and with two.
--output frames
--output json
--first 1 --first 2
# The last and the first.
--last 1 --first 1
# Capacities.
--capacity 0
--capacity 2
--capacity 4
--capacity 5
--capacity 4094
--capacity 4096
--capacity 65534
--capacity 65536
--capacity 131071
--capacity 18446744073709551615
--capacity 18446744073709551616
--capacity 18446744073709551623
--capacity ""
--capacity +7
--capacity -7
--capacity "7 "
--capacity " 7"
--capacity 0x7
--capacity 7k
--capacity 7.0
--capacity 4,095
--capacity 4_095
--capacity ٧
# Slots.
--slot 0
--slot 8
--slot 56
--slot 63
--slot 65
--slot 68
--slot 8191
--slot 65023
--slot 65025
--slot 65032
--slot 18446744073709551680
--slot ""
--slot +64
--slot -64
# Rings that are too large: of both, and of one beside the other's default.
--capacity 65535 --slot 16384
--slot 32760 --capacity 65535
--capacity 32767 --slot 32768
--capacity 32767 --slot 65024
# Names of a node.
--node ""
--node 0123456789abcdefghijklmnopqrstuvwxyz-0123456789abcdefghijklmnopq
--node Node
--node nodE
--node a_b
--node a.b
--node a/b
--node a:b
--node "a b"
--node a`
--node {
--node @z
--node é
# Numbers of flows.
--last 0
--last 000
--last ""
--last +3
--last -3
--last 3a
--last a3
--last 18446744073709551616
--last 99999999999999999999999999
--last frames
--first 0
--first ""
--first +3
--first -3
--first 3/
--first 3:
--first 18446744073709551616
--first --last
"#;

#[test]
fn other_words_are_refused(rt: HostRuntime) -> Result<(), Fail> {
    for (front, table) in [("", NO_COMMANDS), (PLAIN, NO_OPTIONS)] {
        for row in &rows(rt.alloc(), table)? {
            let words = words_of(rt, &[front, row.cell(0)])?;
            assert_eq!(rt; meaning(rt, &words)?.as_str(), "bad words", "{row}");
        }
    }
    Ok(())
}

#[test]
fn very_many_words_are_refused(rt: HostRuntime) -> Result<(), Fail> {
    let mut words = words_of(rt, &[PLAIN, "--last 1"])?;
    for _ in 0..200_000 {
        words.push(String::from_str(rt.alloc(), "x")?)?;
    }
    assert_eq!(rt; meaning(rt, &words)?.as_str(), "bad words");
    Ok(())
}
