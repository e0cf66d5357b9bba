//! Words that mean a job: `words | "file" capacity slot node number first`.
use super::*;

/// Whole commands.
const COMMANDS: &str = r#"
# The second word is the file.
observe "" --output frames               | "" 4095 8192 localhost 0 false
observe --output --output frames         | "--output" 4095 8192 localhost 0 false
observe --output=frames --output frames  | "--output=frames" 4095 8192 localhost 0 false
observe observe --output frames          | "observe" 4095 8192 localhost 0 false
observe "a/é b" --output frames          | "a/é b" 4095 8192 localhost 0 false
# Options stand in any order.
observe f --capacity 7 --slot 64 --node n --first 3 --output frames | "f" 7 64 n 3 true
observe f --slot 64 --node n --first 3 --output frames --capacity 7 | "f" 7 64 n 3 true
observe f --node n --first 3 --output frames --capacity 7 --slot 64 | "f" 7 64 n 3 true
observe f --first 3 --output frames --capacity 7 --slot 64 --node n | "f" 7 64 n 3 true
observe f --output frames --capacity 7 --slot 64 --node n --first 3 | "f" 7 64 n 3 true
"#;

/// Words behind `observe f --output frames`.
const JOBS: &str = r#"
# Each option, and the ends of its range.
| "f" 4095 8192 localhost 0 false
--capacity 1                           | "f" 1 8192 localhost 0 false
--capacity 3                           | "f" 3 8192 localhost 0 false
--capacity 7                           | "f" 7 8192 localhost 0 false
--capacity 15                          | "f" 15 8192 localhost 0 false
--capacity 4095                        | "f" 4095 8192 localhost 0 false
--capacity 32767                       | "f" 32767 8192 localhost 0 false
--capacity 65535                       | "f" 65535 8192 localhost 0 false
--slot 64                              | "f" 4095 64 localhost 0 false
--slot 72                              | "f" 4095 72 localhost 0 false
--slot 8192                            | "f" 4095 8192 localhost 0 false
--slot 65016                           | "f" 4095 65016 localhost 0 false
--slot 65024                           | "f" 4095 65024 localhost 0 false
--node a                               | "f" 4095 8192 a 0 false
--node 0                               | "f" 4095 8192 0 0 false
--node -                               | "f" 4095 8192 - 0 false
--node --output                        | "f" 4095 8192 --output 0 false
--node node-1                          | "f" 4095 8192 node-1 0 false
--node 0123456789abcdefghijklmnopqrstuvwxyz-0123456789abcdefghijklmnop | "f" 4095 8192 0123456789abcdefghijklmnopqrstuvwxyz-0123456789abcdefghijklmnop 0 false
--last 1                               | "f" 4095 8192 localhost 1 false
--last 20                              | "f" 4095 8192 localhost 20 false
--last 18446744073709551615            | "f" 4095 8192 localhost 18446744073709551615 false
--first 1                              | "f" 4095 8192 localhost 1 true
--first 20                             | "f" 4095 8192 localhost 20 true
--first 18446744073709551615           | "f" 4095 8192 localhost 18446744073709551615 true
# The largest rings.
--capacity 65535 --slot 16376          | "f" 65535 16376 localhost 0 false
--slot 65024 --capacity 16383          | "f" 16383 65024 localhost 0 false
--slot 32760 --capacity 32767          | "f" 32767 32760 localhost 0 false
# Leading zeros.
--capacity 000000000000000000000000000000000000007 | "f" 7 8192 localhost 0 false
--slot 0064                            | "f" 4095 64 localhost 0 false
--last 0000000000000000000018446744073709551615 | "f" 4095 8192 localhost 18446744073709551615 false
--first 01                             | "f" 4095 8192 localhost 1 true
"#;

/// Words behind `observe f`, which name no node.
const ASKED: &str = r#"
--output frames                              | "f" 4095 8192 localhost 0 false
# The last flows, and the first.
--output frames --last 1                     | "f" 4095 8192 localhost 1 false
--output frames --last 2                     | "f" 4095 8192 localhost 2 false
--output frames --last 3                     | "f" 4095 8192 localhost 3 false
--output frames --last 4                     | "f" 4095 8192 localhost 4 false
--output frames --last 5                     | "f" 4095 8192 localhost 5 false
--output frames --last 7                     | "f" 4095 8192 localhost 7 false
--last 18446744073709551615 --output frames  | "f" 4095 8192 localhost 18446744073709551615 false
--output frames --first 1                    | "f" 4095 8192 localhost 1 true
--output frames --first 2                    | "f" 4095 8192 localhost 2 true
--output frames --first 3                    | "f" 4095 8192 localhost 3 true
--output frames --first 4                    | "f" 4095 8192 localhost 4 true
--output frames --first 5                    | "f" 4095 8192 localhost 5 true
--output frames --first 7                    | "f" 4095 8192 localhost 7 true
--first 18446744073709551615 --output frames | "f" 4095 8192 localhost 18446744073709551615 true
# With a capacity or a slot.
--output frames --capacity 1                 | "f" 1 8192 localhost 0 false
--output frames --capacity 3                 | "f" 3 8192 localhost 0 false
--output frames --capacity 7                 | "f" 7 8192 localhost 0 false
--output frames --last 2 --capacity 1        | "f" 1 8192 localhost 2 false
--output frames --last 2 --capacity 3        | "f" 3 8192 localhost 2 false
--output frames --last 5 --capacity 3        | "f" 3 8192 localhost 5 false
--output frames --first 2 --capacity 1       | "f" 1 8192 localhost 2 true
--output frames --first 2 --capacity 3       | "f" 3 8192 localhost 2 true
--output frames --capacity 1 --last 1        | "f" 1 8192 localhost 1 false
--output frames --capacity 1 --first 1       | "f" 1 8192 localhost 1 true
--output frames --capacity 3 --last 1        | "f" 3 8192 localhost 1 false
--output frames --capacity 3 --last 3        | "f" 3 8192 localhost 3 false
--output frames --capacity 3 --first 1       | "f" 3 8192 localhost 1 true
--output frames --capacity 3 --first 3       | "f" 3 8192 localhost 3 true
--output frames --capacity 7 --last 4        | "f" 7 8192 localhost 4 false
--output frames --slot 64 --last 1           | "f" 4095 64 localhost 1 false
--output frames --slot 64 --last 2           | "f" 4095 64 localhost 2 false
--output frames --slot 64 --first 1          | "f" 4095 64 localhost 1 true
--output frames --slot 64 --first 2          | "f" 4095 64 localhost 2 true
--output frames --slot 64 --capacity 1       | "f" 1 64 localhost 0 false
--output frames --slot 64 --capacity 3       | "f" 3 64 localhost 0 false
# Other orders.
--capacity 3 --first 2 --output frames       | "f" 3 8192 localhost 2 true
--first 2 --output frames --capacity 3       | "f" 3 8192 localhost 2 true
--last 2 --output frames --slot 64           | "f" 4095 64 localhost 2 false
--slot 64 --capacity 1 --output frames       | "f" 1 64 localhost 0 false
"#;

#[test]
fn words_mean_jobs(rt: HostRuntime) -> Result<(), Fail> {
    for (front, table) in [("", COMMANDS), (PLAIN, JOBS), ("observe f", ASKED)] {
        for row in &rows(rt.alloc(), table)? {
            let words = words_of(rt, &[front, row.cell(0)])?;
            assert_eq!(rt; meaning(rt, &words)?.as_str(), row.cell(1), "{row}");
        }
    }
    Ok(())
}

#[test]
fn the_name_of_a_node_stands_anywhere(rt: HostRuntime) -> Result<(), Fail> {
    for row in &rows(rt.alloc(), ASKED)? {
        let want = row.cell(1).replace(rt.alloc(), "localhost", "n1")?;
        let before = words_of(rt, &["observe f --node n1", row.cell(0)])?;
        assert_eq!(rt; meaning(rt, &before)?.as_str(), want.as_str(), "{row}");
        let behind = words_of(rt, &["observe f", row.cell(0), "--node n1"])?;
        assert_eq!(rt; meaning(rt, &behind)?.as_str(), want.as_str(), "{row}");
    }
    Ok(())
}
