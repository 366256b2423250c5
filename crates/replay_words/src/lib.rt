// The lists of the oracle's answers as words, which oracle/replay_data makes of the readable ones: a line for each call, the words of its
// answer and of what it is asked with (oracle/answers/README.md), and the count of the lines that agree.
//
//     for line in (Lines { left: &space[..n] }) {
//         let mut v = [0];
//         let status = exports::wentuhoro_class(line.word(5), &mut v);
//         tally = tally.with_line(rt, name, line, line.says(status, &v))?;  // whether the line says this answer
//     }
//
// For the programs `replay` and `replay_stores`, which make each call on the exported library and compare.
#![tactic(auto)]

pub mod file;
pub mod line;
pub mod ratios;
pub mod tally;
