// What is written is read, and what is read was written: the laws of the snapshot crates' definitions, as
// specs/Statements.antt says them. No code.
#![tactic(auto)]
