// A store written to a file, read and rebuilt, over all histories (request 2026-01): one theorem, and no code.
#![tactic(auto)]
