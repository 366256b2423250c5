// What CRC-32 is, a bit at a time (specs/Crc32.antt), and the laws of its steps: no code.
#![tactic(auto)]
