// The laws of the rig: statements in specs/, their proofs in proofs/. There is no code here.
// Keeps 01 "Command words" and "Spins and power": what each reply may move, each row of the table, and what every run keeps.
#![tactic(auto)]
