// The three demands: statements in specs/, their proofs in proofs/. There is no code here: they speak of the definitions that the functions of
// `rig`, `power`, `sending`, `desk`, `bench`, `word_writer` and `word_reader` are proved to meet. Keeps 01 whole and 02 (i), and says which demand
// catches each of 01's five frauds.
#![tactic(auto)]
