// No code: the statements on two peripherals of a bench and on extra visits, over the bench's own steps, are in specs/, their proofs in proofs/.
#![tactic(auto)]
