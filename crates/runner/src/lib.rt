// The runner of one job. So far there are only the meaning of runs (specs/) and the argument why a job that passed the test is not late (proofs/).
#![tactic(auto)]
