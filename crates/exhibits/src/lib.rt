// No code: what single calls come to, in plain values, is stated in specs/ and proved in proofs/.
#![tactic(auto)]
