// No code: what holds of single calls and of whole lists of calls on a sheet is stated in specs/ and proved in proofs/.
#![tactic(auto)]
