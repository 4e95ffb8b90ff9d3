// No code: what a refusal points at is stated in specs/ and proved in proofs/.
#![tactic(auto)]
