// No code: `specs` states what the four layers come to together, from the customer's file to the restore sheet, and computes the bench
// examples; `proofs` has the theorem.
#![tactic(auto)]
