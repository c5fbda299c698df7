// What is promised. This crate has no code: specs/ says each demand as a type, in the words of the demand, and proofs/ has a
// term of each; docs/PROMISES.md says where each stands.
#![tactic(auto)]
