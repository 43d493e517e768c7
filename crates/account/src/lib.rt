// The colour account of each accepted call's picture. There is no code here: specs/ says it of the buffers, and proofs/
// has it for both calls.
#![tactic(auto)]
