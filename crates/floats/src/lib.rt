// Laws of f32 values on which the colours, the mixes and the diffusion rest. There is no code here: specs/ has the
// definitions and proofs/ the laws.
#![tactic(auto)]
