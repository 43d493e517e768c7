// The picture that the original's own f32 cells draw, and that it is the one drawn with whole sixteenths. There is no code
// here: specs/ has the original's steps, and proofs/ has it for any kernel, and so for both calls.
#![tactic(auto)]
