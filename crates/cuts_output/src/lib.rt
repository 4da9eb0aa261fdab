// The lines of the program's output (rule 7.3): the cuts that a search found, or a refusal, as bytes.
//
// No public function asks anything of its caller. `specs/Lines` has the text of an answer,
// `specs/Written` what is left in the lent area: the text at its front, or nothing where it has less
// room than the longest text with as many numbers takes. The answer is the number of bytes written.
// That one outcome meets this is proved (`proofs/LineLaws`).
#![tactic(auto)]

mod text;

pub use text::{print_cuts, print_refusal};
