// The worked examples of docs/RULES.md, evaluated. There is no code here: `specs/Marked` is the table of
// P1 to P13 and `specs/Further` a second one of our own rows, which catch wrong programs that the first
// lets pass; docs/WRONG_PROGRAMS.md says which row refuses which.
//
// It promises that both tables hold of the definitions that the contracts of `pelt`, `cusum`, `ewma` and
// `elementary: ln` cite, each under a single statement (`proofs/Tables`: `marked`, `further`) and with as
// many rows as `sizes` says, and that whatever meets such a contract says and leaves what a row does
// (`proofs/Contracts`).
#![tactic(auto)]
