// `Span`, the side of a candidate's box along one channel: what a ball reaches of it (`narrowed`,
// rule 3.12), and what a ball in which the candidate loses cuts from it (`cut_span`, `cut_by_root`, rule
// 3.14).
//
// No function asks anything of its caller. Each result is to the bit what the definition says that
// its contract names: `specs/Reach` for what a ball reaches, `specs/Slabs` for what it cuts.
#![tactic(auto)]

mod reach;
mod slabs;

// From its low end to its high end; nothing is left of it where `hi` is below `lo`.
#[derive(Clone, Copy)]
pub struct Span {
    pub lo: f64,
    pub hi: f64,
}
