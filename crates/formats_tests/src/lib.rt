//! Tables of contents with their verdicts, worked out by hand from docs/RULES.md.
#![tactic(auto)]

mod judge;
mod normals;
mod verdicts;
