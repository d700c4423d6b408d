// Whether a change repeats another (same.rt), or the one kept last (kept.rt), judged where their bytes stand: document 01, 'Loaded signal'.
#![tactic(auto)]

pub mod kept;
mod same;
