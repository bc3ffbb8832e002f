// What every call shares: the reasons of refusals, their places, and the operations; `specs/` says what becomes of lent memory.
#![tactic(auto)]

pub mod operation;
pub mod place;
pub mod reason;
pub mod refusal;
