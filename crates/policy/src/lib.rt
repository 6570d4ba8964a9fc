//! The rules of the policy: rights, the verdict on an access, known segments, and the tests of the gates.
#![tactic(auto)]

mod answers;
mod judging;
mod known;
mod refusals;
mod rights;
mod rule;

pub use answers::{Caller, Outcome, Reply};
pub use judging::verdict;
pub use known::{Known, brackets_in, in_table, known_by, usable};
pub use refusals::{
    advance_refusal, brackets_from, brackets_of, create_refusal, delete_refusal, fetch_refusal,
    make_known_refusal, read_refusal, swap_in_refusal, swap_out_refusal, ticket_refusal,
    update_refusal,
};
pub use rights::Rights;
pub use rule::Rule;
