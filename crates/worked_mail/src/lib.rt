//! Tests alone: worked mail.
#![tactic(auto)]

#[cfg(test)]
mod mail;
