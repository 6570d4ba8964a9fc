//! Tests alone: labels and class tables, brackets, the layout of words, verdicts, known places, programs, and the gates step by
//! step on answers made by hand.
#![tactic(auto)]

#[cfg(test)]
mod bracket_rows;
#[cfg(test)]
mod class_tables;
#[cfg(test)]
mod data_steps;
#[cfg(test)]
mod evc_steps;
#[cfg(test)]
mod fixture;
#[cfg(test)]
mod label_texts;
#[cfg(test)]
mod layout_rows;
#[cfg(test)]
mod places;
#[cfg(test)]
mod programs;
#[cfg(test)]
mod swap_steps;
#[cfg(test)]
mod tree_steps;
#[cfg(test)]
mod verdicts;
