//! Tests alone: one process step by step, the sections of a machine, what the loader makes of configurations with their volumes,
//! and both machines side by side on one configuration.
#![tactic(auto)]

#[cfg(test)]
mod absorbing;
#[cfg(test)]
mod images;
#[cfg(test)]
mod loaded;
#[cfg(test)]
mod loading;
#[cfg(test)]
mod one_script;
#[cfg(test)]
mod parts;
#[cfg(test)]
mod sections;
#[cfg(test)]
mod tests;
