//! Tests alone: runs by processors in threads, with paces that hold them up, and what no contract says of them: that several
//! threads run at once, and that what is reported is what they did.
#![tactic(auto)]

#[cfg(test)]
mod configurations;
#[cfg(test)]
mod ends;
#[cfg(test)]
mod meetings;
#[cfg(test)]
mod orders;
#[cfg(test)]
mod paces;
#[cfg(test)]
mod runs;
#[cfg(test)]
mod sweeps;
#[cfg(test)]
mod volumes;
