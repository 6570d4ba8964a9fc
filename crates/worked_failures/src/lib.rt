//! Tests alone: each pull and each push of a run fails in turn, a text is cut or changed at each of its bytes, and what ports have
//! left.
#![tactic(auto)]

#[cfg(test)]
mod broken_texts;
#[cfg(test)]
mod calls;
#[cfg(test)]
mod inputs;
#[cfg(test)]
mod ports;
#[cfg(test)]
mod runs;
