//! Mailboxes: scripts that pass messages through a segment, and what collectors hold of what was posted.
#![tactic(auto)]

mod mail;

pub use mail::run_mail;
pub use mail_scripts::{collect_text, post_text};
