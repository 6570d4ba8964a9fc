//! The law of mailboxes: what collectors hold is a prefix of what was posted.
#![tactic(auto)]

ghost use Rattle.mailbox_laws.specs.Mail.{MailArrives, PostsAreByTicket};

/// What a collector holds of a segment that posters alone write is a prefix of what they posted, for every order of effect.
pub fn mailbox_laws()
    ensures arrives { MailArrives }
    ensures tickets { PostsAreByTicket }
{}
