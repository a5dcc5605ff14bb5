//! That the program has one answer: a law.

ghost use Rattle.doll.specs.Replies.{SitesHaveOneReply};

/// A site has one reply to a command.
pub fn sites_have_one_reply()
    ensures { SitesHaveOneReply }
{}
