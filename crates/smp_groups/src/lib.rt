//! The groups OS and statistics of the device: what they answer, and the three numbers that they count.
#![tactic(auto)]

ghost use Rattle.std.specs.Prelude.{◌≡◌, option_map};
ghost use Rattle.smp_model.specs.Meant.{meant_of};
ghost use Rattle.smp_model.specs.Said.{said_of};
ghost use Rattle.smp_model.specs.Counters.{after_drop, after_reply, os_reply, stat_group_reply};
ghost use Rattle.smp_groups.specs.Counters.{counters_of};

use smp_model::error::{NO_SUCH_STATISTICS, STATISTICS_GROUP};
use smp_model::{Reply, Request};

#[cfg(test)]
mod tests;

/// The one group of statistics.
const STATISTICS: &str = "smp";

/// What a device has counted since it was started. Each number stays at 4294967295 once it is there.
#[derive(Clone, Copy, Debug, Default, PartialEq, Eq)]
pub struct Counts {
    /// Replies that were sent.
    pub handled: u32,
    /// Packets that were dropped.
    pub dropped: u32,
    /// Replies that carried an error.
    pub errors: u32,
}

impl Counts {
    /// Counts a reply that was sent, and whether it carried an error.
    pub fn reply(&mut self, error: bool)
        ensures { counters_of self.new ≡ after_reply error (counters_of self.old) }
    {
        self.handled = self.handled.saturating_add(1);
        if error {
            self.errors = self.errors.saturating_add(1);
        }
    }

    /// Counts a packet that was dropped.
    pub fn drop_one(&mut self)
        ensures { counters_of self.new ≡ after_drop (counters_of self.old) }
    {
        self.dropped = self.dropped.saturating_add(1);
    }

    /// The reply to a request of the groups OS and statistics, with the numbers as they are before it is counted, and
    /// `None` exactly for a request of another group:
    ///
    /// - Echo is answered with its text, Reset with nothing to say, Parameters with one buffer of 2048 bytes.
    /// - The one group of statistics is `smp`. Another name is error 2 of group 2.
    pub fn answer<'a>(&self, request: &Request<'a>) -> Option<Reply<'a>>
        ensures { option_map said_of result ≡ os_reply (counters_of self.now) (meant_of request.now) }
    {
        match request {
            Request::Echo(text) => Some(Reply::Echo(text)),
            Request::Reset => Some(Reply::Empty),
            Request::Parameters => Some(Reply::Parameters),
            Request::StatGroup(name) => Some(self.statistics(name)),
            Request::StatList => Some(Reply::StatList),
            _ => None,
        }
    }

    /// The reply with the numbers of a group of statistics.
    fn statistics<'a>(&self, name: &str) -> Reply<'a>
        ensures { said_of result ≡ stat_group_reply (counters_of self.now) name.now }
    {
        if name != STATISTICS {
            return Reply::GroupError {
                group: STATISTICS_GROUP,
                number: NO_SUCH_STATISTICS,
            };
        }
        Reply::StatGroup {
            handled: self.handled,
            dropped: self.dropped,
            errors: self.errors,
        }
    }
}
