//! A majority vote.

ghost use Rattle.std.specs.Prelude.{◌≡◌};

/// The candidate of a majority vote in one pass: where one has more than half of the votes, it is this one.
#[derive(Clone, Copy)]
pub struct Vote {
    pub candidate: u32,

    /// How many votes it is ahead by; 0 before the first vote.
    pub lead: u32,
}

impl Vote {
    ghost use Rattle.timer_record.specs.Votes.{no_vote, voted, winner_of};

    /// No vote.
    pub fn new() -> Vote
        ensures { result ≡ no_vote }
    {
        Vote {
            candidate: 0,
            lead: 0,
        }
    }

    /// The vote with one more for this candidate.
    pub fn with(self, candidate: u32) -> Vote
        ensures { result ≡ voted self candidate }
    {
        if self.lead == 0 {
            Vote { candidate, lead: 1 }
        } else if self.candidate == candidate {
            Vote {
                candidate,
                lead: self.lead.saturating_add(1),
            }
        } else {
            Vote {
                candidate: self.candidate,
                lead: self.lead - 1,
            }
        }
    }

    /// The candidate that is ahead.
    pub fn winner(self) -> Option<u32>
        ensures { result ≡ winner_of self }
    {
        if self.lead == 0 {
            None
        } else {
            Some(self.candidate)
        }
    }
}
