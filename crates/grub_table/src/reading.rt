//! Readings of runqueues, and the meeting of two passes.
ghost use Rattle.std.specs.Prelude.{◌≡◌, ◌<◌, ◌⊎◌, [], ◌∷◌, ◌++◌, length};
ghost use Rattle.grub_book.specs.declared.event.Event.TheVariants.{Look};
ghost use Rattle.grub_table.specs.Words.{queue_word, QueueFits};
ghost use Rattle.grub_table.specs.declared.view.Access.TheVariants.{Load};
ghost use Rattle.grub_table.specs.inside.Between.{Tells};
ghost use Rattle.grub_book.specs.History.{pass_of};
ghost use Rattle.grub_table.specs.Marks.{marker_of};
ghost use Rattle.grub_table.specs.Calls.{terms, number_of, share_of, claim_share, seen, marks, accesses, claim_accesses, IsPassOf, IsClaimOf, IsPassWith, IsStill, IsBehind, made_on, IsSeatOf};
ghost use Rattle.grub_table.specs.Layout.{queue_word_at};
ghost use Rattle.grub_table.specs.inside.Tellings.{Of, OfQueue, SawReading};
ghost use Rattle.grub_table.specs.Accesses.{meeting_loads};
ghost use Rattle.grub_table.specs.Histories.{EndsWith};
ghost use Rattle.grub_table.specs.Knowing.{Learns};

use crate::claim::Claim;
use crate::pass::Pass;
use crate::row::{queue_word_at, reading_in};
use crate::rule::{Compare, Telling};
use crate::seated::Seated;
use crate::shared::Shared;
use grub_book::Reading;

/// The load of a runqueue's reading for `read`: a look in the history.
pub(crate) struct Looks;

impl Telling for Looks {
    ghost tells = { λ st found. OfQueue st.word
        (λ r. Of queue_word QueueFits (SawReading r) found) };
}

impl Shared {
    /// The bandwidths of a runqueue, in 1/2^20: running_bw of its active tasks, and this_bw of all its tasks. One load.
    pub fn read(&self, pass: &mut Pass, r: u32) -> Reading
        requires of { IsPassOf self.now pass.old }
        requires queue { r < length (terms self.now).setup.queues }
        ensures of { IsPassOf self.now pass.new }
        ensures learns { Learns (share_of pass.old) (share_of pass.new)
            (Look (number_of pass.old) r result ∷ []) [] }
        ensures last { EndsWith (seen pass.new) (Look (number_of pass.old) r result) }
        ensures marks { marks pass.new ≡ marks pass.old }
        ensures made { accesses pass.new ≡ accesses pass.old ++ Load (queue_word_at r) ∷ [] }
    {
        self.look(&mut pass.seated, r)
    }

    /// A reading, as in `read`, by a pass that holds a claim.
    pub fn read_held(&self, claim: &mut Claim, r: u32) -> Reading
        requires of { IsClaimOf self.now claim.old }
        requires queue { r < length (terms self.now).setup.queues }
        ensures still { IsStill self.now claim.old claim.new }
        ensures learns { Learns (claim_share claim.old) (claim_share claim.new)
            (Look (claim_share claim.old).number r result ∷ []) [] }
        ensures last { EndsWith (claim_share claim.new).seen
            (Look (claim_share claim.old).number r result) }
        ensures made { claim_accesses claim.new
            ≡ claim_accesses claim.old ++ Load (queue_word_at r) ∷ [] }
    {
        self.look(&mut claim.seated, r)
    }

    /// Gives both passes back. What the two have seen are then known to be beginnings of one history.
    pub fn meet(&self, first: Pass, second: Pass) -> (Pass, Pass)
        requires first { IsPassOf self.now first }
        requires second { IsPassOf self.now second }
        ensures first { IsPassWith self.now (number_of first) (seen first) (marks first) result.0 }
        ensures second { IsPassWith self.now (number_of second) (seen second)
            (marks second) result.1 }
        ensures met { IsBehind pass_of seen result.0 result.1
            ⊎ IsBehind pass_of seen result.1 result.0 }
        ensures marks { IsBehind marker_of marks result.0 result.1
            ⊎ IsBehind marker_of marks result.1 result.0 }
        ensures made { (accesses result.0 ≡ accesses first ++ meeting_loads)
            × (accesses result.1 ≡ accesses second ++ meeting_loads) }
    {
        let Seated {
            seat: one,
            number: first,
        } = first.seated;
        let Seated {
            mut seat,
            number: second,
        } = second.seated;
        self.table.join_seat(&mut seat, one);
        self.table.load::<Compare>(&mut seat, 0);
        let one = self.table.split_seat(&mut seat);
        (
            Pass {
                seated: Seated {
                    seat: one,
                    number: first,
                },
            },
            Pass {
                seated: Seated {
                    seat,
                    number: second,
                },
            },
        )
    }

    fn look(&self, seated: &mut Seated, r: u32) -> Reading
        requires seat { IsSeatOf self.now seated.old }
        requires queue { r < length (terms self.now).setup.queues }
        ensures told { Tells self.now (SawReading r result) seated.old seated.new }
        ensures made { made_on seated.new ≡ made_on seated.old ++ Load (queue_word_at r) ∷ [] }
    {
        let word = self.load::<Looks>(seated, queue_word_at(r));
        reading_in(word)
    }
}
