//! A call that took its task is made, or given up.
ghost use Rattle.std.specs.Prelude.{◌≡◌, ℕ, [], ◌∷◌, ◌++◌, true, false, ◌==◌};
ghost use Rattle.grub_book.specs.Sound.{IsKept};
ghost use Rattle.grub_book.specs.Step.{changes_sum, runqueue_of, LooksAtQueue};
ghost use Rattle.grub_book.specs.Totals.{shifted_of};
ghost use Rattle.grub_book.specs.declared.op.Op.{Op};
ghost use Rattle.grub_book.specs.declared.place.Record.{Record};
ghost use Rattle.grub_table.specs.Words.{queue_word, server_word, params_word, QueueFits, ServerFits};
ghost use Rattle.grub_table.specs.declared.view.Access.TheVariants.{Store, Load, Exchange};
ghost use Rattle.grub_table.specs.declared.view.Stored.{Stored};
ghost use Rattle.grub_table.specs.inside.Between.{HoldsFor, HoldsMade, HoldsSome, HoldsTask, Tells};
ghost use Rattle.grub_table.specs.Calls.{terms, claim_task, claim_op, accesses, claim_accesses, claim_changes_sum, made_on, seen, share_on, IsCancelled, IsClaimOf, IsFinished, IsWithin};
ghost use Rattle.grub_table.specs.Layout.{queue_word_at, task_word_at};
ghost use Rattle.grub_table.specs.inside.Layout.{stored_of, server_word_at, params_word_at};
ghost use Rattle.grub_table.specs.inside.Tellings.{is_decided_at_load, outcome, Of, OfQueue, SawQueue, ChangedQueue, SettledServer, StoredServer, StoredParams, Gives, GaveUp, GaveBack};
ghost use Rattle.grub_table.specs.inside.Brief.{changed_server, changed_store, TriesOnce};
ghost use Rattle.grub_table.specs.inside.Tries.{half_stored, is_charge, KnowsNoMore, Tried};

use crate::answer::Finished;
use crate::claim::Claim;
use crate::pass::Pass;
use crate::row::{
    free_word, params_word_at, queue_word_at, reading_in, server_word_at, task_word_at,
};
use crate::rule::Telling;
use crate::seated::Seated;
use crate::shared::Shared;
use crate::{pack_params, pack_queue, pack_server};
use grub_book::{
    Op, Params, Reading, Record, Reply, Server, changes_sum, runqueue, settle, shifted,
};

/// Whether the reply stands as soon as the runqueue's word is loaded.
#[inline(always)]
fn is_decided_at_load(reply: Reply) -> bool
    ensures { result ≡ is_decided_at_load reply }
{
    matches!(
        reply,
        Reply::Charged { .. } | Reply::Full | Reply::DeadlineOverflow
    )
}

/// Whether the op is a charge, which changes no sum but looks at them.
#[inline(always)]
fn is_charge(op: Op) -> bool
    ensures { result ≡ is_charge op }
{
    matches!(op, Op::Charge { .. })
}

/// The load of the reading that a transition begins with.
pub(crate) struct LoadQueue;

impl Telling for LoadQueue {
    ghost tells = { λ st found. OfQueue st.word (λ r. Of queue_word QueueFits (SawQueue r) found) };
}

/// The exchange of a runqueue's reading: where it is won, the transition is made.
pub(crate) struct ChangeQueue;

impl Telling for ChangeQueue {
    ghost tells = { λ st found. OfQueue st.word
        (λ r. Of queue_word QueueFits (λ now. ChangedQueue r now (found == st.first)) st.first) };
}

/// The store of the server word at which an op that changes no sum is made.
pub(crate) struct SettleServer;

impl Telling for SettleServer {
    ghost tells = { λ st stored. SettledServer stored };
}

/// The store of the server word of a transition that is made.
pub(crate) struct StoreServer;

impl Telling for StoreServer {
    ghost tells = { λ st stored. StoredServer stored };
}

/// The store of the parameter word of a transition that is made.
pub(crate) struct StoreParams;

impl Telling for StoreParams {
    ghost tells = { λ st stored. StoredParams stored };
}

/// The store that clears the claim bit where nothing was made.
pub(crate) struct GiveUp;

impl Telling for GiveUp {
    ghost tells = { λ st stored. GaveUp };
}

/// The store that clears the claim bit after a transition.
pub(crate) struct GiveBack;

impl Telling for GiveBack {
    ghost tells = { λ st stored. GaveBack };
}

impl Shared {
    /// Makes the call. A try is one load and one exchange of the runqueue's word.
    /// The claim is given back where all `tries` were lost, each to a change of that runqueue's reading. An op that changes no sum needs no try.
    #[inline(always)]
    pub fn finish(&self, claim: Claim, tries: u8) -> Finished
        requires { IsClaimOf self.now claim }
        ensures finished { IsFinished self.now claim tries result }
        ensures within { IsWithin claim tries result }
    {
        if changes_sum(&claim.held, claim.op) {
            return self.finish_sum(claim, tries);
        }
        if is_charge(claim.op) {
            self.attempt(claim)
        } else {
            self.finish_quiet(claim)
        }
    }

    /// Gives the task back. Nothing is added to the history.
    #[inline(always)]
    pub fn cancel(&self, claim: Claim) -> Pass
        requires { IsClaimOf self.now claim }
        ensures cancelled { IsCancelled self.now claim result }
        ensures made { accesses result ≡ claim_accesses claim
            ++ Store (task_word_at (terms self.now).setup (claim_task claim)) ∷ [] }
    {
        let Claim {
            seated,
            task,
            op: _,
            held,
        } = claim;
        self.give_up(seated, task, &held)
    }

    /// Makes a call that changes a sum, by so many tries. Mostly the first is won, so the others are no part of its code.
    #[inline(always)]
    fn finish_sum(&self, claim: Claim, tries: u8) -> Finished
        requires of { IsClaimOf self.now claim }
        requires sum { claim_changes_sum claim ≡ true }
        ensures finished { IsFinished self.now claim tries result }
        ensures within { IsWithin claim tries result }
    {
        if tries == 0 {
            return Finished::Held(claim);
        }
        match self.attempt(claim) {
            Finished::Held(back) => self.try_on(back, tries - 1),
            Finished::Done(pass, reply) => Finished::Done(pass, reply),
        }
    }

    /// So many more tries.
    fn try_on(&self, mut claim: Claim, tries: u8) -> Finished
        requires of { IsClaimOf self.now claim }
        requires sum { claim_changes_sum claim ≡ true }
        ensures finished { IsFinished self.now claim tries result }
        ensures within { IsWithin claim tries result }
    {
        for _ in 0..tries {
            match self.try_again(claim) {
                Finished::Held(back) => claim = back,
                Finished::Done(pass, reply) => return Finished::Done(pass, reply),
            }
        }
        Finished::Held(claim)
    }

    /// One more try.
    fn try_again(&self, claim: Claim) -> Finished
        requires of { IsClaimOf self.now claim }
        requires about { claim_changes_sum claim ≡ false → is_charge (claim_op claim) ≡ true }
        ensures finished { IsFinished self.now claim 1 result }
        ensures within { IsWithin claim 1 result }
    {
        self.attempt(claim)
    }

    /// One try.
    #[inline(always)]
    fn attempt(&self, claim: Claim) -> Finished
        requires of { IsClaimOf self.now claim }
        requires about { claim_changes_sum claim ≡ false → is_charge (claim_op claim) ≡ true }
        ensures finished { IsFinished self.now claim 1 result }
        ensures within { IsWithin claim 1 result }
    {
        let Claim {
            mut seated,
            task,
            op,
            held,
        } = claim;
        let Some((next, reply)) = self.decide(&mut seated, op, &held) else {
            return Finished::Held(Claim {
                seated,
                task,
                op,
                held,
            });
        };
        self.store_changed_server(&mut seated, task, &held, &next);
        let pass = self.hand_back(seated, task, &held, &next);
        Finished::Done(pass, reply)
    }

    /// The event of an op that looks at its runqueue or changes a sum of it: at the load of the runqueue's word, or at its exchange where that is won.
    #[inline(always)]
    fn decide(&self, seated: &mut Seated, op: Op, held: &Record) -> Option<(Record, Reply)>
        requires held { (t : ℕ) × HoldsFor self.now seated.old t op held.now }
        requires about { changes_sum held.now op ≡ false → is_charge op ≡ true }
        ensures told { Tells self.now
            (Tried (runqueue_of held.now.place op) result) seated.old seated.new }
        ensures made { TriesOnce (queue_word_at (runqueue_of held.now.place op))
            (changes_sum held.now op) result (made_on seated.old) (made_on seated.new) }
    {
        let r = runqueue(held.place, op);
        let now = self.load_queue(seated, r);
        let (next, reply) = settle(*held, self.terms.setup.queue(r), now, op);
        if is_decided_at_load(reply) {
            return Some((next, reply));
        }
        let new = shifted(now, r, held, &next);
        if self.change_queue(seated, r, now, new) {
            Some((next, reply))
        } else {
            None
        }
    }

    /// An op that neither looks at its runqueue nor changes a sum of it: the store of the server's word is the event.
    #[inline(always)]
    fn finish_quiet(&self, claim: Claim) -> Finished
        requires of { IsClaimOf self.now claim }
        requires sum { claim_changes_sum claim ≡ false }
        requires charge { is_charge (claim_op claim) ≡ false }
        ensures finished { (tries : ℕ) → IsFinished self.now claim tries result }
        ensures within { (tries : ℕ) → IsWithin claim tries result }
    {
        let Claim {
            mut seated,
            task,
            op,
            held,
        } = claim;
        let unseen = Reading {
            running: 0,
            this: 0,
        };
        let (next, reply) = settle(held, self.terms.setup.queue(0), unseen, op);
        self.settle_server(&mut seated, task, next.server);
        let pass = self.hand_back(seated, task, &held, &next);
        Finished::Done(pass, reply)
    }

    /// After the event, when the server's word says what it is to: the parameter word is stored where it changes, and the task is given back.
    /// Where `start` finds a timer early both records are the same one: inlined, nothing is compared there.
    #[inline(always)]
    pub(crate) fn hand_back(
        &self,
        mut seated: Seated,
        task: u32,
        held: &Record,
        next: &Record,
    ) -> Pass
        requires held { HoldsMade self.now seated task next.now (half_stored held.now next.now) }
        requires kept { IsKept (terms self.now).setup next.now }
        ensures told { Tells self.now (Gives task) seated result.seated }
        ensures seen { seen result ≡ (share_on seated).seen }
        ensures made { accesses result ≡ made_on seated ++ changed_store
            (params_word_at (terms self.now).setup task) held.now.params next.now.params
            ++ Store (task_word_at (terms self.now).setup task) ∷ [] }
    {
        self.store_changed(&mut seated, task, held, next);
        self.give_back(seated, task, next)
    }

    /// After the event, stores the server word where it changes.
    #[inline(always)]
    fn store_changed_server(&self, seated: &mut Seated, task: u32, held: &Record, next: &Record)
        requires held { HoldsMade self.now seated.old task next.now (stored_of held.now) }
        requires fits { ServerFits next.now.server }
        ensures knows { Tells self.now KnowsNoMore seated.old seated.new }
        ensures stored { HoldsMade self.now seated.new task next.now
            (half_stored held.now next.now) }
        ensures made { made_on seated.new ≡ made_on seated.old ++ changed_server
            (server_word_at (terms self.now).setup task) held.now.server next.now.server }
    {
        if next.server != held.server {
            self.store_server(seated, task, next.server);
        }
    }

    /// Stores the parameter word where it changes.
    #[inline(always)]
    fn store_changed(&self, seated: &mut Seated, task: u32, held: &Record, next: &Record)
        requires { HoldsMade self.now seated.old task next.now (half_stored held.now next.now) }
        ensures knows { Tells self.now KnowsNoMore seated.old seated.new }
        ensures stored { HoldsMade self.now seated.new task next.now (stored_of next.now) }
        ensures made { made_on seated.new ≡ made_on seated.old ++ changed_store
            (params_word_at (terms self.now).setup task) held.now.params next.now.params }
    {
        if next.params != held.params {
            self.store_params(seated, task, next.params);
        }
    }

    /// Loads the reading of the runqueue that the call is about.
    #[inline(always)]
    fn load_queue(&self, seated: &mut Seated, r: u32) -> Reading
        requires { HoldsSome self.now seated.old (λ op rec. r ≡ runqueue_of rec.place op) }
        ensures told { Tells self.now (SawQueue r result) seated.old seated.new }
        ensures made { made_on seated.new ≡ made_on seated.old ++ Load (queue_word_at r) ∷ [] }
    {
        let word = self.load::<LoadQueue>(seated, queue_word_at(r));
        reading_in(word)
    }

    /// Makes the reading `new` where it is still `old`, and says whether it was.
    #[inline(always)]
    fn change_queue(&self, seated: &mut Seated, r: u32, old: Reading, new: Reading) -> bool
        requires held { HoldsSome self.now seated.old (λ op rec. (r ≡ runqueue_of rec.place op)
            × (new ≡ shifted_of old r rec (outcome (terms self.now) r old rec op).0)) }
        requires old { QueueFits old }
        requires new { QueueFits new }
        ensures told { Tells self.now (ChangedQueue r old result) seated.old seated.new }
        ensures made { made_on seated.new
            ≡ made_on seated.old ++ Exchange (queue_word_at r) result ∷ [] }
    {
        let loaded = pack_queue(old);
        let found = self.exchange::<ChangeQueue>(seated, queue_word_at(r), loaded, pack_queue(new));
        found == loaded
    }

    /// The server of an op that changes no sum: its transition.
    #[inline(always)]
    fn settle_server(&self, seated: &mut Seated, t: u32, server: Server)
        requires held { HoldsTask self.now seated.old t
            (λ op rec. (changes_sum rec op ≡ false) × ¬ LooksAtQueue rec.place op) }
        requires fits { ServerFits server }
        ensures told { Tells self.now (SettledServer (server_word server)) seated.old seated.new }
        ensures made { made_on seated.new
            ≡ made_on seated.old ++ Store (server_word_at (terms self.now).setup t) ∷ [] }
    {
        let at = server_word_at(&self.terms.setup, t);
        self.store::<SettleServer>(seated, at, pack_server(server));
    }

    /// Stores the server of a task whose call is made.
    #[inline(always)]
    fn store_server(&self, seated: &mut Seated, t: u32, server: Server)
        requires held { (now : Record) × (stored : Stored)
            × HoldsMade self.now seated.old t now stored }
        requires fits { ServerFits server }
        ensures told { Tells self.now (StoredServer (server_word server)) seated.old seated.new }
        ensures made { made_on seated.new
            ≡ made_on seated.old ++ Store (server_word_at (terms self.now).setup t) ∷ [] }
    {
        let at = server_word_at(&self.terms.setup, t);
        self.store::<StoreServer>(seated, at, pack_server(server));
    }

    /// Stores the parameters of a task whose call is made.
    #[inline(always)]
    fn store_params(&self, seated: &mut Seated, t: u32, params: Params)
        requires { (now : Record) × (stored : Stored) × HoldsMade self.now seated.old t now stored }
        ensures told { Tells self.now (StoredParams (params_word params)) seated.old seated.new }
        ensures made { made_on seated.new
            ≡ made_on seated.old ++ Store (params_word_at (terms self.now).setup t) ∷ [] }
    {
        let at = params_word_at(&self.terms.setup, t);
        self.store::<StoreParams>(seated, at, pack_params(params));
    }

    /// Gives a task back whose call is made and stored.
    #[inline(always)]
    fn give_back(&self, mut seated: Seated, t: u32, now: &Record) -> Pass
        requires held { HoldsMade self.now seated t now.now (stored_of now.now) }
        requires kept { IsKept (terms self.now).setup now.now }
        ensures told { Tells self.now GaveBack seated result.seated }
        ensures made { accesses result
            ≡ made_on seated ++ Store (task_word_at (terms self.now).setup t) ∷ [] }
    {
        let at = task_word_at(&self.terms.setup, t);
        self.store::<GiveBack>(&mut seated, at, free_word(now));
        Pass { seated }
    }

    /// Gives a task back whose call is given up.
    #[inline(always)]
    pub(crate) fn give_up(&self, mut seated: Seated, t: u32, held: &Record) -> Pass
        requires { (op : Op) × HoldsFor self.now seated t op held.now }
        ensures told { Tells self.now GaveUp seated result.seated }
        ensures made { accesses result
            ≡ made_on seated ++ Store (task_word_at (terms self.now).setup t) ∷ [] }
    {
        let at = task_word_at(&self.terms.setup, t);
        self.store::<GiveUp>(&mut seated, at, free_word(held));
        Pass { seated }
    }
}
