//! A call begins: it is answered at once, or takes its task.
ghost use Rattle.std.specs.Prelude.{◌≡◌, ◌<◌, false, IfOk, [], ◌∷◌, ◌++◌, length, ◌==◌};
ghost use Rattle.grub_book.specs.Bandwidth.{IsReservation};
ghost use Rattle.grub_book.specs.Op.{IsOp};
ghost use Rattle.grub_book.specs.declared.op.Op.{Op};
ghost use Rattle.grub_book.specs.declared.place.Record.{Record};
ghost use Rattle.grub_table.specs.Words.{TaskFits, server_word, params_word, task_word, ServerFits};
ghost use Rattle.grub_table.specs.declared.view.Access.TheVariants.{Load, Exchange};
ghost use Rattle.grub_table.specs.declared.view.Hold.TheVariants.{Free};
ghost use Rattle.grub_table.specs.inside.Between.{hold_of, HoldsFor, HoldsTask, Tells, SawTask, SawRecord};
ghost use Rattle.grub_table.specs.Calls.{terms, accesses, made_on, started_accesses, IsPassOf, IsStarted, IsSeatOf};
ghost use Rattle.grub_table.specs.Layout.{task_word_at};
ghost use Rattle.grub_table.specs.inside.Layout.{server_word_at, params_word_at};
ghost use Rattle.grub_table.specs.inside.Tellings.{note_of, Of, LoadedTask, TookClaim, SawParams, SawServer};
ghost use Rattle.grub_table.specs.Accesses.{StartsBriefly};

use crate::answer::{Sighting, Started};
use crate::claim::Claim;
use crate::pass::Pass;
use crate::row::{params_in, params_word_at, server_in, server_word_at, task_word_at, unclaimed};
use crate::rule::Telling;
use crate::seated::Seated;
use crate::shared::Shared;
use crate::view::Note;
use crate::{TaskWord, pack_task};
use grub_book::{Op, Params, Record, Server, early, refusal};
use std::marker::{Brand, PhantomData};

/// For which call a load of a task's word is made: its task and op. `start` says it where it makes the load, by a ghost value, since a load says
/// nothing of itself to the table.
pub trait Asked {
    ghost use Rattle.grub_table.specs.declared.view.Note.{Note};

    ghost note: { Note };
}

impl Asked for Brand {
    ghost use Rattle.grub_table.specs.inside.Tellings.{no_note};

    ghost note = { no_note };
}

/// What a claim adds to a task's word.
const CLAIM_BIT: u64 = 8;

/// The load of a task's word, for the call that `J` tells.
pub(crate) struct LoadTask<J> {
    asked: PhantomData<J>,
}

impl<J: Asked> Telling for LoadTask<J> {
    ghost tells = { λ st found. LoadedTask J.note found };
}

/// The exchange that sets the claim bit of a task's word.
pub(crate) struct TakeClaim;

impl Telling for TakeClaim {
    ghost tells = { λ st found. TookClaim (note_of st.said) st.first found };
}

/// The load of a held task's parameter word.
pub(crate) struct LoadParams;

impl Telling for LoadParams {
    ghost tells = { λ st found. Of params_word IsReservation SawParams found };
}

/// The load of a held task's server word.
pub(crate) struct LoadServer;

impl Telling for LoadServer {
    ghost tells = { λ st found. Of server_word ServerFits SawServer found };
}

impl Shared {
    /// Loads the task's word, where the call may be made at once.
    #[inline(always)]
    fn load_task<J: Asked>(&self, seated: &mut Seated, t: u32) -> u64
        requires seat { IsSeatOf self.now seated.old }
        requires free { hold_of seated.old ≡ Free }
        requires task { t < length (terms self.now).setup.tasks }
        requires op { IsOp (terms self.now).setup J.note.op }
        requires note { J.note.task ≡ t }
        ensures told { Tells self.now (LoadedTask J.note result) seated.old seated.new }
        ensures made { made_on seated.new
            ≡ made_on seated.old ++ Load (task_word_at (terms self.now).setup t) ∷ [] }
    {
        let at = task_word_at(&self.terms.setup, t);
        self.load::<LoadTask<J>>(seated, at)
    }

    /// Sets the claim bit where the word is still the one that was loaded, and returns the word as it was.
    #[inline(always)]
    fn take_claim(&self, seated: &mut Seated, t: u32, op: Op, shown: TaskWord, loaded: u64) -> u64
        requires seat { IsSeatOf self.now seated.old }
        requires free { hold_of seated.old ≡ Free }
        requires task { t < length (terms self.now).setup.tasks }
        requires fits { TaskFits shown }
        requires word { loaded ≡ task_word shown.place shown.count false }
        ensures told { Tells self.now (TookClaim (record { task = t; op = op })
            (task_word shown.place shown.count false) result) seated.old seated.new }
        ensures made { made_on seated.new
            ≡ made_on seated.old ++ Exchange (task_word_at (terms self.now).setup t)
            (result == task_word shown.place shown.count false) ∷ [] }
    {
        let claimed = loaded + CLAIM_BIT;
        let at = task_word_at(&self.terms.setup, t);
        let note = Note { task: t, op };
        self.exchange_saying::<TakeClaim>(seated, at, loaded, claimed, &note)
    }

    /// Loads the parameters of a task that is held.
    #[inline(always)]
    pub(crate) fn load_params(&self, seated: &mut Seated, t: u32) -> Params
        requires { (op : Op) × (rec : Record) × HoldsFor self.now seated.old t op rec }
        ensures told { Tells self.now (SawParams result) seated.old seated.new }
        ensures made { made_on seated.new
            ≡ made_on seated.old ++ Load (params_word_at (terms self.now).setup t) ∷ [] }
    {
        let at = params_word_at(&self.terms.setup, t);
        let word = self.load::<LoadParams>(seated, at);
        params_in(word)
    }

    /// Loads the server of a task that is held.
    #[inline(always)]
    fn load_server(&self, seated: &mut Seated, t: u32) -> Server
        requires { (op : Op) × (rec : Record) × HoldsFor self.now seated.old t op rec }
        ensures told { Tells self.now (SawServer result) seated.old seated.new }
        ensures made { made_on seated.new
            ≡ made_on seated.old ++ Load (server_word_at (terms self.now).setup t) ∷ [] }
    {
        let at = server_word_at(&self.terms.setup, t);
        let word = self.load::<LoadServer>(seated, at);
        server_in(word)
    }

    /// What the task's word says, or the word itself where another pass has the task.
    #[inline(always)]
    fn look_at_task<J: Asked>(&self, seated: &mut Seated, t: u32, op: Op) -> Result<TaskWord, u64>
        requires seat { IsSeatOf self.now seated.old }
        requires free { hold_of seated.old ≡ Free }
        requires task { t < length (terms self.now).setup.tasks }
        requires op { IsOp (terms self.now).setup op }
        requires note { J.note ≡ record { task = t; op = op } }
        ensures told { Tells self.now (SawTask t op result) seated.old seated.new }
        ensures made { made_on seated.new
            ≡ made_on seated.old ++ Load (task_word_at (terms self.now).setup t) ∷ [] }
        ensures free { IfOk result (λ w. TaskFits w × (w.claimed ≡ false)) }
    {
        let word = self.load_task::<J>(seated, t);
        match unclaimed(word) {
            Some(shown) => Ok(shown),
            None => Err(word),
        }
    }

    /// The record of a task that was taken, whose word said this.
    #[inline(always)]
    fn load_record(&self, seated: &mut Seated, t: u32, shown: TaskWord) -> Record
        requires { HoldsTask self.now seated.old t
            (λ _ rec. (shown.place ≡ rec.place) × (shown.count ≡ rec.count)) }
        ensures told { Tells self.now (SawRecord result) seated.old seated.new }
        ensures made { made_on seated.new
            ≡ made_on seated.old ++ Load (params_word_at (terms self.now).setup t)
            ∷ Load (server_word_at (terms self.now).setup t) ∷ [] }
    {
        let params = self.load_params(seated, t);
        let server = self.load_server(seated, t);
        Record {
            place: shown.place,
            count: shown.count,
            server,
            params,
        }
    }

    /// Makes the call where the task's place, count or ticket decides it, or where its timer is early; else takes the task for it.
    /// Where another pass has the task, or changed it meanwhile, the answer is `Busy` with what was seen.
    #[inline(always)]
    pub fn start(&self, pass: Pass, t: u32, op: Op) -> Started
        requires of { IsPassOf self.now pass }
        requires task { t < length (terms self.now).setup.tasks }
        requires op { IsOp (terms self.now).setup op }
        ensures started { IsStarted self.now pass t op result }
        ensures brief { StartsBriefly (task_word_at (terms self.now).setup t) (accesses pass)
            (started_accesses result) }
    {
        let Pass { mut seated } = pass;
        let shown = match self.look_at_task::<Brand>(&mut seated, t, op) {
            Ok(shown) => shown,
            Err(word) => return Started::Busy(Pass { seated }, Sighting::Claimed { word }),
        };
        if let Some(reply) = refusal(shown.place, shown.count, op) {
            return Started::Answered(Pass { seated }, reply);
        }
        let loaded = pack_task(shown);
        let found = self.take_claim(&mut seated, t, op, shown, loaded);
        if found != loaded {
            return Started::Busy(Pass { seated }, Sighting::Changed { loaded, found });
        }
        let held = self.load_record(&mut seated, t, shown);
        if let Some(reply) = early(&held, op) {
            let pass = self.hand_back(seated, t, &held, &held);
            return Started::Answered(pass, reply);
        }
        Started::Held(Claim {
            seated,
            task: t,
            op,
            held,
        })
    }
}
