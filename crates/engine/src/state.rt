//! The state of a run, held by value: the processor, room, held value, and per-row arrays. What each change does to it is said of
//! the rules' state that it stands for, over the jobs announced so far and the stretches, neither of which it holds.
ghost use Rattle.std.specs.Prelude.{◌≡◌, ℕ, ◌<◌, ◌≤◌, ◌+◌, ◌-◌, ◌^◌, List, [], ◌∷◌, ◌++◌, length, get_or, map};
ghost use Rattle.rules.specs.Job.{Job};
ghost use Rattle.rules.specs.State.{Entry, fresh};
ghost use Rattle.rules.specs.Finish.{settle_finished, go_idle, resume};
ghost use Rattle.rules.specs.LatestStarts.{drop_row, take_over};
ghost use Rattle.engine.specs.Fates.{displaced_fate};
ghost use Rattle.rules.specs.Announce.{start, append, preempt};
ghost use Rattle.rules.specs.Give.{give, stretch};

/// The processor is either idle or running one job, given by its row.
#[derive(Clone, Copy)]
pub enum Proc {
    Idle,
    Running(u32),
}

/// What has become of an announced row.
#[derive(Clone, Copy)]
pub enum Fate {
    Waiting,
    Taken,
    Finished(u32),
    Dropped(u32),
}

/// The state of a run: the rows announced so far, of each its remaining ticks and its fate; the processor, room and held value;
/// and the delayed jobs, of each its row, the tick at which it was put in and the room saved with it, the last one at the end.
#[derive(Clone, Copy)]
pub struct Run {
    proc: Proc,
    room: u32,
    held: u32,
    announced: usize,
    left: [u32; 64],
    fate: [Fate; 64],
    depth: usize,
    delayed: [u32; 64],
    since: [u32; 64],
    saved: [u32; 64],
    ghost inside: { (announced ≤ 64) × (depth ≤ 64) },
    ghost sized: { (length left ≡ 64) × (length fate ≡ 64) × (length delayed ≡ 64) × (length since ≡ 64) × (length saved ≡ 64) },
}

impl Run {
    ghost use Rattle.engine.specs.View.{view, no_job};

    /// Idle, with nothing announced or delayed and held value 0.
    #[tactic(auto, using(crate::proofs::Views::no_rows, crate::proofs::Views::no_entries), unfolding(rules::specs::State::fresh))]
    pub fn fresh() -> Run
        ensures announced { result.announced ≡ 0 }
        ensures state { view [] result [] ≡ fresh }
    {
        Run {
            proc: Proc::Idle,
            room: 0,
            held: 0,
            announced: 0,
            left: [0; 64],
            fate: [Fate::Waiting; 64],
            depth: 0,
            delayed: [0; 64],
            since: [0; 64],
            saved: [0; 64],
        }
    }

    /// Nothing runs.
    #[tactic(auto, unfolding(rules::specs::Finish::go_idle))]
    fn go_idle(mut self) -> Run
        ensures announced { result.announced ≡ self.announced }
        ensures change { (jobs : List Job) (ss : _) → view jobs result ss ≡ go_idle (view jobs self ss) }
    {
        self.proc = Proc::Idle;
        self.room = 0;
        self
    }

    /// Row i is finished at t. What runs next is not decided yet.
    #[tactic(auto, using(crate::proofs::Views::marked), unfolding(rules::specs::Finish::settle_finished))]
    fn settle_finished(mut self, t: u32, i: usize) -> Run
        requires { i < self.announced }
        ensures announced { result.announced ≡ self.announced }
        ensures change { (jobs : List Job) (ss : _) → length jobs ≡ self.announced → view jobs result ss ≡ settle_finished t i (view jobs self ss) }
    {
        self.fate[i] = Fate::Finished(t);
        self
    }

    /// Row i is dropped at t.
    #[tactic(auto, using(crate::proofs::Views::marked), unfolding(rules::specs::LatestStarts::drop_row))]
    fn drop_row(mut self, t: u32, i: usize) -> Run
        requires { i < self.announced }
        ensures announced { result.announced ≡ self.announced }
        ensures change { (jobs : List Job) (ss : _) → length jobs ≡ self.announced → view jobs result ss ≡ drop_row t i (view jobs self ss) }
    {
        self.fate[i] = Fate::Dropped(t);
        self
    }

    /// Row i, with this deadline, runs; room is its laxity.
    #[tactic(auto, using(crate::proofs::Views::marked, crate::proofs::Views::row_at), unfolding(rules::specs::Announce::start))]
    fn start(mut self, t: u32, i: usize, deadline: u32) -> Run
        requires { i < self.announced }
        ensures announced { result.announced ≡ self.announced }
        ensures change { (jobs : List Job) (ss : _) → length jobs ≡ self.announced → deadline ≡ (get_or jobs i no_job).deadline → view jobs result ss ≡ start t i (view jobs self ss) }
    {
        self.fate[i] = Fate::Taken;
        // A row fits, as is proved, and 32 bits are copied faster than 64.
        self.proc = Proc::Running(i as u32);
        self.room = deadline.saturating_sub(t).saturating_sub(self.left[i]);
        self
    }

    /// The running row i is given the tick.
    #[tactic(auto, using(crate::proofs::Views::lessened), unfolding(rules::specs::Give::give_to))]
    fn give(mut self, i: usize) -> Run
        requires runs { self.proc ≡ Proc.Running i }
        requires row { i < self.announced }
        ensures announced { result.announced ≡ self.announced }
        ensures change { (jobs : List Job) (ss : _) (t : ℕ) → length jobs ≡ self.announced → view jobs result (stretch t i ss) ≡ give t (view jobs self ss) }
    {
        self.left[i] = self.left[i].saturating_sub(1);
        self
    }

    /// The row after the announced ones is announced: it waits, with its cost left.
    #[tactic(auto, using(crate::proofs::Views::appended), unfolding(rules::specs::Announce::append))]
    fn append(mut self, cost: u32) -> Run
        requires { self.announced < 64 }
        ensures announced { result.announced ≡ self.announced + 1 }
        ensures change { (jobs : List Job) (ss : _) (j : Job) → length jobs ≡ self.announced → cost ≡ j.cost → view (jobs ++ (j ∷ [])) result ss ≡ append j (view jobs self ss) }
    {
        self.left[self.announced] = cost;
        self.fate[self.announced] = Fate::Waiting;
        self.announced += 1;
        self
    }

    /// The running row r, with this cost, is delayed, and row i, with this deadline, runs.
    #[tactic(auto, using(crate::proofs::Views::marked, crate::proofs::Views::row_at, crate::proofs::Views::pushed), unfolding(rules::specs::Announce::preempt))]
    fn preempt(mut self, t: u32, r: usize, cost: u32, i: usize, deadline: u32) -> Run
        requires rows { (r < self.announced) × (i < self.announced) }
        requires depth { self.depth < 64 }
        requires held { self.held + cost < 2 ^ 32 }
        ensures announced { result.announced ≡ self.announced }
        ensures change { (jobs : List Job) (ss : _) → length jobs ≡ self.announced → cost ≡ (get_or jobs r no_job).cost → deadline ≡ (get_or jobs i no_job).deadline → view jobs result ss ≡ preempt t r i (view jobs self ss) }
    {
        let left = self.left[i];
        let laxity = deadline.saturating_sub(t).saturating_sub(left);
        // Rows fit, as is proved.
        self.delayed[self.depth] = r as u32;
        self.since[self.depth] = t;
        self.saved[self.depth] = self.room;
        self.depth += 1;
        self.held += cost;
        self.room = self.room.saturating_sub(left).min(laxity);
        self.fate[i] = Fate::Taken;
        self.proc = Proc::Running(i as u32);
        self
    }

    /// The last entry put in comes out and runs; its row has this cost.
    #[tactic(auto, using(crate::proofs::Views::job_at, crate::proofs::Views::top_of), unfolding(rules::specs::Finish::resume))]
    fn resume(mut self, t: u32, cost: u32) -> Run
        requires { 0 < self.depth }
        ensures announced { result.announced ≡ self.announced }
        ensures change { (jobs : List Job) (ss : _) (e : Entry) (rest : _) → length jobs ≡ self.announced → (view jobs self ss).delayed ≡ e ∷ rest → cost ≡ (get_or jobs e.row no_job).cost → view jobs result ss ≡ resume t e rest (view jobs self ss) }
    {
        let top = self.depth - 1;
        self.depth = top;
        self.held = self.held.saturating_sub(cost);
        self.room = self.saved[top].saturating_sub(t.saturating_sub(self.since[top]));
        self.proc = Proc::Running(self.delayed[top]);
        self
    }

    /// Row i takes over: the running job and every delayed one go to waiting, and it runs.
    #[tactic(auto, using(crate::proofs::Views::marked, crate::proofs::Views::displaced_rows, crate::proofs::Views::no_entries), unfolding(rules::specs::LatestStarts::take_over))]
    fn take_over(mut self, i: usize) -> Run
        requires { i < self.announced }
        ensures announced { result.announced ≡ self.announced }
        ensures change { (jobs : List Job) (ss : _) → length jobs ≡ self.announced → view jobs result ss ≡ take_over i (view jobs self ss) }
    {
        self.fate = displaced(self.fate);
        self.fate[i] = Fate::Taken;
        // The row fits, as is proved.
        self.proc = Proc::Running(i as u32);
        self.held = 0;
        self.room = 0;
        self.depth = 0;
        self
    }
}

/// A fate after a takeover.
fn displaced_one(fate: Fate) -> Fate
    ensures { result ≡ displaced_fate fate }
{
    match fate {
        Fate::Taken => Fate::Waiting,
        other => other,
    }
}

/// The fates after a takeover.
fn displaced(fates: [Fate; 64]) -> [Fate; 64]
    requires { length fates ≡ 64 }
    ensures { result ≡ map displaced_fate fates }
{
    fates.map(|fate| displaced_one(fate))
}
