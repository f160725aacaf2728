// The six steps: numbers, and polynomials as written, in the regions of the scratch; and the step of an item that was read.
ghost use Rattle.std.specs.Prelude.{◌≡◌, true, List, Result, Err, ℕ, ◌≤◌};
ghost use Rattle.limits.specs.Limits.{text_bytes, field_terms, line_products};
ghost use Rattle.limits.specs.declared.refusal.Refusal.{Refusal};
ghost use Rattle.paper.specs.Answer.{Item};
ghost use Rattle.paper.specs.Statement.{Written, Pair, modulo, ring, input, goal, lin, del, ext, is_ring, is_variable};
ghost use Rattle.written.specs.Worded.{Holds};
ghost use Rattle.table.specs.Table.{store_of};
ghost use Rattle.scratch.specs.Scratch.{stated_at};
ghost use Rattle.sums.specs.Sums.{Summed};
ghost use Rattle.steps.specs.Parts.{StoredIs};
ghost use Rattle.steps.specs.Stepped.{Room, Stepped};
ghost use Rattle.steps.specs.Items.{Sayable, ItemIs, ItemJudged, Unread};

use super::check::{Candidate, admit, append_to_pool, check_sum, extend, reaches};
use super::said::Said;
use super::state::{INPUTS, OPENING, STEPS, State};
use limits::refusal::Refusal;
use sums::Sum;
use table::find;
use words::ring::Ring;

impl State {
    // ring k
    pub fn step_ring(&mut self, k: u32) -> Result<(), Refusal>
        requires { (is_ring (modulo k) ≡ true) × (self.old.lines ≤ text_bytes) }
        ensures { (capacity : ℕ) (pool scratch : List ℕ) → Room capacity self.old pool scratch
            → Stepped capacity (ring (modulo k)) self.old pool scratch result self.new pool scratch }
    {
        if self.phase != OPENING {
            return Err(Refusal::Order);
        }
        self.ring = k;
        self.phase = INPUTS;
        self.lines += 1;
        Ok(())
    }

    // del index
    pub fn step_del(&mut self, index: u32, pool: &mut [u64]) -> Result<(), Refusal>
        requires { (capacity : ℕ) × (scratch : List ℕ) × Room capacity self.old pool.old scratch }
        ensures { (capacity : ℕ) (scratch : List ℕ) → Room capacity self.old pool.old scratch
            → Stepped capacity (del index) self.old pool.old scratch result self.new pool.new scratch }
    {
        if self.phase != STEPS {
            return Err(Refusal::Order);
        }
        let j = find(&self.table.indices, self.table.stored, index).ok_or(Refusal::Missing)?;
        self.table.remove(j, pool);
        self.lines += 1;
        Ok(())
    }

    // What was made of a line, in the stated region, is stored under a free index.
    fn store(
        &mut self,
        index: u32,
        made: Candidate,
        reached: bool,
        pool: &mut [u64],
        scratch: &[u64],
        capacity: usize,
    ) -> Result<(), Refusal>
        requires { Room capacity self.old pool.old scratch.now × (made.terms ≤ field_terms) × (made.products ≤ line_products) }
        ensures { StoredIs capacity index made reached self.old pool.old scratch.now result self.new pool.new }
    {
        append_to_pool(&self.table, made.terms, pool, scratch, capacity)?;
        self.table.push(index, made.terms);
        let seen = made.seen;
        self.seen = seen;
        self.reached = reached;
        self.products += made.products as u64;
        self.lines += 1;
        Ok(())
    }

    // in index polynomial: the n terms of the stated region
    pub fn step_input(
        &mut self,
        index: u32,
        n: usize,
        pool: &mut [u64],
        scratch: &mut [u64],
        capacity: usize,
    ) -> Result<(), Refusal>
        requires { Room capacity self.old pool.old scratch.old × ((p : Written) × Holds p n stated_at scratch.old) }
        ensures { (p : Written) → Holds p n stated_at scratch.old
            → Stepped capacity (input index p) self.old pool.old scratch.old result self.new pool.new scratch.new }
    {
        admit(self.phase, INPUTS, &self.table, index)?;
        let ring = Ring { k: self.ring };
        let f = scratch::reduce_field(scratch, scratch::STATED, n, ring);
        let shown = f.shown;
        let made = Candidate {
            terms: f.terms,
            products: 0,
            seen: words::union(shown, self.seen),
        };
        self.store(index, made, false, pool, scratch, capacity)
    }

    // goal polynomial: the n terms of the stated region
    pub fn step_goal(&mut self, n: usize, pool: &[u64], scratch: &mut [u64]) -> Result<(), Refusal>
        requires { ((capacity : ℕ) × Room capacity self.old pool.now scratch.old)
            × ((p : Written) × Holds p n stated_at scratch.old) }
        ensures { (capacity : ℕ) → Room capacity self.old pool.now scratch.old → (p : Written) → Holds p n stated_at scratch.old
            → Stepped capacity (goal p) self.old pool.now scratch.old result self.new pool.now scratch.new }
    {
        if self.phase != INPUTS {
            return Err(Refusal::Order);
        }
        let ring = Ring { k: self.ring };
        let f = scratch::reduce_field(scratch, scratch::STATED, n, ring);
        let m = f.terms;
        scratch::copy_to_goal(scratch, m);
        self.reached = scratch::is_stored(
            &self.table.starts,
            &self.table.counts,
            self.table.stored,
            pool,
            &scratch[scratch::GOAL..],
            m,
        );
        let shown = f.shown;
        let seen = words::union(shown, self.seen);
        self.seen = seen;
        self.goal_terms = m;
        self.phase = STEPS;
        self.lines += 1;
        Ok(())
    }

    // lin index polynomial pairs: the n terms of the stated region, and the sum of the pairs
    pub fn step_lin(
        &mut self,
        index: u32,
        n: usize,
        sum: Result<Sum, Refusal>,
        pool: &mut [u64],
        scratch: &mut [u64],
        capacity: usize,
    ) -> Result<(), Refusal>
        requires { Room capacity self.old pool.old scratch.old × ((p : Written) × Holds p n stated_at scratch.old)
            × ((qs : List Pair) × Summed self.old.ring (store_of self.old.table pool.old) qs scratch.old sum) }
        ensures { (p : Written) → Holds p n stated_at scratch.old → (qs : List Pair) → Summed self.old.ring (store_of self.old.table pool.old) qs scratch.old sum
            → Stepped capacity (lin index p qs) self.old pool.old scratch.old result self.new pool.new scratch.new }
    {
        admit(self.phase, STEPS, &self.table, index)?;
        let ring = Ring { k: self.ring };
        let made = check_sum(scratch, n, ring, sum, self.seen)?;
        let reached = reaches(self.reached, scratch, made.terms, self.goal_terms);
        self.store(index, made, reached, pool, scratch, capacity)
    }

    // ext index variable polynomial: the n terms of the stated region
    pub fn step_ext(
        &mut self,
        index: u32,
        v: u32,
        n: usize,
        pool: &mut [u64],
        scratch: &mut [u64],
        capacity: usize,
    ) -> Result<(), Refusal>
        requires { Room capacity self.old pool.old scratch.old × (is_variable v ≡ true) × ((p : Written) × Holds p n stated_at scratch.old) }
        ensures { (p : Written) → Holds p n stated_at scratch.old
            → Stepped capacity (ext index v p) self.old pool.old scratch.old result self.new pool.new scratch.new }
    {
        admit(self.phase, STEPS, &self.table, index)?;
        let ring = Ring { k: self.ring };
        let made = extend(scratch, n, v as usize, ring, self.seen)?;
        let reached = reaches(self.reached, scratch, made.terms, self.goal_terms);
        self.store(index, made, reached, pool, scratch, capacity)
    }

    // The step of what an item says, or the refusal of an item that was not read.
    pub fn judge(
        &mut self,
        said: Result<Said, Refusal>,
        pool: &mut [u64],
        scratch: &mut [u64],
        capacity: usize,
    ) -> Result<(), Refusal>
        requires { Room capacity self.old pool.old scratch.old × Sayable self.old.ring (store_of self.old.table pool.old) scratch.old said }
        ensures judged { (i : Item) (words : List ℕ) → ItemIs self.old.ring (store_of self.old.table pool.old) i words scratch.old said
            → ItemJudged capacity i self.old pool.old words result self.new pool.new scratch.new }
        ensures unread { (why : Refusal) → said ≡ Err why → Unread why self.old pool.old scratch.old result self.new pool.new scratch.new }
    {
        match said? {
            Said::Ring(k) => self.step_ring(k),
            Said::Input(i, n) => self.step_input(i, n, pool, scratch, capacity),
            Said::Goal(n) => self.step_goal(n, pool, scratch),
            Said::Lin(i, n, sum) => self.step_lin(i, n, sum, pool, scratch, capacity),
            Said::Del(i) => self.step_del(i, pool),
            Said::Ext(i, v, n) => self.step_ext(i, v, n, pool, scratch, capacity),
        }
    }
}
