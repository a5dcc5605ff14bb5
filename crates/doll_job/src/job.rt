//! Jobs: a page that is rendered up to its next call of the cache.

ghost use Rattle.std.specs.Prelude.{◌≡◌, ◌≤◌, ◌+◌, ◌^◌, true, length, IfOk, IfSome, IsErr, OnOk};
ghost use Rattle.doll_table.specs.Fits.{Fits};
ghost use Rattle.doll_job.specs.Jobs as spec;

use crate::rendering::run_template;
use doll_entry::{Ask, Fetched, Fresh};
use doll_frames::{Asks, Context, Flow, Output, Scope, Stack, route_scope};
use doll_lint::checked::Checked;
use doll_route::{Found, Routes};
use doll_schema::Values;
use doll_set::LONGEST_CHAIN;
use doll_table::Rows;
use doll_text::{Bytes, Items, Memory};
use std::alloc::Global;
use std::marker::Model;

/// What a job needs to go on.
#[derive(Drop)]
pub enum Need {
    /// The fragment of a block.
    Read(Ask),
    /// Those of several blocks.
    ReadMany(Asks),
    /// That this block be kept.
    Write(Fresh),
    /// Nothing: this is the page.
    Done(Bytes),
}

/// A page that is rendered from call to call. It borrows nothing: the set and the table are handed to each step.
#[derive(Drop)]
pub struct Job {
    /// The number of the page's template, where it is there.
    template: Option<usize>,
    scope: Scope,
    out: Output,
    stack: Stack,
    /// The moment of the table, in microseconds, which is the origin of what is written.
    moment: u64,
    /// The number of the set.
    tree: u32,
    /// Whether memory ran out.
    failed: bool,
}

impl Model for Job {
    ghost use Rattle.doll_job.specs.Jobs.{JobState};

    ghost Value = { JobState };

    ghost view = { λ j. record {
      template = j.template;
      scope = j.scope;
      written = j.out;
      stopped = j.stack;
      moment = j.moment;
      tree = j.tree;
      failed = j.failed;
    } };
}

impl Job {
    /// Opens the page of the route that a path found, with these values of its parameters; none exactly where its record isn't in
    /// the table. The moment is that of the last commit before the table, in microseconds, and `tree` the number of the set.
    pub fn start<R: Rows>(
        alloc: Global,
        checked: &Checked,
        routes: &Routes,
        found: &Found,
        params: Values,
        rows: &mut R,
        moment: u64,
        tree: u32,
    ) -> Result<Option<Job>, Memory>
        requires fits { Fits checked.now.schema (R.table rows.old) }
        ensures opens { IfOk result (spec.Opens checked.now routes.now found.now params
            (R.table rows.old) moment tree) }
        ensures lives { IfOk result (λ job.
            IfSome job (spec.JobLives checked.now (R.table rows.old))) }
        ensures looks { IfOk result (λ job.
            R.looks rows.new ≤ R.looks rows.old + spec.found_looks routes.now found.now) }
        ensures table { R.table rows.new ≡ R.table rows.old }
    {
        let Some(route) = routes.route(found.route) else {
            return Ok(None);
        };
        let schema = checked.typed().schema();
        let Some(scope) = route_scope(alloc, schema, route, found.id, &params, rows)? else {
            return Ok(None);
        };
        Ok(Some(Job {
            template: checked.typed().set().number_of(route.template.as_bytes()),
            scope,
            out: Output::new(alloc),
            stack: Stack::new(alloc),
            moment,
            tree,
            failed: false,
        }))
    }

    /// Renders up to the next call, over the table that it was started with. After `Done` it answers `Done` of no bytes, and after
    /// want of memory it answers that again.
    pub fn step<R: Rows>(
        &mut self,
        alloc: Global,
        checked: &Checked,
        rows: &mut R,
    ) -> Result<Need, Memory>
        requires fits { Fits checked.now.schema (R.table rows.old) }
        requires few { length checked.now.set.templates ≤ 2 ^ 16 }
        requires lives { spec.JobLives checked.now (R.table rows.old) self.old }
        ensures next { IfOk result (spec.IsNext
            (spec.job_ground checked.now self.old (R.table rows.old)) self.old self.new
            (R.looks rows.old) (R.looks rows.new)) }
        ensures lives { OnOk result (spec.JobLives checked.now (R.table rows.old) self.new) }
        ensures failed { self.old.failed ≡ true → IsErr result }
        ensures table { R.table rows.new ≡ R.table rows.old }
    {
        if self.failed {
            return Err(Memory);
        }
        self.failed = true;
        let flow = self.carry(alloc, checked, rows)?;
        self.failed = false;
        Ok(self.need_of(alloc, flow))
    }

    /// Carries the page's template on.
    fn carry<R: Rows>(
        &mut self,
        alloc: Global,
        checked: &Checked,
        rows: &mut R,
    ) -> Result<Flow, Memory>
        requires fits { Fits checked.now.schema (R.table rows.old) }
        requires few { length checked.now.set.templates ≤ 2 ^ 16 }
        requires lives { spec.JobLives checked.now (R.table rows.old) self.old }
        ensures carried { IfOk result (spec.IsCarried
            (spec.job_ground checked.now self.old (R.table rows.old)) self.old self.new
            (R.looks rows.old) (R.looks rows.new)) }
        ensures lives { OnOk result (spec.JobLives checked.now (R.table rows.old) self.new) }
        ensures table { R.table rows.new ≡ R.table rows.old }
    {
        let Some(number) = self.template else {
            return Ok(Flow::Done);
        };
        let context = Context {
            set: checked.typed().set(),
            schema: checked.typed().schema(),
            moment: self.moment,
            tree: self.tree,
            number,
            levels: LONGEST_CHAIN,
        };
        run_template(
            alloc,
            &context,
            number,
            &mut self.scope,
            rows,
            &mut self.out,
            &mut self.stack,
        )
    }

    /// What is needed where the rendering stopped. A page that is done is given away, and nothing of it is left.
    fn need_of(&mut self, alloc: Global, flow: Flow) -> Need
        ensures need { result ≡ spec.need_at flow self.old.written }
        ensures told { self.new ≡ spec.told flow self.old }
    {
        let _answer = self.stack.take_one();
        match flow {
            Flow::Done => {
                self.template = None;
                self.stack.clear(alloc);
                let out = std::mem::replace(&mut self.out, Output::new(alloc));
                Need::Done(out.into_bytes())
            }
            Flow::Read(ask) => Need::Read(ask),
            Flow::ReadMany(asks) => Need::ReadMany(asks),
            Flow::Write(fresh) => Need::Write(fresh),
        }
    }

    /// Takes what was found of the block that was asked for. Takes no memory.
    pub fn answer(&mut self, found: Fetched)
        ensures { self.new ≡ spec.answered found self.old }
    {
        self.stack.answer(found);
    }

    /// Takes what was found of the blocks that were asked for, in their order. Takes no memory.
    pub fn answer_many(&mut self, found: Vec<Fetched>)
        ensures { self.new ≡ spec.answered_many found.items self.old }
    {
        self.stack.answer_many(Items::from_vec(found));
    }
}
