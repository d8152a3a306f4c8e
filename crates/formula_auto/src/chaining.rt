//! How a chain of conjunctions is extended and built. As long as the budget has room for all tuples of states of its operands, none
//! of its steps can exceed the budget; the short formulas at its end are then combined first.
ghost use Rattle.std.specs.Prelude.{◌≡◌, ℕ, ◌*◌, ◌<◌, ◌≤◌, ◌^◌, IfOk, IfErr, IfSome, IsTrue};
ghost use Rattle.auto_core.specs.Automaton.{Automaton};
ghost use Rattle.lin_formula.specs.Tree as tree;
ghost use Rattle.lin_formula.specs.Tree.{Tree};
ghost use Rattle.lin_formula.specs.SetOf.{SetOf};
ghost use Rattle.lin_formula.specs.TreeOf.{tree_of};
ghost use Rattle.formula_auto.specs.Short.{IsShortPart};
ghost use Rattle.formula_auto.specs.MemoState.{IsMemo};
ghost use Rattle.formula_auto.specs.PartOf.{IsPart};
ghost use Rattle.formula_auto.specs.Chains.{IsPending, IsLink, IsMadePart, IsMadeLink, TakesNext, IsNextLink, IsNextStopped, IsLonger, IsBegunWith, HasStates, HaveRoom};
ghost use Rattle.formula_auto.specs.Joints.{FitTogether, IsJointOf};

use crate::chain::{Link, Next, Pending, ShortPart};
use crate::errors::CompileError;
use crate::joint::Joint;
use crate::meet_table::MeetTable;
use crate::memo::Memo;
use crate::part_auto::{PartAuto, Remembered};
use crate::steps::joined;
use auto_bool::Connective;
use auto_core::Auto;
use auto_walk::Grown;
use lin_formula::{Formula, and, copy};
use std::alloc::{AllocError, Global};

/// Short formulas are combined only if the product of their automata's state counts is at most this.
const MOST_TOGETHER: u64 = 72;

/// They are combined only if the other operand has at least this many times as many states.
const LEAST_TIMES: u64 = 4;

impl Memo {
    /// Returns the automaton of a chain.
    pub(crate) fn closed(
        &self,
        alloc: Global,
        meets: &MeetTable,
        link: Link,
    ) -> Result<Remembered, AllocError>
        requires { (f : Tree) × (e : ℕ → SetOf) × IsLink f e self.now meets.now link }
        ensures { IfOk result (IsMadeLink self.now meets.now link) }
    {
        match link {
            Link::Made(made) => Ok(made),
            Link::Waiting(pending) => {
                let done = pending.done;
                let part = self.put_to_base(alloc, meets, pending)?;
                Ok(Remembered { part, done })
            }
        }
    }

    /// Returns the automaton of the base and the combined short formulas.
    fn put_to_base(
        &self,
        alloc: Global,
        meets: &MeetTable,
        pending: Pending,
    ) -> Result<PartAuto, AllocError>
        requires { (f : Tree) × (e : ℕ → SetOf) × IsPending f e self.now meets.now pending }
        ensures { IfOk result (IsMadePart self.now meets.now pending) }
    {
        let parts = (&pending.base, &pending.rest.part);
        match self.combine(alloc, meets, Connective::And, parts) {
            Ok(joint) => Ok(joint.of(pending.base, pending.rest.part)),
            Err(Grown::Memory) => Err(AllocError),
            Err(Grown::Over) => unreachable!(),
        }
    }

    /// Extends a chain by one formula. The conjunction is known to be within the budget and is postponed, or it is built.
    pub(crate) fn lengthened(
        &mut self,
        alloc: Global,
        meets: &MeetTable,
        left: Link,
        next: Next,
    ) -> Result<Link, CompileError>
        requires left { TakesNext self.old meets.now left (tree_of next.formula.now) }
        requires short { IsShortPart self.old meets.now (tree_of next.formula.now) next.part }
        ensures same { self.new ≡ self.old }
        ensures ok { IfOk result
            (IsNextLink self.old meets.now left (tree_of next.entry.formula.now) next.entry.step) }
        ensures err { IfErr result
            (IsNextStopped self.old meets.now left (tree_of next.entry.formula.now) next.entry.step) }
    {
        match left {
            Link::Made(made) => self.put_next(alloc, meets, made, next),
            Link::Waiting(pending) => self.prolonged(alloc, meets, pending, next),
        }
    }

    /// Extends a postponed chain by one formula: the formula is combined with the short ones, or the chain is built first.
    fn prolonged(
        &mut self,
        alloc: Global,
        meets: &MeetTable,
        pending: Pending,
        next: Next,
    ) -> Result<Link, CompileError>
        requires left { TakesNext self.old meets.now (Link.Waiting pending) (tree_of next.formula.now) }
        requires short { IsShortPart self.old meets.now (tree_of next.formula.now) next.part }
        ensures same { self.new ≡ self.old }
        ensures ok { IfOk result
            (IsNextLink self.old meets.now (Link.Waiting pending) (tree_of next.entry.formula.now) next.entry.step) }
        ensures err { IfErr result
            (IsNextStopped self.old meets.now (Link.Waiting pending) (tree_of next.entry.formula.now) next.entry.step) }
    {
        match self.longer(alloc, meets, &pending, &next)? {
            Some(rest) => Ok(Link::Waiting(Pending {
                base: pending.base,
                rest,
                done: next.step,
            })),
            None => {
                let made = self.closed(alloc, meets, Link::Waiting(pending))?;
                self.put_next(alloc, meets, made, next)
            }
        }
    }

    /// Extends a formula with an automaton by one formula.
    fn put_next(
        &self,
        alloc: Global,
        meets: &MeetTable,
        left: Remembered,
        next: Next,
    ) -> Result<Link, CompileError>
        requires left { TakesNext self.now meets.now (Link.Made left) (tree_of next.formula.now) }
        requires short { IsShortPart self.now meets.now (tree_of next.formula.now) next.part }
        ensures ok { IfOk result
            (IsNextLink self.now meets.now (Link.Made left) (tree_of next.entry.formula.now) next.entry.step) }
        ensures err { IfErr result
            (IsNextStopped self.now meets.now (Link.Made left) (tree_of next.entry.formula.now) next.entry.step) }
    {
        let base = self.states_of(meets, &left.part);
        let own = self.states_of(meets, &next.part);
        if self.pays(base, own) {
            return Ok(begun_with(alloc, left.part, next)?);
        }
        self.put_at_once(alloc, meets, left, next)
    }

    /// Performs the step at once.
    fn put_at_once(
        &self,
        alloc: Global,
        meets: &MeetTable,
        left: Remembered,
        next: Next,
    ) -> Result<Link, CompileError>
        requires left { TakesNext self.now meets.now (Link.Made left) (tree_of next.formula.now) }
        requires short { IsShortPart self.now meets.now (tree_of next.formula.now) next.part }
        ensures ok { IfOk result
            (IsNextLink self.now meets.now (Link.Made left) (tree_of next.entry.formula.now) next.entry.step) }
        ensures err { IfErr result
            (IsNextStopped self.now meets.now (Link.Made left) (tree_of next.entry.formula.now) next.entry.step) }
    {
        let Next {
            formula: _,
            part,
            step,
        } = next;
        match self.combine(alloc, meets, Connective::And, (&left.part, &part)) {
            Ok(joint) => Ok(Link::Made(Remembered {
                part: joint.of(left.part, part),
                done: step,
            })),
            Err(why) => Err(CompileError::at(step, why)),
        }
    }

    /// Returns the short formulas of a chain with one more, if the budget has room for the product with the base and if that is
    /// faster.
    fn longer(
        &mut self,
        alloc: Global,
        meets: &MeetTable,
        pending: &Pending,
        next: &Next,
    ) -> Result<Option<ShortPart>, AllocError>
        requires left { TakesNext self.old meets.now (Link.Waiting pending.now) (tree_of next.now.formula.now) }
        requires short { IsShortPart self.old meets.now (tree_of next.now.formula.now) next.now.part }
        ensures same { self.new ≡ self.old }
        ensures longer { IfOk result
            (λ some. IfSome some (IsLonger self.old meets.now pending.now (tree_of next.now.formula.now))) }
    {
        let base = self.states_of(meets, &pending.base);
        let few = self.states_of(meets, &pending.rest.part);
        let own = few * self.states_of(meets, &next.part);
        if !self.pays(base, own) {
            return Ok(None);
        }
        let rest = self.together(alloc, meets, &pending.rest, next)?;
        let own = self.states_of(meets, &rest.part);
        if !self.pays(base, own) {
            return Ok(None);
        }
        Ok(Some(rest))
    }

    /// Returns the conjunction of two short formulas, from the short-formula cache, or built and stored there.
    fn together(
        &mut self,
        alloc: Global,
        meets: &MeetTable,
        rest: &ShortPart,
        next: &Next,
    ) -> Result<ShortPart, AllocError>
        requires rest { IsShortPart self.old meets.now (tree_of rest.now.formula) rest.now.part }
        requires short { IsShortPart self.old meets.now (tree_of next.now.formula.now) next.now.part }
        requires fits { FitTogether self.old meets.now rest.now.part next.now.part }
        requires room { HaveRoom self.old meets.now rest.now.part next.now.part }
        ensures same { self.new ≡ self.old }
        ensures formula { IfOk result
            (λ made. tree_of made.formula ≡ tree.And (tree_of rest.now.formula) (tree_of next.now.formula.now)) }
        ensures short { IfOk result (λ made. IsShortPart self.new meets.now (tree_of made.formula) made.part) }
    {
        let formula = and_copied(alloc, &rest.formula, next.formula)?;
        if let Some(auto) = self.find_short(&formula) {
            let part = PartAuto::Shared(auto);
            return Ok(ShortPart { formula, part });
        }
        let auto = self.all_pairs(alloc, meets, &rest.part, &next.part)?;
        let part = self.keep_short(alloc, &formula, meets, PartAuto::Fresh(auto))?;
        Ok(ShortPart { formula, part })
    }

    /// Returns the conjunction of two parts whose pairs of states fit into the budget.
    fn all_pairs(
        &self,
        alloc: Global,
        meets: &MeetTable,
        left: &PartAuto,
        right: &PartAuto,
    ) -> Result<Auto, AllocError>
        requires left { (a : Automaton) × IsPart self.now meets.now left.now a }
        requires right { (b : Automaton) × IsPart self.now meets.now right.now b }
        requires fits { FitTogether self.now meets.now left.now right.now }
        requires room { HaveRoom self.now meets.now left.now right.now }
        ensures { IfOk result (λ c. IsJointOf Connective.And self.now meets.now left.now right.now (Joint.Made c)) }
    {
        let (a, b) = self.automata(meets, left, right);
        match joined(alloc, Connective::And, a, b, self.budget()) {
            Ok(auto) => Ok(auto),
            Err(Grown::Memory) => Err(AllocError),
            Err(Grown::Over) => unreachable!(),
        }
    }

    /// Returns the number of states of a part's automaton.
    fn states_of(&self, meets: &MeetTable, part: &PartAuto) -> u64
        requires { (a : Automaton) × IsPart self.now meets.now part.now a }
        ensures is { (a : Automaton) → IsPart self.now meets.now part.now a → HasStates a result }
        ensures few { result < 2 ^ 31 }
    {
        u64::from(self.automaton(meets, part).states())
    }

    /// Returns whether it is faster to postpone a conjunction with an automaton of this many states: they are few, also compared
    /// with the base, and the budget has room for all pairs.
    fn pays(&self, base: u64, own: u64) -> bool
        requires { base < 2 ^ 31 }
        ensures room { IsTrue result → base * own ≤ self.now.budget }
        ensures valid { IsMemo self.now }
    {
        let most = u64::from(self.budget().states());
        own <= MOST_TOGETHER && LEAST_TIMES * own <= base && base * own <= most
    }
}

/// Returns the chain that starts with a formula with an automaton and a short one.
fn begun_with(alloc: Global, base: PartAuto, next: Next) -> Result<Link, AllocError>
    ensures { IfOk result (λ link. IsBegunWith base (tree_of next.entry.formula.now) next.entry.part next.entry.step link) }
{
    let rest = ShortPart {
        formula: copy(alloc, next.formula)?,
        part: next.part,
    };
    let done = next.step;
    Ok(Link::Waiting(Pending { base, rest, done }))
}

/// Returns the conjunction of copies of two formulas.
fn and_copied(alloc: Global, left: &Formula, right: &Formula) -> Result<Formula, AllocError>
    ensures { IfOk result (λ made. tree_of made ≡ tree.And (tree_of left.now) (tree_of right.now)) }
{
    match and(alloc, copy(alloc, left)?, copy(alloc, right)?) {
        Ok(made) => Ok(made),
        Err(_) => Err(AllocError),
    }
}
