//! The recursion of compiling. The automaton of a set-free subformula is taken from the cache, and that of a conjunction of two
//! sets from the table of such conjunctions.
ghost use Rattle.std.specs.Prelude.{◌≡◌, ◌+◌, ◌<◌, ◌≤◌, ◌^◌, length, IfOk, IfErr, OnOk, Err, true, false};
ghost use Rattle.auto_core.specs.Automaton.{Automaton};
ghost use Rattle.auto_core.specs.Integers.{DecidesIntegers};
ghost use Rattle.auto_core.specs.Reduced.{AllReached, IsReduced};
ghost use Rattle.lin_formula.specs.Tree as tree;
ghost use Rattle.lin_formula.specs.Tree.{HasStep, steps};
ghost use Rattle.lin_formula.specs.TreeOf.{tree_of};
ghost use Rattle.lin_formula.specs.SetOf.{tables, members};
ghost use Rattle.formula_auto.specs.Step.{StaysWithin};
ghost use Rattle.formula_auto.specs.Decides.{Decides};
ghost use Rattle.formula_auto.specs.Nodes.{AcceptSame};
ghost use Rattle.formula_auto.specs.Connected.{connected};
ghost use Rattle.formula_auto.specs.Compiled.{IsCompilable, IsCompiled, IsCompiledOn, IsCompileError};
ghost use Rattle.formula_auto.specs.Ready.{IsReady};
ghost use Rattle.formula_auto.specs.PlainParts.{plain_parts};
ghost use Rattle.formula_auto.specs.Recalled.{is_recalled, recalled_parts, start, MayBeOneStep};
ghost use Rattle.formula_auto.specs.MeetState.{MeetsGrow};
ghost use Rattle.formula_auto.specs.MeetState as meet_state;
ghost use Rattle.formula_auto.specs.Short as short;
ghost use Rattle.formula_auto.specs.MemoState.{IsMemoAfter, IsMemoStopped, IsKnown};
ghost use Rattle.formula_auto.specs.PartOf.{IsPart, IsRememberedOn, IsInterruptedOn};
ghost use Rattle.formula_auto.specs.Joints.{IsJointOf, FitTogether, TogetherExceed};
ghost use Rattle.formula_auto.specs.Chains.{IsExtension, and_of, IsLinkedOn};

use crate::chain::{Extension, Link, Next, as_extension};
use crate::errors::CompileError;
use crate::joint::Joint;
use crate::meet_table::MeetTable;
use crate::memo::Memo;
use crate::pair::FormulaPair;
use crate::part_auto::{PartAuto, Remembered};
use crate::plain::{has_step, is_pair, is_plain, is_short, steps_of};
use crate::shortcut::Shortcut;
use crate::standing::{PartPosition, Recall};
use crate::steps::{comparison, complement, joined, projection, value_of};
use crate::table::SetTable;
use auto_bool::{Connective, none_of};
use auto_core::Auto;
use auto_walk::Grown;
use limits::Budget;
use lin_formula::Formula;
use std::alloc::{AllocError, Global};

/// Returns the automaton of a formula: minimal, with the free variables as tracks (Büchi 1960).
/// Each `And`, `Or` and `Ex` is a step, numbered from 1 in post-order. Recurses one call per level. Errors: `Over` with the number
/// of the first step that needs more states than the budget, `Memory` if an allocation fails.
pub fn compile(
    alloc: Global,
    f: &Formula,
    sets: &SetTable,
    budget: Budget,
) -> Result<Auto, CompileError>
    requires compilable { IsCompilable (tree_of f.now) sets.now }
    requires few_steps { length (steps (tree_of f.now)) < 2 ^ 31 }
    ensures reduced { IfOk result IsReduced }
    ensures decides { IfOk result (λ a. Decides a (tree_of f.now) (members (tables sets.now))) }
    ensures integers { IfOk result DecidesIntegers }
    ensures within { OnOk result (StaysWithin (tree_of f.now) (members (tables sets.now)) budget) }
    ensures over { IfErr result (IsCompileError (tree_of f.now) (tables sets.now) 0 budget) }
{
    let mut memo = Memo::new(alloc, budget);
    let mut meets = memo.meets(alloc, sets);
    memo.whole(alloc, f, &mut meets, Recall::Nothing)
}

/// Returns whether the formula itself is looked up.
fn is_looked_up(f: &Formula, recall: Recall) -> bool
    ensures { result ≡ is_recalled recall (tree_of f.now) }
{
    match recall {
        Recall::Plain => is_plain(f),
        Recall::Nothing => false,
    }
}

/// Returns a conjunction as a pair of operands. If the second operand is a negation that is not looked up itself, both connectives
/// are one step.
fn conjunction<'a>(left: &'a Formula, right: &'a Formula, recall: Recall) -> FormulaPair<'a>
    ensures connected { connected result ≡ tree.And (tree_of left.now) (tree_of right.now) }
    ensures one_step { MayBeOneStep recall result.connective (tree_of result.right.now) }
{
    match right {
        Formula::Not(inner) => {
            if is_looked_up(right, recall) {
                return FormulaPair::new(Connective::And, left, right);
            }
            FormulaPair::new(Connective::AndNot, left, inner)
        }
        _ => FormulaPair::new(Connective::And, left, right),
    }
}

impl Memo {
    /// Compiles as the function `compile` does, with the cache's budget. The greatest set-free subformulas with steps are looked
    /// up, and stored if they are new. Recurses one call per level.
    pub fn compile(
        &mut self,
        alloc: Global,
        f: &Formula,
        sets: &SetTable,
    ) -> Result<Auto, CompileError>
        requires compilable { IsCompilable (tree_of f.now) sets.now }
        requires few_steps { length (steps (tree_of f.now)) < 2 ^ 31 }
        ensures reduced { IfOk result IsReduced }
        ensures decides { IfOk result (λ a. Decides a (tree_of f.now) (members (tables sets.now))) }
        ensures integers { IfOk result DecidesIntegers }
        ensures within { OnOk result (StaysWithin (tree_of f.now) (members (tables sets.now)) self.old.budget) }
        ensures over { IfErr result (IsCompileError (tree_of f.now) (tables sets.now) 0 self.old.budget) }
        ensures budget { self.new.budget ≡ self.old.budget }
        ensures after { OnOk result (IsMemoAfter self.old self.new (plain_parts (tree_of f.now))) }
        ensures stopped { IfErr result (IsMemoStopped self.old self.new (tree_of f.now)) }
    {
        let mut meets = self.meets(alloc, sets);
        self.whole(alloc, f, &mut meets, Recall::Plain)
    }

    /// Compiles as `Memo::compile` does, over the sets of `meets`, but does not minimize the result of the last step. The
    /// conjunction of two sets is built once for all formulas that are compiled with one `meets`.
    pub fn compile_unreduced(
        &mut self,
        alloc: Global,
        f: &Formula,
        meets: &mut MeetTable,
    ) -> Result<Auto, CompileError>
        requires compilable { IsCompilable (tree_of f.now) meets.old.sets }
        requires few_steps { length (steps (tree_of f.now)) < 2 ^ 31 }
        requires same_budget { meets.old.budget ≡ self.old.budget }
        ensures reached { IfOk result AllReached }
        ensures few { IfOk result (λ a. HasStep (tree_of f.now) → length a.accept ≤ self.old.budget) }
        ensures decides { IfOk result (λ a. Decides a (tree_of f.now) (members (tables meets.old.sets))) }
        ensures integers { IfOk result DecidesIntegers }
        ensures within { OnOk result (StaysWithin (tree_of f.now) (members (tables meets.old.sets)) self.old.budget) }
        ensures over { IfErr result (IsCompileError (tree_of f.now) (tables meets.old.sets) 0 self.old.budget) }
        ensures budget { self.new.budget ≡ self.old.budget }
        ensures after { OnOk result (IsMemoAfter self.old self.new (plain_parts (tree_of f.now))) }
        ensures stopped { IfErr result (IsMemoStopped self.old self.new (tree_of f.now)) }
        ensures same_sets { meets.new.sets ≡ meets.old.sets }
        ensures meets_budget { meets.new.budget ≡ meets.old.budget }
    {
        self.whole_on(alloc, f, meets, Recall::Plain)
    }

    /// Compiles as `compile_unreduced` does, but neither looks up nor stores subformulas: for sets that occur only once.
    pub fn compile_uncached(
        &mut self,
        alloc: Global,
        f: &Formula,
        meets: &mut MeetTable,
    ) -> Result<Auto, CompileError>
        requires compilable { IsCompilable (tree_of f.now) meets.old.sets }
        requires few_steps { length (steps (tree_of f.now)) < 2 ^ 31 }
        requires same_budget { meets.old.budget ≡ self.old.budget }
        ensures reached { IfOk result AllReached }
        ensures few { IfOk result (λ a. HasStep (tree_of f.now) → length a.accept ≤ self.old.budget) }
        ensures decides { IfOk result (λ a. Decides a (tree_of f.now) (members (tables meets.old.sets))) }
        ensures integers { IfOk result DecidesIntegers }
        ensures within { OnOk result (StaysWithin (tree_of f.now) (members (tables meets.old.sets)) self.old.budget) }
        ensures over { IfErr result (IsCompileError (tree_of f.now) (tables meets.old.sets) 0 self.old.budget) }
        ensures same { self.new ≡ self.old }
        ensures same_sets { meets.new.sets ≡ meets.old.sets }
        ensures meets_budget { meets.new.budget ≡ meets.old.budget }
    {
        self.whole_on(alloc, f, meets, Recall::Nothing)
    }

    /// Returns the minimal automaton of a whole formula.
    fn whole(
        &mut self,
        alloc: Global,
        f: &Formula,
        meets: &mut MeetTable,
        recall: Recall,
    ) -> Result<Auto, CompileError>
        requires compilable { IsCompilable (tree_of f.now) meets.old.sets }
        requires few_steps { length (steps (tree_of f.now)) < 2 ^ 31 }
        requires same_budget { meets.old.budget ≡ self.old.budget }
        ensures compiled { IfOk result (IsCompiled (tree_of f.now) (tables meets.old.sets) 0 self.old.budget) }
        ensures after { OnOk result (IsMemoAfter self.old self.new (recalled_parts recall (tree_of f.now))) }
        ensures err { IfErr result (IsInterruptedOn (tree_of f.now) (start recall) self.old self.new meets.old) }
    {
        let made = self.compiled(alloc, f, meets, PartPosition { before: 0, recall })?;
        Ok(self.taken(alloc, meets, made.part)?)
    }

    /// Returns the automaton of a whole formula.
    fn whole_on(
        &mut self,
        alloc: Global,
        f: &Formula,
        meets: &mut MeetTable,
        recall: Recall,
    ) -> Result<Auto, CompileError>
        requires compilable { IsCompilable (tree_of f.now) meets.old.sets }
        requires few_steps { length (steps (tree_of f.now)) < 2 ^ 31 }
        requires same_budget { meets.old.budget ≡ self.old.budget }
        ensures compiled { IfOk result (IsCompiledOn (tree_of f.now) (tables meets.old.sets) 0 self.old.budget) }
        ensures after { OnOk result (IsMemoAfter self.old self.new (recalled_parts recall (tree_of f.now))) }
        ensures err { IfErr result (IsInterruptedOn (tree_of f.now) (start recall) self.old self.new meets.old) }
        ensures grows { MeetsGrow meets.old meets.new }
    {
        let made = self.compiled(alloc, f, meets, PartPosition { before: 0, recall })?;
        Ok(self.finished(alloc, f, meets, made.part)?)
    }

    /// Returns the automaton of a part that is a whole formula. It is minimized if no step built it.
    fn finished(
        &self,
        alloc: Global,
        f: &Formula,
        meets: &MeetTable,
        part: PartAuto,
    ) -> Result<Auto, AllocError>
        requires { (a : Automaton) × IsPart self.now meets.now part a }
        ensures same { IfOk result (λ made. (a : Automaton) → IsPart self.now meets.now part a → AcceptSame a made) }
        ensures as_it_is { IfOk result (λ made. HasStep (tree_of f.now) → IsPart self.now meets.now part made) }
        ensures reduced { IfOk result (λ made. length (steps (tree_of f.now)) ≤ 0 → IsReduced made) }
    {
        if has_step(f) {
            return self.given(meets, part);
        }
        self.taken(alloc, meets, part)
    }

    /// Returns an automaton of a part of a formula. Only that of a cache entry is known to be minimal.
    #[cycle(compiled)]
    fn compiled(
        &mut self,
        alloc: Global,
        f: &Formula,
        meets: &mut MeetTable,
        standing: PartPosition,
    ) -> Result<Remembered, CompileError>
        requires same_budget { meets.old.budget ≡ self.old.budget }
        requires ready { IsReady (tree_of f.now) meets.old.sets }
        requires room { standing.before + length (steps (tree_of f.now)) < 2 ^ 32 }
        ensures ok { IfOk result (IsRememberedOn (tree_of f.now) standing self.old self.new meets.old meets.new) }
        ensures err { IfErr result (IsInterruptedOn (tree_of f.now) standing self.old self.new meets.old) }
        ensures grows { MeetsGrow meets.old meets.new }
    {
        if is_looked_up(f, standing.recall) {
            return self.recalled(alloc, f, meets, standing);
        }
        if is_short(f) {
            return self.shared(alloc, f, meets, standing);
        }
        if is_pair(f) {
            return self.paired(alloc, f, meets, standing);
        }
        if let Some(extension) = as_extension(f) {
            return self.chained(alloc, extension, meets, standing);
        }
        self.from_parts(alloc, f, meets, standing)
    }

    /// Returns the automaton of a set-free formula: from the cache, or built and stored.
    #[cycle(compiled)]
    fn recalled(
        &mut self,
        alloc: Global,
        f: &Formula,
        meets: &mut MeetTable,
        standing: PartPosition,
    ) -> Result<Remembered, CompileError>
        requires recalled { is_recalled standing.recall (tree_of f.now) ≡ true }
        requires same_budget { meets.old.budget ≡ self.old.budget }
        requires ready { IsReady (tree_of f.now) meets.old.sets }
        requires room { standing.before + length (steps (tree_of f.now)) < 2 ^ 32 }
        ensures ok { IfOk result (IsRememberedOn (tree_of f.now) standing self.old self.new meets.old meets.new) }
        ensures err { IfErr result (IsInterruptedOn (tree_of f.now) standing self.old self.new meets.old) }
        ensures grows { MeetsGrow meets.old meets.new }
    {
        match self.find(f) {
            Some(place) => {
                self.count();
                Ok(Remembered {
                    part: PartAuto::Kept(place),
                    done: standing.before + steps_of(f),
                })
            }
            None => self.entered(alloc, f, meets, standing),
        }
    }

    /// Builds and stores the automaton of a set-free formula. None of its parts is looked up.
    #[cycle(compiled)]
    fn entered(
        &mut self,
        alloc: Global,
        f: &Formula,
        meets: &mut MeetTable,
        standing: PartPosition,
    ) -> Result<Remembered, CompileError>
        requires recalled { is_recalled standing.recall (tree_of f.now) ≡ true }
        requires unknown { ¬ IsKnown self.old (tree_of f.now) }
        requires same_budget { meets.old.budget ≡ self.old.budget }
        requires ready { IsReady (tree_of f.now) meets.old.sets }
        requires room { standing.before + length (steps (tree_of f.now)) < 2 ^ 32 }
        ensures ok { IfOk result (IsRememberedOn (tree_of f.now) standing self.old self.new meets.old meets.new) }
        ensures err { IfErr result (IsInterruptedOn (tree_of f.now) standing self.old self.new meets.old) }
        ensures grows { MeetsGrow meets.old meets.new }
    {
        let alone = PartPosition {
            recall: Recall::Nothing,
            ..standing
        };
        let made = self.from_parts(alloc, f, meets, alone)?;
        let auto = self.taken(alloc, meets, made.part)?;
        let part = self.enter(alloc, f, auto)?;
        Ok(Remembered {
            part,
            done: made.done,
        })
    }

    /// Returns the automaton of a short formula that the cache is not used for: from the short-formula cache, or built and stored
    /// there.
    #[cycle(compiled)]
    fn shared(
        &mut self,
        alloc: Global,
        f: &Formula,
        meets: &mut MeetTable,
        standing: PartPosition,
    ) -> Result<Remembered, CompileError>
        requires not_recalled { is_recalled standing.recall (tree_of f.now) ≡ false }
        requires short { short.is_short (tree_of f.now) ≡ true }
        requires same_budget { meets.old.budget ≡ self.old.budget }
        requires ready { IsReady (tree_of f.now) meets.old.sets }
        requires room { standing.before + length (steps (tree_of f.now)) < 2 ^ 32 }
        ensures ok { IfOk result (IsRememberedOn (tree_of f.now) standing self.old self.new meets.old meets.new) }
        ensures err { IfErr result (IsInterruptedOn (tree_of f.now) standing self.old self.new meets.old) }
        ensures grows { MeetsGrow meets.old meets.new }
    {
        if let Some(auto) = self.find_short(f) {
            return Ok(Remembered {
                part: PartAuto::Shared(auto),
                done: standing.before + steps_of(f),
            });
        }
        let made = self.from_parts(alloc, f, meets, standing)?;
        let part = self.keep_short(alloc, f, meets, made.part)?;
        Ok(Remembered {
            part,
            done: made.done,
        })
    }

    /// Returns the automaton of a conjunction of two sets: from `meets`, or built and stored there. Since it names sets, no cache
    /// has it.
    #[cycle(compiled)]
    fn paired(
        &mut self,
        alloc: Global,
        f: &Formula,
        meets: &mut MeetTable,
        standing: PartPosition,
    ) -> Result<Remembered, CompileError>
        requires pair { meet_state.is_pair (tree_of f.now) ≡ true }
        requires same_budget { meets.old.budget ≡ self.old.budget }
        requires ready { IsReady (tree_of f.now) meets.old.sets }
        requires room { standing.before + length (steps (tree_of f.now)) < 2 ^ 32 }
        ensures ok { IfOk result (IsRememberedOn (tree_of f.now) standing self.old self.new meets.old meets.new) }
        ensures err { IfErr result (IsInterruptedOn (tree_of f.now) standing self.old self.new meets.old) }
        ensures grows { MeetsGrow meets.old meets.new }
    {
        if let Some(place) = meets.find(f) {
            return Ok(Remembered {
                part: PartAuto::Paired(place),
                done: standing.before + 1,
            });
        }
        let made = self.from_parts(alloc, f, meets, standing)?;
        let auto = self.given(meets, made.part)?;
        let place = meets.remember(alloc, f, auto)?;
        Ok(Remembered {
            part: PartAuto::Paired(place),
            done: made.done,
        })
    }

    /// Returns the automaton of a formula, built from those of its parts.
    #[cycle(compiled)]
    fn from_parts(
        &mut self,
        alloc: Global,
        f: &Formula,
        meets: &mut MeetTable,
        standing: PartPosition,
    ) -> Result<Remembered, CompileError>
        requires not_recalled { is_recalled standing.recall (tree_of f.now) ≡ false }
        requires same_budget { meets.old.budget ≡ self.old.budget }
        requires ready { IsReady (tree_of f.now) meets.old.sets }
        requires room { standing.before + length (steps (tree_of f.now)) < 2 ^ 32 }
        ensures ok { IfOk result (IsRememberedOn (tree_of f.now) standing self.old self.new meets.old meets.new) }
        ensures err { IfErr result (IsInterruptedOn (tree_of f.now) standing self.old self.new meets.old) }
        ensures grows { MeetsGrow meets.old meets.new }
    {
        match f {
            Formula::Lin { terms, rel, bound } => {
                let auto = comparison(alloc, terms.as_slice(), *rel, *bound)?;
                Ok(Remembered::fresh(auto, standing.before))
            }
            Formula::Value { var, value } => {
                let auto = value_of(alloc, *var, *value)?;
                Ok(Remembered::fresh(auto, standing.before))
            }
            Formula::Among { set, vars } => {
                let part = meets.membership(alloc, *set, vars.as_slice())?;
                Ok(Remembered {
                    part,
                    done: standing.before,
                })
            }
            Formula::Not(g) => {
                let inner = self.compiled(alloc, g, meets, standing)?;
                let auto = complement(alloc, self.automaton(meets, &inner.part))?;
                Ok(Remembered::fresh(auto, inner.done))
            }
            Formula::And(left, right) => {
                let pair = conjunction(left, right, standing.recall);
                self.both(alloc, pair, meets, standing)
            }
            Formula::Or(left, right) => {
                let connective = Connective::Or;
                let pair = FormulaPair {
                    connective,
                    left,
                    right,
                };
                self.both(alloc, pair, meets, standing)
            }
            Formula::Ex { var, body } => {
                let inner = self.compiled(alloc, body, meets, standing)?;
                let step = inner.done + 1;
                let auto = self.automaton(meets, &inner.part);
                match projection(alloc, *var, auto, self.budget()) {
                    Ok(auto) => Ok(Remembered::fresh(auto, step)),
                    Err(why) => Err(CompileError::at(step, why)),
                }
            }
        }
    }

    /// Returns the automaton of two combined formulas, which may be that of one of them.
    #[cycle(compiled)]
    fn both(
        &mut self,
        alloc: Global,
        pair: FormulaPair,
        meets: &mut MeetTable,
        standing: PartPosition,
    ) -> Result<Remembered, CompileError>
        requires not_recalled { is_recalled standing.recall (connected pair) ≡ false }
        requires one_step { MayBeOneStep standing.recall pair.connective (tree_of pair.right.now) }
        requires same_budget { meets.old.budget ≡ self.old.budget }
        requires ready { IsReady (connected pair) meets.old.sets }
        requires room { standing.before + length (steps (connected pair)) < 2 ^ 32 }
        ensures ok { IfOk result (IsRememberedOn (connected pair.entry) standing self.old self.new meets.old meets.new) }
        ensures err { IfErr result (IsInterruptedOn (connected pair.entry) standing self.old self.new meets.old) }
        ensures grows { MeetsGrow meets.old meets.new }
    {
        let left = self.compiled(alloc, pair.left, meets, standing)?;
        let after_left = PartPosition {
            before: left.done,
            ..standing
        };
        let right = self.compiled(alloc, pair.right, meets, after_left)?;
        let step = right.done + 1;
        let parts = (&left.part, &right.part);
        match self.combine(alloc, meets, pair.connective, parts) {
            Ok(joint) => Ok(Remembered {
                part: joint.of(left.part, right.part),
                done: step,
            }),
            Err(why) => Err(CompileError::at(step, why)),
        }
    }

    /// Returns the automaton of a chain of conjunctions.
    #[cycle(compiled)]
    fn chained(
        &mut self,
        alloc: Global,
        extension: Extension,
        meets: &mut MeetTable,
        standing: PartPosition,
    ) -> Result<Remembered, CompileError>
        requires extension { IsExtension extension }
        requires same_budget { meets.old.budget ≡ self.old.budget }
        requires ready { IsReady (and_of extension) meets.old.sets }
        requires room { standing.before + length (steps (and_of extension)) < 2 ^ 32 }
        ensures ok { IfOk result (IsRememberedOn (and_of extension.entry) standing self.old self.new meets.old meets.new) }
        ensures err { IfErr result (IsInterruptedOn (and_of extension.entry) standing self.old self.new meets.old) }
        ensures grows { MeetsGrow meets.old meets.new }
    {
        let link = self.linked(alloc, extension, meets, standing)?;
        let made = self.closed(alloc, meets, link)?;
        Ok(made)
    }

    /// Returns a chain of conjunctions, whose last operands may not be combined yet.
    #[cycle(compiled)]
    fn linked(
        &mut self,
        alloc: Global,
        extension: Extension,
        meets: &mut MeetTable,
        standing: PartPosition,
    ) -> Result<Link, CompileError>
        requires extension { IsExtension extension }
        requires same_budget { meets.old.budget ≡ self.old.budget }
        requires ready { IsReady (and_of extension) meets.old.sets }
        requires room { standing.before + length (steps (and_of extension)) < 2 ^ 32 }
        ensures ok { IfOk result (IsLinkedOn (and_of extension.entry) standing self.old self.new meets.old meets.new) }
        ensures err { IfErr result (IsInterruptedOn (and_of extension.entry) standing self.old self.new meets.old) }
        ensures grows { MeetsGrow meets.old meets.new }
    {
        let left = self.begun(alloc, extension.left, meets, standing)?;
        let after_left = PartPosition {
            before: left.done(),
            ..standing
        };
        let right = self.compiled(alloc, extension.right, meets, after_left)?;
        let next = Next {
            formula: extension.right,
            part: right.part,
            step: right.done + 1,
        };
        let link = self.lengthened(alloc, meets, left, next)?;
        Ok(link)
    }

    /// Returns the first operand of a chain.
    #[cycle(compiled)]
    fn begun(
        &mut self,
        alloc: Global,
        f: &Formula,
        meets: &mut MeetTable,
        standing: PartPosition,
    ) -> Result<Link, CompileError>
        requires same_budget { meets.old.budget ≡ self.old.budget }
        requires ready { IsReady (tree_of f.now) meets.old.sets }
        requires room { standing.before + length (steps (tree_of f.now)) < 2 ^ 32 }
        ensures ok { IfOk result (IsLinkedOn (tree_of f.now) standing self.old self.new meets.old meets.new) }
        ensures err { IfErr result (IsInterruptedOn (tree_of f.now) standing self.old self.new meets.old) }
        ensures grows { MeetsGrow meets.old meets.new }
    {
        if let Some(extension) = as_extension(f) {
            return self.linked(alloc, extension, meets, standing);
        }
        let made = self.compiled(alloc, f, meets, standing)?;
        Ok(Link::Made(made))
    }

    /// Applies the connective to two parts, within the budget. If the result equals one of the two, nothing is built.
    pub(crate) fn combine(
        &self,
        alloc: Global,
        meets: &MeetTable,
        connective: Connective,
        parts: (&PartAuto, &PartAuto),
    ) -> Result<Joint, Grown>
        requires left { (a : Automaton) × IsPart self.now meets.now parts.0.now a }
        requires right { (b : Automaton) × IsPart self.now meets.now parts.1.now b }
        requires room { FitTogether self.now meets.now parts.0.now parts.1.now }
        ensures ok { IfOk result (IsJointOf connective self.now meets.now parts.entry.0.now parts.entry.1.now) }
        ensures over { result ≡ Err Grown.Over → TogetherExceed self.now meets.now parts.entry.0.now parts.entry.1.now }
    {
        let (left, right) = parts;
        match self.shortcut(meets, connective, left, right) {
            Some(Shortcut::Operand(operand)) => Ok(Joint::Operand(operand)),
            Some(Shortcut::Nothing) => {
                let nothing = none_of(alloc, self.automaton(meets, left))?;
                Ok(Joint::Made(nothing))
            }
            None => {
                let (a, b) = self.automata(meets, left, right);
                let auto = joined(alloc, connective, a, b, self.budget())?;
                Ok(Joint::Made(auto))
            }
        }
    }
}
