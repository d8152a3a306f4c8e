//! Programs executed in sequence, one for each item of a list.
ghost use Rattle.std.specs.Prelude.{◌≡◌, [], ◌∷◌, List, ℕ, IfOk};
ghost use Rattle.set_plan.specs.Fold.{AnswersOn, StillFits, all_of};
ghost use Rattle.set_plan.specs.Program.{Program};

use crate::stop::PlanError;

/// A program for each item of a list, which continues from the value so far.
pub trait ProgramFold {
    /// The mutable state, such as the stored sets.
    type Work;

    type Item;

    type Value;
    /// The names of parts.
    type Part: Copy;

    /// What programs see of a value.
    ghost Seen: { Type 0 };

    ghost view: { Self → Self.Work → Self.Value → Seen };

    /// The program of an item.
    ghost program: { Self → Self.Work → Self.Item → Seen → Program Self.Part Seen };

    ghost budget: { Self → Self.Work → ℕ };

    /// The invariant: the value so far, and the remaining items.
    ghost fits: { Self → Self.Work → Self.Value → List Self.Item → Type 0 };

    /// What remains true from one state to a later one.
    ghost keeps: { Self → Self.Work → Self.Work → Type 0 };

    /// Returns the value after one more item. Errors: `Over` with the first step that exceeds the budget, `Memory` if an allocation
    /// fails.
    fn step(
        &self,
        work: &mut Self::Work,
        item: &Self::Item,
        so_far: Self::Value,
    ) -> Result<Self::Value, PlanError<Self::Part>>
        requires fits { (rest : List Self.Item) × fits self.now work.old so_far (item.now ∷ rest) }
        ensures answers { AnswersOn view budget program self.now work.old work.new item.now so_far result }
        ensures fits { IfOk result (StillFits (fits self.now) work.old work.new item.now so_far) }
        ensures program { program self.now work.new ≡ program self.now work.old }
        ensures budget { budget self.now work.new ≡ budget self.now work.old }
        ensures keeps { keeps self.now work.old work.new };

    ghost keeps_self: { (s : Self) (w : Self.Work) → keeps s w w };

    ghost keeps_on: { (s : Self) (u v w : Self.Work) → keeps s u v → keeps s v w → keeps s u w };
}

/// Returns the value after all items, in order. Errors: as those of `step`.
pub fn each<S: ProgramFold>(
    steps: &S,
    work: &mut S::Work,
    items: &[S::Item],
    first: S::Value,
) -> Result<S::Value, PlanError<S::Part>>
    requires fits { S.fits steps.now work.old first items.now }
    ensures answers { AnswersOn S.view S.budget (all_of S.program) steps.now work.old work.new items.now first result }
    ensures fits { IfOk result (λ value. S.fits steps.now work.new value []) }
    ensures budget { S.budget steps.now work.new ≡ S.budget steps.now work.old }
    ensures keeps { S.keeps steps.now work.old work.new }
{
    let mut value = first;
    for item in items {
        value = steps.step(work, item, value)?;
    }
    Ok(value)
}
