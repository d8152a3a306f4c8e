//! The interface of a walk.
ghost use Rattle.std.specs.Prelude.{◌≡◌, ◌<◌, ◌^◌, [], List, ℕ, length, IfOk};
ghost use Rattle.letter_diagram.specs.declared.diagrams.Shape.{Shape};
ghost use Rattle.letter_diagram.specs.Diagram.{Grows};
ghost use Rattle.auto_walk.specs.Walker.{Walker, AreTracks};
ghost use Rattle.auto_walk.specs.Rows.{AreNumbered, Extends, IsFirstRowIn, IsNextRowIn, IsFlagOf};

use letter_diagram::{Diagrams, Node};
use std::alloc::AllocError;
use track_word::Var;

/// Places: a first one for each sign letter, and a next one for each place and further letter.
/// A walk numbers places in the order of their discovery, and returns rows of their numbers as nodes of one `Diagrams`. Contracts
/// see a place as a list of numbers, such as a pair of states, one state, or a set of states.
pub trait Walk: Drop {
    ghost walker: { Self → Walker };

    ghost places: { Self → List (List ℕ) };

    ghost shapes: { Self → List Shape };

    /// Returns the tracks of the words in ascending order.
    fn tracks(&self) -> &[Var]
        ensures tracks { result.now ≡ (walker self.now).tracks }
        ensures valid { AreTracks (walker self.now).tracks };

    /// Returns the number of numbered places.
    fn count(&self) -> usize
        ensures { result ≡ length (places self.now) };

    /// Returns the node that maps each sign letter to the number of its place. Numbers new places. Errors: an allocation failed.
    fn first_row(&mut self) -> Result<Node, AllocError>
        requires { places self.old ≡ [] }
        ensures row { IfOk result (IsFirstRowIn walker shapes places self.old self.new) }
        ensures walker { walker self.new ≡ walker self.old };

    /// Returns the node that maps each further letter to the number of the next place after a numbered one. Numbers new places.
    /// Errors: an allocation failed.
    fn next_row(&mut self, number: u32) -> Result<Node, AllocError>
        requires numbered { AreNumbered (walker self.old) (places self.old) }
        requires known { number < length (places self.old) }
        requires room { length (places self.old) < 2 ^ 31 }
        ensures row { IfOk result (IsNextRowIn walker shapes places self.old self.new number) }
        ensures kept { Extends (places self.old) (places self.new) }
        ensures grows { Grows (shapes self.old) (shapes self.new) }
        ensures walker { walker self.new ≡ walker self.old };

    /// Returns whether a numbered place accepts.
    fn is_final(&self, number: u32) -> bool
        requires numbered { AreNumbered (walker self.now) (places self.now) }
        requires known { number < length (places self.now) }
        ensures { IsFlagOf (walker self.now) (places self.now) number result };

    /// Returns the diagrams whose nodes are the rows.
    fn into_diagrams(self) -> Diagrams
        ensures { result ≡ shapes self };
}
