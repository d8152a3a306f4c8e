//! The tables of an automaton, and the words that it accepts.
ghost use Rattle.std.specs.Prelude.{◌≡◌, ◌↔◌, ◌<◌, ◌^◌, length, IsTrue};
ghost use Rattle.track_word.specs.Word.{IsWord};
ghost use Rattle.auto_core.specs.Automaton.{first_state, next_state, is_final, Accepts};

use crate::auto::Auto;

impl Auto {
    /// Returns the state reached by a sign letter.
    pub fn first_of(&self, letter: u32) -> u32
        requires { letter < 2 ^ length self.now.tracks }
        ensures state { result ≡ first_state self.now letter }
        ensures within { result < length self.now.accept }
    {
        self.diagrams().read(self.first_node(), letter)
    }

    /// Returns the state reached from a state by a further letter.
    pub fn next_of(&self, state: u32, letter: u32) -> u32
        requires known { state < length self.now.accept }
        requires letter { letter < 2 ^ length self.now.tracks }
        ensures state { result ≡ next_state self.now state letter }
        ensures within { result < length self.now.accept }
    {
        self.diagrams().read(self.row_node(state), letter)
    }

    /// Returns the accept flag of a state.
    pub fn accept_of(&self, state: u32) -> bool
        requires { state < length self.now.accept }
        ensures { result ≡ is_final self.now state }
    {
        self.flags()[state as usize]
    }

    /// Returns whether a nonempty word is accepted. Costs one lookup for each letter.
    pub fn accepts(&self, word: &[u32]) -> bool
        requires { IsWord (length self.now.tracks) word.now }
        ensures { IsTrue result ↔ Accepts self.now word.now }
    {
        let _ = self.tracks(); // for its invariant
        let mut state = self.first_of(word[0]);
        for letter in &word[1..] {
            state = self.next_of(state, *letter);
        }
        self.accept_of(state)
    }
}
