// The object, the entries of its history, and what a pass knows of them.
ghost use Rattle.std.specs.Prelude.{◌≡◌, ◌∷◌, ◌++◌, [], List, ℕ};
ghost use Rattle.turn_lock.specs.declared.object.Entry.{Entry};
ghost use Rattle.turn_lock.specs.History.{entry};

use std::collections::LinkedList;

/// One call in a history. No value of it is made.
pub struct Entry<A, B> {
    /// The number of the caller.
    pub caller: LinkedList<u64>,
    pub ask: A,
    pub answer: B,
}

/// An object whose answers follow from the calls so far.
///
/// `stands opening object log` says what the object stands for: it has come from `opening` by the calls of `log`, each
/// with its answer. What of the opening it reads, such as a state and a count of faults, is the object's own to say.
pub trait Object: Drop {
    type Ask;

    type Answer;

    ghost stands: { Self → Self → List (Entry Self.Ask Self.Answer) → Type 0 };

    /// Answers one more call, of any caller.
    fn act(&mut self, ask: &Self::Ask) -> Self::Answer
        ensures { (opening : Self) → (log : List (Entry Self.Ask Self.Answer)) → (by : List ℕ) → stands opening self.old log
            → stands opening self.new (log ++ entry by ask.now result ∷ []) };

    // Each object stands for no calls from its own present opening.
    ghost begins: { (o : Self) → stands o o [] };
}

/// A caller: its number, how many passes were split from its pass, and its calls. No value of it is made.
pub struct Caller<A, B> {
    pub number: LinkedList<u64>,
    pub children: u64,
    pub calls: LinkedList<Entry<A, B>>,
}

/// What a pass knows. No value of it is made.
pub struct View<O, A, B> {
    /// The object as the lock was made round it; a pass that was met has none.
    pub opening: Option<O>,
    /// The ticket that was drawn, if there is one.
    pub ticket: Option<u64>,
    /// Whether it is this pass's turn.
    pub turn: bool,
    /// The history as far as it was seen.
    pub seen: LinkedList<Entry<A, B>>,
    /// What a pass that was met had seen, until the longer history is found.
    pub told: LinkedList<Entry<A, B>>,
    /// The pass's own caller, then those of the passes that it met.
    pub callers: LinkedList<Caller<A, B>>,
}
