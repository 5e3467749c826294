// What a cycle has done so far, beside the store. Only what the next state asks for is kept.
ghost use Rattle.std.specs.Prelude.{◌||◌, List, [], ◌∷◌, ◌++◌, ◌≡◌, ℕ, suc, ◌+◌, min};
ghost use Rattle.language.specs.Acting as T;
ghost use Rattle.language.specs.Value.{bit};
ghost use Rattle.store_layout.specs.InBytes.{bytes};
ghost use Rattle.run_stores.specs.Seen.{Follows, named, states_seen};

use run_references::worth::Halted;

// Of the states named so far the first, and whether there is none, one or more.
#[derive(Clone, Copy)]
pub struct Named {
    pub first: u16,
    pub count: u8,
}

// The states gone to and called, returns counted up to two, whether a delayed store went to the sequencing register, and conflicts as far as 32 bits count.
#[derive(Clone, Copy)]
pub struct Doing {
    pub gotos: Named,
    pub returns: u8,
    pub calls: Named,
    pub sequenced: bool,
    pub conflicts: u32,
}

// What an action has come to: what the cycle has done then, or why it goes no further.
pub type Did = Result<Doing, Halted>;

// One more, up to two.
fn counted(n: u8) -> u8
    ensures { result ≡ min (suc n) 2 }
{
    n.saturating_add(1).min(2)
}

// One conflict more, where there is one.
fn conflicting(n: u32, hit: bool) -> u32
    ensures { result ≡ min (n + bit hit) 4294967295 }
{
    n.saturating_add(u32::from(hit))
}

impl Named {
    // One state more.
    fn and(self, s: u16) -> Named
        ensures { (ss : List ℕ) → named self ≡ states_seen ss → named result ≡ states_seen (ss ++ s ∷ []) }
    {
        if self.count == 0 {
            return Named { first: s, count: 1 };
        }
        Named { count: 2, ..self }
    }
}

impl Doing {
    // -> s.
    pub fn going_to(self, s: u16) -> Doing
        ensures { Follows self result (λ d c. T.going_to (bytes d) d s c) }
    {
        Doing {
            gotos: self.gotos.and(s),
            ..self
        }
    }

    // => s.
    pub fn calling(self, s: u16) -> Doing
        ensures { Follows self result (λ d c. T.calling (bytes d) d s c) }
    {
        Doing {
            calls: self.calls.and(s),
            ..self
        }
    }

    // RETURN.
    pub fn returning(self) -> Doing
        ensures { Follows self result (λ d c. T.returning (bytes d) d c) }
    {
        Doing {
            returns: counted(self.returns),
            ..self
        }
    }

    // After a delayed store: whether it conflicts, and whether it went to the sequencing register.
    pub fn delaying(self, hit: bool, sequenced: bool) -> Doing
        ensures { result ≡ record { gotos = self.gotos; returns = self.returns; calls = self.calls; sequenced = self.sequenced || sequenced; conflicts = min (self.conflicts + bit hit) 4294967295 } }
    {
        Doing {
            sequenced: self.sequenced || sequenced,
            conflicts: conflicting(self.conflicts, hit),
            ..self
        }
    }
}
