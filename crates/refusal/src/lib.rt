// Why a call is refused, and document 01's number of each refusal.
#![tactic(auto)]

ghost use Rattle.std.specs.Prelude.{◌≡◌, ℕ, refl};
ghost use Rattle.refusal.specs.declared.Refusal.{Refusal};
ghost use Rattle.refusal.specs.Refusal.{refusal_number};

// In the order of their numbers, which the compiler then needs no table for.
#[derive(Clone, Copy, Debug, PartialEq, Eq)]
pub enum Refusal {
    WrongSize = 1,
    WrongMark = 2,
    WrongParty = 3,
    NotValid = 4,
    Busy = 5,
    Idle = 6,
    WrongOrder = 7,
    Outside = 8,
    CounterAtEnd = 9,
    NoPlace = 10,
    WrongOperation = 11,
    NotShaped = 12,
}

impl Refusal {
    // Document 01's number.
    pub fn number(self) -> u32
        ensures { result ≡ refusal_number self }
    {
        self as u32
    }
}

// A reason to refuse a call: a `Refusal`, or any number, also one that document 01 does not have.
pub trait Reason: Copy {
    ghost number_told: { Self → ℕ };

    ghost reason_of: { Refusal → Self };

    fn told(self) -> u32
        ensures { result ≡ number_told self };

    fn from_refusal(refusal: Refusal) -> Self
        ensures { result ≡ reason_of refusal };

    // A refusal keeps its number.
    ghost keeps: { (refusal : Refusal) → number_told (reason_of refusal) ≡ refusal_number refusal };
}

impl Reason for Refusal {
    ghost number_told = { refusal_number };

    ghost reason_of = { λ refusal. refusal };

    ghost keeps = { λ refusal. refl };

    fn told(self) -> u32 {
        self.number()
    }

    fn from_refusal(refusal: Refusal) -> Refusal {
        refusal
    }
}

impl Reason for u32 {
    ghost number_told = { λ number. number };

    ghost reason_of = { refusal_number };

    ghost keeps = { λ refusal. refl };

    fn told(self) -> u32 {
        self
    }

    fn from_refusal(refusal: Refusal) -> u32 {
        refusal.number()
    }
}
