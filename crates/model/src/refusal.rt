// Why a call of a draft or a working model is refused.
use crate::part::UnknownPart;
use simplex::simplex::makes::NotRising;

#[derive(Clone, Copy, Debug, PartialEq, Eq)]
pub enum ModelRefusal {
    // the part is not one of those the call takes
    Part,
    // not one to four vertices in strictly rising order
    Vertices,
    // a vertex is not below the range
    Range,
    // the simplex is held already
    Held,
    // the store is full
    Full,
    // a mark on an absent simplex
    Absent,
}

impl From<UnknownPart> for ModelRefusal {
    ghost use Rattle.std.specs.Prelude.{◌≡◌};
    ghost use Rattle.model.specs.declared.refusal.ModelRefusal.TheVariants.{Part};

    ghost from_gives = { λ _ r. r ≡ Part };

    fn from(_: UnknownPart) -> ModelRefusal {
        Self::Part
    }
}

impl From<NotRising> for ModelRefusal {
    ghost use Rattle.std.specs.Prelude.{◌≡◌};
    ghost use Rattle.model.specs.declared.refusal.ModelRefusal.TheVariants.{Vertices};

    ghost from_gives = { λ _ r. r ≡ Vertices };

    fn from(_: NotRising) -> ModelRefusal {
        Self::Vertices
    }
}

// The number of the refusal.
impl From<ModelRefusal> for u8 {
    ghost use Rattle.std.specs.Prelude.{◌≡◌};
    ghost use Rattle.model.specs.Calls.{model_number};

    ghost from_gives = { λ r n. n ≡ model_number r };

    fn from(refusal: ModelRefusal) -> u8 {
        match refusal {
            ModelRefusal::Part => 1,
            ModelRefusal::Vertices => 2,
            ModelRefusal::Range => 3,
            ModelRefusal::Held => 21,
            ModelRefusal::Full => 22,
            ModelRefusal::Absent => 23,
        }
    }
}
