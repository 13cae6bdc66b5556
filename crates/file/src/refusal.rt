// Why a load is refused, and where.
ghost use Rattle.std.specs.Prelude.{◌≡◌};
ghost use Rattle.file.specs.Load.{cause_number, file_number};
ghost use Rattle.file.specs.declared.refusal.Cause.TheVariants.{Flaw as flaw_cause, Model as model_cause};
ghost use Rattle.file.specs.declared.refusal.FileRefusal.TheVariants.{At};

use crate::entry::Site;
use crate::flaw::{Flaw, Flawed};
use model::refusal::ModelRefusal;

// What stopped a load: a flaw of the file, or a refusal of the model, carried whole.
#[derive(Debug, Clone, Copy, PartialEq, Eq)]
pub enum Cause {
    Flaw(Flaw),
    Model(ModelRefusal),
}

// Where in the file a load stopped, and why.
#[derive(Debug, Clone, Copy, PartialEq, Eq)]
pub struct Stopped {
    pub site: Site,
    pub cause: Cause,
}

#[derive(Debug, Clone, Copy, PartialEq, Eq)]
pub enum FileRefusal {
    // the draft holds something
    Occupied,
    // the load stopped in the file
    At(Stopped),
}

impl From<Flaw> for Cause {
    ghost from_gives = { λ flaw cause. cause ≡ flaw_cause flaw };

    fn from(flaw: Flaw) -> Cause {
        Cause::Flaw(flaw)
    }
}

impl From<ModelRefusal> for Cause {
    ghost from_gives = { λ refusal cause. cause ≡ model_cause refusal };

    fn from(refusal: ModelRefusal) -> Cause {
        Cause::Model(refusal)
    }
}

impl From<Flawed> for Stopped {
    ghost from_gives = { λ flawed stopped. stopped ≡ record { site = flawed.site; cause = flaw_cause flawed.flaw } };

    fn from(flawed: Flawed) -> Stopped {
        Stopped {
            site: flawed.site,
            cause: Cause::from(flawed.flaw),
        }
    }
}

impl From<Stopped> for FileRefusal {
    ghost from_gives = { λ stopped refusal. refusal ≡ At stopped };

    fn from(stopped: Stopped) -> FileRefusal {
        FileRefusal::At(stopped)
    }
}

// The number of the refusal.
impl From<Cause> for u8 {
    ghost from_gives = { λ cause number. number ≡ cause_number cause };

    fn from(cause: Cause) -> u8 {
        match cause {
            Cause::Flaw(flaw) => u8::from(flaw),
            Cause::Model(refusal) => u8::from(refusal),
        }
    }
}

// The number of the refusal.
impl From<FileRefusal> for u8 {
    ghost from_gives = { λ refusal number. number ≡ file_number refusal };

    fn from(refusal: FileRefusal) -> u8 {
        match refusal {
            FileRefusal::Occupied => 29,
            FileRefusal::At(stopped) => u8::from(stopped.cause),
        }
    }
}
