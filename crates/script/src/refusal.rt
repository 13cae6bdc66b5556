// Why a line or the load is answered with a refusal.
ghost use Rattle.std.specs.Prelude.{◌≡◌};
ghost use Rattle.script.specs.declared.refusal.ScriptRefusal.TheVariants.{Line, Model as OfModel, Load};
ghost use Rattle.script.specs.Text.{script_number};

use crate::lines::UnreadableLine;
use file::refusal::FileRefusal;
use model::refusal::ModelRefusal;

// A refusal of the script itself, or one of the levels below, carried whole.
#[derive(Debug, Clone, Copy, PartialEq, Eq)]
pub enum ScriptRefusal {
    // the line is unreadable
    Line,
    Model(ModelRefusal),
    Load(FileRefusal),
}

impl From<UnreadableLine> for ScriptRefusal {
    ghost from_gives = { λ _ refusal. refusal ≡ Line };

    fn from(_line: UnreadableLine) -> ScriptRefusal {
        ScriptRefusal::Line
    }
}

impl From<ModelRefusal> for ScriptRefusal {
    ghost from_gives = { λ model refusal. refusal ≡ OfModel model };

    fn from(model: ModelRefusal) -> ScriptRefusal {
        ScriptRefusal::Model(model)
    }
}

impl From<FileRefusal> for ScriptRefusal {
    ghost from_gives = { λ load refusal. refusal ≡ Load load };

    fn from(load: FileRefusal) -> ScriptRefusal {
        ScriptRefusal::Load(load)
    }
}

// The number of a refusal.
impl From<ScriptRefusal> for u8 {
    ghost from_gives = { λ refusal number. number ≡ script_number refusal };

    fn from(refusal: ScriptRefusal) -> u8 {
        match refusal {
            ScriptRefusal::Line => 8,
            ScriptRefusal::Model(refusal) => u8::from(refusal),
            ScriptRefusal::Load(refusal) => u8::from(refusal),
        }
    }
}
