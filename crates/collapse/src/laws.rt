// The laws of collapse and split.
ghost use Rattle.collapse.specs.Laws.{CollapseKeepsEuler, CollapseKeepsLegal, ImageMasks, ImageRule, ImageUnique, MadeKeeps, SplitInverts, UntiedIsExact};

// The collapse follows the image rule.
pub fn image_rule()
    ensures { ImageRule }
{}

// The image rule leaves no choice.
pub fn image_unique()
    ensures { ImageUnique }
{}

// Which masks the simplexes have after a collapse.
pub fn image_masks()
    ensures { ImageMasks }
{}

// A collapse keeps a model legal.
pub fn collapse_keeps_legal()
    ensures { CollapseKeepsLegal }
{}

// The link condition of the body and all parts is one equation of masks.
pub fn untied_is_exact()
    ensures { UntiedIsExact }
{}

// A collapse that a part's link condition allows keeps that part's Euler number.
pub fn collapse_keeps_euler()
    ensures { CollapseKeepsEuler }
{}

// The split by a collapse's record takes the collapse back.
pub fn split_inverts()
    ensures { SplitInverts }
{}

// A list of accepted collapses makes a sound model with the Euler numbers of the first.
pub fn made_keeps()
    ensures { MadeKeeps }
{}
