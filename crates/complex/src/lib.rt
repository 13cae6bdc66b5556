// The mathematics of models: each function stands for the theorem that its contract names.
#![tactic(auto)]

ghost use Rattle.complex.specs.Laws.{OrderAsTold, WriteChangesOne, MasksTellModels, FacesAreSubsets};

// The order of simplexes is the one told, and a lawful order.
pub fn order_as_told()
    ensures { OrderAsTold }
{}

// A write changes one simplex.
pub fn write_changes_one()
    ensures { WriteChangesOne }
{}

// Equal models have the same simplexes with the same masks.
pub fn masks_tell_models()
    ensures { MasksTellModels }
{}

// The faces of a simplex are its non-empty subsets.
pub fn faces_are_subsets()
    ensures { FacesAreSubsets }
{}
