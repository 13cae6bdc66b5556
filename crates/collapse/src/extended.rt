// The theorem about the extended complex.
ghost use Rattle.collapse.specs.Extended.{ExtendedLink};

// With the edge held, the link conditions of the body and all parts are one condition in the extended complex.
pub fn extended_link()
    ensures { ExtendedLink }
{}
