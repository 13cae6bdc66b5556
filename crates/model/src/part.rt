// The body and the marked parts.
pub mod methods;

ghost use Rattle.std.specs.Prelude.{◌<◌};

// The body, part 0, or one of the marked parts.
#[derive(Clone, Copy, Debug, PartialEq, Eq)]
pub struct Part {
    number: u8,
    ghost known: { number < 8 },
}

// No part has this number.
#[derive(Clone, Copy, Debug, PartialEq, Eq)]
pub struct UnknownPart;

// The parts from one on, in order.
#[derive(Clone, Debug, Drop)]
pub struct Parts {
    next: u8,
}
