// A fragment of a template, as it is told in a module.
ghost use Rattle.std.specs.Prelude.{◌<◌};

// A placeholder, by its place in the pattern, and whether it is the receiver of a method call.
#[derive(Clone, Copy)]
pub struct Hole {
    pub slot: u8,
    pub is_receiver: bool,
    pub ghost low: { slot < 8 },
}

// Bytes, or a placeholder.
#[derive(Clone, Copy)]
pub enum Fragment<'a> {
    Fixed(&'a [u8]),
    Captured(Hole),
}
