//! What holds of the net of every term.

ghost use Rattle.net_build.specs.Example.{ExampleNet};
ghost use Rattle.net_build.specs.Laws.{NetSize, BuiltSound};

/// A term of size s and height h has a net of at most s * (2 h + 4) wires and as many nodes.
pub fn law_net_size()
    ensures { NetSize }
{}

/// The net of every closed term of type `nat` is sound.
pub fn law_built_sound()
    ensures { BuiltSound }
{}

/// The net of `(fun x:nat. x + x) 3`, as it is listed.
pub fn law_example_net()
    ensures { ExampleNet }
{}
