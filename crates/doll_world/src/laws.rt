//! What a renderer may rest on.

ghost use Rattle.doll_world.specs.Renderers.{HandedInIsSound, HitsAreFound};

/// A hit of a world may be found by a renderer of whichever place of the history: it is what each block shows that asks so.
pub fn hits_are_found()
    ensures { HitsAreFound }
{}

/// What a renderer of whichever place of the history hands in is sound for the history, so that it may be written.
pub fn handed_in_is_sound()
    ensures { HandedInIsSound }
{}
