// Shut: any store becomes cold, and nothing is written, since no rack is lent.
ghost use Rattle.std.specs.Prelude.{◌≡◌};
ghost use Rattle.model.specs.Store.{cold};
ghost use Rattle.recovery.specs.Views.{cold_in};

use crate::{Applying, Cold, Collecting};
use warm::Warm;

// A state of a store.
pub trait Shut: Sized {
    // The store, cold. It has no body here, which would drop the store: a state that cannot be dropped shuts by one of its own.
    fn shut(self) -> Cold
        ensures { cold_in result ≡ cold };
}

impl Shut for Cold {
    fn shut(self) -> Cold {
        self
    }
}

impl Shut for Collecting {
    fn shut(self) -> Cold {
        Cold
    }
}

impl Shut for Applying {
    fn shut(self) -> Cold {
        Cold
    }
}

impl Shut for Warm {
    fn shut(self) -> Cold {
        Cold
    }
}
