// A look at what comes next, which leaves the place as it was.
ghost use Rattle.std.specs.Prelude.{◌≡◌};

use lines::Place;

// Borrows the place, which may move while the look lasts, and puts it back when the look ends.
pub(crate) struct Look<'a> {
    pub(crate) place: &'a mut Place,
    pub(crate) saved: Place,
}

impl Drop for Look<'_> {
    fn drop(self)
        ensures after { self.exit.0.now ≡ self.entry.saved }
    {
        *self.place = self.saved;
        let Look { place: _, saved: _ } = self;
    }
}
