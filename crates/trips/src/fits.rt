// What the types of the code say of a bench: each number fits its bytes. These functions do nothing; their contracts are the facts.
ghost use Rattle.bigendian.specs.Bytes.{All};
ghost use Rattle.layout.specs.Fits.{FitDetails, FitPurse, FitMessage, FitEntry};
ghost use Rattle.layout.specs.Image.{Fits};
ghost use Rattle.rules.specs.Laid.{seen};

use desk::{Entry, Held};
use purse::{Details, Message, Purse};

trait Fit: Copy {
    ghost IsFit: { Self → Type 0 };

    fn fits(self)
        ensures { IsFit self };
}

impl Fit for Details {
    ghost IsFit = { FitDetails };

    fn fits(self) {}
}

impl Fit for Purse {
    ghost IsFit = { FitPurse };

    fn fits(self) {
        self.details.fits();
        all_fit(&self.log);
    }
}

impl Fit for Message {
    ghost IsFit = { FitMessage };

    fn fits(self) {
        self.details.fits();
    }
}

impl Fit for Entry {
    ghost IsFit = { FitEntry };

    fn fits(self) {
        self.details.fits();
    }
}

fn all_fit<T: Fit>(xs: &[T])
    ensures { All T.IsFit xs.now }
{
    for x in xs {
        x.fits();
    }
}

pub(crate) fn held_fits(held: &Held)
    ensures { Fits (seen held.now) }
{
    all_fit(&held.table);
    all_fit(&held.desk.ether.places);
    all_fit(&held.desk.archive.places);
}
