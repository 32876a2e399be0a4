// The archive's states: opened, and with an entry more.
ghost use Rattle.std.specs.Prelude.{◌≡◌};
ghost use Rattle.desk.specs.Desk.{empty_archive, stored};

use crate::{Archive, Entry, append};

impl Archive {
    pub fn empty() -> Archive
        ensures { result ≡ empty_archive }
    {
        Archive {
            places: [Entry::default(); 256],
            count: 0,
        }
    }

    // The entry at the end of the others, while there is room.
    #[tactic(auto, unfolding(crate::specs::Desk::stored))]
    pub fn store(self, e: Entry) -> Archive
        ensures { result ≡ stored self e }
    {
        let mut next = self;
        append(&mut next.places, &mut next.count, e);
        next
    }
}
