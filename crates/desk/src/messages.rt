// The ether's states: opened, with a message more, with one less.
ghost use Rattle.std.specs.Prelude.{◌≡◌};
ghost use Rattle.desk.specs.Desk.{empty_ether, appended, taken_out};

use crate::{Changed, Ether, append};
use purse::Message;

impl Ether {
    pub fn empty() -> Ether
        ensures { result ≡ empty_ether }
    {
        Ether {
            places: [Message::default(); 256],
            count: 0,
        }
    }

    // The message at the end of the others; lost where 256 stand.
    #[tactic(auto, unfolding(crate::specs::Desk::appended))]
    pub fn add(self, m: Message) -> Changed
        ensures { result ≡ appended self m }
    {
        let mut ether = self;
        let kept = append(&mut ether.places, &mut ether.count, m);
        Changed { ether, lost: !kept }
    }

    // The message at that place out, the later ones one place down; nothing goes where none stands.
    #[tactic(auto, unfolding(crate::specs::Desk::taken_out))]
    pub fn take_out(self, at: usize) -> Changed
        ensures { result ≡ taken_out self at }
    {
        let stand = self.count as usize;
        if at < stand && stand <= 256 {
            let mut ether = self;
            ether.places.copy_within(at + 1.., at);
            ether.places[255] = Message::default();
            ether.count -= 1;
            Changed { ether, lost: true }
        } else {
            Changed {
                ether: self,
                lost: false,
            }
        }
    }
}
