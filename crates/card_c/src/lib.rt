// The slot that a card is put in: "A card owns one purse record and updates that record where it stands in card memory." The record is lent,
// one order at a time; what the card does is the crate card's step, by value.
#![tactic(auto)]

ghost use Rattle.std.specs.Prelude.{◌≡◌};
ghost use Rattle.purse.specs.Card.{step_by};
ghost use Rattle.card_c.specs.Order.{told_of, handed_of};

use card::step;
use purse::{Amount, CardEvent, Details, Message, Name, Purse, Seq};

// What a card is told, as a foreign caller writes it: kind 1 start-from, 2 start-to, 4 abort, 6 collect, 8 load, every other number
// a message.
#[repr(C)]
#[derive(Clone, Copy)]
pub struct Order {
    pub kind: u8,
    pub other: Name,
    pub seq: Seq,
    pub amount: Amount,
    pub message: Message,
}

// What a card hands out: the number, and the message to send or the entry collected, or all zero.
#[repr(C)]
#[derive(Clone, Copy)]
pub struct Handed {
    pub answer: u8,
    pub message: Message,
    pub entry: Details,
}

impl From<Order> for CardEvent {
    ghost from_gives = { λ order event. event ≡ told_of order };

    #[tactic(auto, unfolding(crate::specs::Order::told_of))]
    fn from(order: Order) -> CardEvent {
        let Order {
            other,
            seq,
            amount,
            ..
        } = order;
        match order.kind {
            1 => CardEvent::StartFrom { other, seq, amount },
            2 => CardEvent::StartTo { other, seq, amount },
            4 => CardEvent::Abort,
            6 => CardEvent::Collect,
            8 => CardEvent::Load(amount),
            _ => CardEvent::Deliver(order.message),
        }
    }
}

// The card's entry: the record is copied out, stepped by value and stored back where it stands.
#[unsafe(no_mangle)]
pub extern "C" fn prs_card(purse: &mut Purse, own: Name, order: Order) -> Handed
    ensures { (result ≡ handed_of (step_by purse.old own (told_of order))) × (purse.new ≡ (step_by purse.old own (told_of order)).purse) }
{
    let turned = step(*purse, own, order.into());
    *purse = turned.purse;
    Handed {
        answer: turned.answer,
        message: turned.message,
        entry: turned.entry,
    }
}
