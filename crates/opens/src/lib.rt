// A bench opened with given balances, whatever it held before.
#![tactic(auto)]

ghost use Rattle.std.specs.Prelude.{◌≡◌, ◌≤◌, length};
ghost use Rattle.purse.specs.Lists.{all};
ghost use Rattle.purse.specs.Refusals.{answer_of};
ghost use Rattle.rules.specs.Run.{opening_number, opened};
ghost use Rattle.rules.specs.Laid.{laid, held_opening};
ghost use Rattle.opens.specs.Opens.{within};

use desk::{Answered, Desk, Held};
use purse::{Amount, Purse, Refusal, refuse_if};

fn is_within(balance: u32) -> bool
    ensures { result ≡ within balance }
{
    balance <= Purse::opened(Amount(balance)).ceiling().0
}

// Whether every balance is within the ceiling of its purse.
fn all_within(balances: &[u32]) -> bool
    ensures { result ≡ all within balances.now }
{
    balances.iter().all(|balance| is_within(*balance))
}

#[tactic(auto, unfolding(rules::specs::Run::opening_number))]
fn check_opening(balances: &[u32]) -> Result<(), Refusal>
    ensures { answer_of result ≡ opening_number balances.now }
{
    refuse_if(!(1..=32).contains(&balances.len()), Refusal::BadCount)?;
    refuse_if(!all_within(balances), Refusal::BalanceAboveCeiling)
}

// The purses from place 0, zero behind them; no messages, no entries.
#[tactic(auto, using(crate::proofs::OpenedTable::table_more, crate::proofs::OpenedTable::opened_laid))]
fn opened(balances: &[u32]) -> Held
    requires { length balances.now ≤ 32 }
    ensures { result ≡ laid (opened balances.now) }
{
    let mut table = [Purse::default(); 32];
    for (i, balance) in balances.iter().enumerate() {
        table[i] = Purse::opened(Amount(*balance));
    }
    Held {
        table,
        desk: Desk::opened(balances.len() as u8),
    }
}

#[tactic(auto, using(purse::proofs::Refusals::not_done, crate::proofs::OpenedTable::few), unfolding(rules::specs::Laid::held_opening))]
pub fn opening(held: Held, balances: &[u32]) -> Answered
    ensures { result ≡ held_opening held balances.now }
{
    match check_opening(balances) {
        Ok(()) => Answered {
            answer: 0,
            held: opened(balances),
        },
        Err(why) => Answered {
            answer: u8::from(why),
            held,
        },
    }
}
