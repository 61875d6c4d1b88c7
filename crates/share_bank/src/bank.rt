//! A bank with two accounts, as a machine that answers orders.
ghost use Rattle.std.specs.Prelude.{◌≡◌, IfOk};
ghost use Rattle.share_bank.specs.Balances.{opening, left_of, answer_to, after};

use m3_terms::{NoMemory, Steps};
use space_turn::Machine;
use std::alloc::Global;
use std::marker::Model;
use std::sync::ledger::Ledger;
use std::thread::Threads;

/// What an order does to its account.
#[derive(Clone, Copy)]
pub enum Change {
    Deposit(u64),
    Withdraw(u64),
    Look,
}

/// An order: the account, and the change.
#[derive(Clone, Copy)]
pub struct Order {
    pub account: usize,
    pub change: Change,
}

/// A bank. Contracts see the balances of its accounts.
#[derive(Drop)]
pub struct Bank {
    balances: Vec<u64>,
}

impl Model for Bank {
    ghost use Rattle.std.specs.Prelude.{List, ℕ};

    ghost Value = { List ℕ };

    ghost view = { λ bank. bank.balances.items };
}

impl Change {
    /// The balance that the change leaves, or `None` where it is refused.
    fn left_of(self, balance: u64) -> Option<u64>
        ensures { result ≡ left_of balance self }
    {
        match self {
            Change::Deposit(amount) => {
                if amount <= u64::MAX - balance {
                    Some(balance + amount)
                } else {
                    None
                }
            }
            Change::Withdraw(amount) => {
                if amount <= balance {
                    Some(balance - amount)
                } else {
                    None
                }
            }
            Change::Look => Some(balance),
        }
    }
}

impl Bank {
    /// A bank with nothing on its accounts.
    pub fn new(alloc: Global) -> Result<Bank, NoMemory>
        ensures { IfOk result (λ bank. bank ≡ opening) }
    {
        let mut balances = Vec::with_capacity(alloc, 2)?;
        balances.push_reserved(0);
        balances.push_reserved(0);
        Ok(Bank { balances })
    }

    // Answers an order.
    fn answer(&mut self, order: Order) -> Option<u64>
        ensures answer { result ≡ answer_to self.old order }
        ensures balances { self.new ≡ after self.old order }
    {
        let balance = *self.balances.get(order.account)?;
        let left = order.change.left_of(balance)?;
        self.balances[order.account] = left;
        Some(left)
    }
}

impl Machine for Bank {
    ghost use Rattle.std.specs.Prelude.{◌≡◌, ⊤};
    ghost use Rattle.share_bank.specs.Balances.{opening, answer_to, balances_after};

    type Call = Order;

    type Reply = Option<u64>;

    type Root = ();

    ghost root = { λ _. tt };

    ghost some_root = { tt };

    ghost stands = { λ bank orders. bank ≡ balances_after opening orders };

    ghost replies = { λ _ orders order. answer_to (balances_after opening orders) order };

    ghost lean = { λ _. ⊤ };

    #[tactic(auto, using(crate::proofs::OneOrderMore::one_order_more))]
    fn step<R: Threads + Sync, L: Ledger>(
        &mut self,
        _alloc: Global,
        _rt: &R,
        order: Order,
        _steps: &mut Steps<L>,
    ) -> Result<Option<u64>, NoMemory> {
        Ok(self.answer(order))
    }
}
