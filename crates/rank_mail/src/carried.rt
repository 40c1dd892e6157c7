use crate::rule::Hand;
use bern_base::Letter;
use crossbeam_queue::SegPass;
use std::marker::Model;

/// A closed box: what was posted in it and what was taken. It has no bytes.
#[derive(Drop)]
pub(crate) struct Closed {
    pass: SegPass<Letter, Hand>,
}

impl Model for Closed {
    ghost use Rattle.std.specs.Prelude.{◌≡◌};
    ghost use Rattle.rank_mail.specs.Lanes.{Haul};

    ghost Value = { Haul };

    ghost use Rattle.rank_mail.specs.Hands.{IsClosed};

    ghost view = { λ c. record { route = c.pass.me.view.client.route; posted = c.pass.me.view.client.posted; taken = c.pass.me.view.client.taken } };

    ghost invariant = { λ c. IsClosed c.pass.me.view.client };
}

impl Closed {
    ghost use Rattle.std.specs.Prelude.{◌≡◌};
    ghost use Rattle.rank_mail.specs.Hands.{IsClosed, AreFronts};

    /// Keeps the pass of a closed box.
    pub(crate) fn new(pass: SegPass<Letter, Hand>) -> Closed
        requires { IsClosed pass.me.view.client }
        ensures { result ≡
            record { route = pass.me.view.client.route; posted = pass.me.view.client.posted; taken = pass.me.view.client.taken } }
    {
        Closed { pass }
    }

    /// What was taken is a front of what was posted, and this a front of the book.
    pub(crate) fn in_order(&self)
        ensures { AreFronts self.now.taken self.now.posted self.now.route.book }
    {
        let _pass = &self.pass;
    }
}
