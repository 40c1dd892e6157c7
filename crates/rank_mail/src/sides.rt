//! The two sides of a box.
ghost use Rattle.std.specs.Prelude.{◌≡◌, [], ◌∷◌, ◌++◌, IfOk, IfErr, IsNone, IfSome, MatchOption, OnOk, OnErr};
ghost use Rattle.crossbeam_queue.specs.SegTies.{IsSegPassOf};
ghost use Rattle.rank_scripts.specs.Scripts.{IsNextOf};
ghost use Rattle.rank_mail.specs.declared.rule.Role.TheVariants.{Receives, Sends};
ghost use Rattle.rank_mail.specs.Hands.{whole, receives, sends, joined, AreFronts};
ghost use Rattle.rank_mail.specs.Lanes.{Lane, Books, AreNewSides, grown, haul_of};

use crate::carried::Closed;
use crate::mailbox::Mailbox;
use crate::rule::{Both, Course, Hand, InOrder, Line, Posted, Roles, Taken, Total};
use bern_base::{Letter, NoMemory};
use crossbeam_queue::SegPass;
use std::alloc::Global;
use std::marker::{Brand, Model};
use std::sync::{Arc, Wait};

/// The side that posts.
#[derive(Drop)]
pub(crate) struct Outgoing {
    mail: Arc<Mailbox, Global>,
    pass: SegPass<Letter, Hand>,
}

impl Model for Outgoing {
    ghost use Rattle.std.specs.Prelude.{◌≡◌};
    ghost use Rattle.std.specs.Arc.{arc_value};
    ghost use Rattle.crossbeam_queue.specs.SegTies.{IsSegPassOf};
    ghost use Rattle.rank_mail.specs.Lanes.{Lane};

    ghost Value = { Lane };

    ghost use Rattle.rank_mail.specs.Hands.{sends};

    ghost view = { λ o. record { mail = arc_value o.mail; route = o.pass.me.view.client.route; letters = o.pass.me.view.client.posted } };

    ghost invariant = { λ o. IsSegPassOf (arc_value o.mail) o.pass × (o.pass.me.view.client ≡ sends o.pass.me.view.client.route o.pass.me.view.client.posted) };
}

/// The side that takes.
#[derive(Drop)]
pub(crate) struct Incoming {
    mail: Arc<Mailbox, Global>,
    pass: SegPass<Letter, Hand>,
}

impl Model for Incoming {
    ghost use Rattle.std.specs.Prelude.{◌≡◌};
    ghost use Rattle.std.specs.Arc.{arc_value};
    ghost use Rattle.crossbeam_queue.specs.SegTies.{IsSegPassOf};
    ghost use Rattle.rank_mail.specs.Lanes.{Lane};

    ghost Value = { Lane };

    ghost use Rattle.rank_mail.specs.Hands.{receives};

    ghost view = { λ o. record { mail = arc_value o.mail; route = o.pass.me.view.client.route; letters = o.pass.me.view.client.taken } };

    ghost invariant = { λ o. IsSegPassOf (arc_value o.mail) o.pass × (o.pass.me.view.client ≡ receives o.pass.me.view.client.route o.pass.me.view.client.taken) };
}

/// A new box from one rank to another: its two sides.
pub(crate) fn open(alloc: Global, from: u32, to: u32) -> Result<(Outgoing, Incoming), NoMemory>
    ghost books: { Books }
    ensures { IfOk result (λ sides. AreNewSides books from to sides.0 sides.1) }
{
    let (line, mut receiver) = Line::with_rule(alloc)?;
    let sender = split::<Brand>(&line, &mut receiver, from, to);
    let mail = Arc::new(alloc, Mailbox::new(line))?;
    let other = Arc::try_clone(&mail)?;
    let out = Outgoing { mail, pass: sender };
    let into = Incoming {
        mail: other,
        pass: receiver,
    };
    Ok((out, into))
}

// `from` and `to` tell the proof which box it is.
fn split<C: Course>(
    line: &Line,
    receiver: &mut SegPass<Letter, Hand>,
    _from: u32,
    _to: u32,
) -> SegPass<Letter, Hand>
    requires pass { IsSegPassOf line.now receiver.old }
    requires whole { receiver.old.me.view.client ≡ whole }
    ensures receiver { IsSegPassOf line.now receiver.new × (receiver.new.me.view.client ≡ receives C.route []) }
    ensures sender { IsSegPassOf line.now result × (result.me.view.client ≡ sends C.route []) }
{
    line.another::<Roles<C>>(receiver)
}

impl Outgoing {
    /// Posts the next letter of the book; after want of memory nothing was posted, and the letter comes back.
    pub(crate) fn post<R: Wait>(&mut self, rt: &R, letter: Letter) -> Result<(), Letter>
        requires { IsNextOf self.old.route.book self.old.letters letter }
        ensures ok { OnOk result (self.new ≡ grown self.old letter) }
        ensures err { OnErr result (self.new ≡ self.old) }
        ensures back { IfErr result (λ back. back ≡ letter) }
    {
        let line = self.mail.line();
        line.push_as::<Posted, R>(rt, &mut self.pass, letter)
    }
}

impl Incoming {
    /// Takes the oldest letter, if the box has one: the next of the book.
    pub(crate) fn take<R: Wait>(&mut self, rt: &R) -> Option<Letter>
        ensures some { IfSome result (λ letter. self.new ≡ grown self.old letter) }
        ensures next { IfSome result (λ letter. IsNextOf self.old.route.book self.old.letters letter) }
        ensures none { IsNone result → self.new ≡ self.old }
    {
        let line = self.mail.line();
        line.pop_as::<Taken, R>(rt, &mut self.pass)
    }
}

/// Closes a box: its sides meet, and the box goes, with the letters that nobody took.
pub(crate) fn close<R: Wait>(rt: &R, out: Outgoing, into: Incoming) -> Closed
    requires { out.mail ≡ into.mail }
    ensures closed { result ≡ haul_of out into }
    ensures in_order { AreFronts into.letters out.letters into.route.book }
{
    let Outgoing { mail, pass: sender } = out;
    let Incoming {
        mail: same,
        pass: mut receiver,
    } = into;
    meet(rt, mail.line(), &mut receiver, sender);
    drop(mail);
    drop(same);
    Closed::new(receiver)
}

// The receiver's pass takes in the sender's, and learns that what they know is in order.
fn meet<R: Wait>(
    rt: &R,
    line: &Line,
    receiver: &mut SegPass<Letter, Hand>,
    sender: SegPass<Letter, Hand>,
)
    requires receiver { IsSegPassOf line.now receiver.old × (receiver.old.me.view.client.role ≡ Receives) }
    requires sender { IsSegPassOf line.now sender × (sender.me.view.client.role ≡ Sends) }
    ensures joined { receiver.new.me.view.client ≡
        joined receiver.old.me.view.client.route sender.me.view.client.posted receiver.old.me.view.client.taken }
    ensures fronts { AreFronts receiver.old.me.view.client.taken sender.me.view.client.posted receiver.old.me.view.client.route.book }
{
    line.absorb::<Both>(receiver, sender);
    line.len_as::<Total, R>(rt, receiver);
}
