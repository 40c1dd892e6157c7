//! The rule of a box: what its sender and its receiver know of it, and what each step on it asks and tells.
//!
//! The types here exist in proofs alone; no value of them is made.
use bern_base::Letter;
use crossbeam_queue::RuledSegQueue;
use crossbeam_queue::protocol::{Join, Lesson, Outcome, Protocol, Split};
use std::collections::LinkedList;
use std::marker::{Brand, PhantomData};

/// Which box: its sender, its receiver, and its book, the letters that are to go through it.
pub struct Route {
    pub from: u32,
    pub to: u32,
    pub book: LinkedList<Letter>,
}

/// What a pass may do.
pub enum Role {
    /// All, in a box that is not in use yet.
    Whole,
    /// Pop.
    Receives,
    /// Push.
    Sends,
    /// Nothing more: the box is closed, and this pass knows what went through it.
    Joined,
    /// Nothing, and it knows nothing.
    Spent,
}

/// What a pass knows: its role, its box, what was posted and what was taken.
pub struct Hand {
    pub role: Role,
    pub route: Route,
    pub posted: LinkedList<Letter>,
    pub taken: LinkedList<Letter>,
}

/// The box that a call of `split` is to be.
pub trait Course {
    ghost use Rattle.rank_mail.specs.declared.rule.Route.{Route};

    ghost route: { Route };
}

impl Course for Brand {
    ghost use Rattle.rank_mail.specs.Hands.{nowhere};

    ghost route = { nowhere };
}

/// What was posted is what was taken and then what the box holds, and it is a front of the book.
pub struct InOrder;

impl Protocol<Letter, Hand> for InOrder {
    ghost use Rattle.rank_mail.specs.Hands.{IsBox, whole};

    ghost holds = { IsBox };

    ghost first = { whole };
}

/// The one pass of a new box becomes its receiver's, and the new one its sender's.
pub struct Roles<C> {
    of: PhantomData<C>,
}

impl<C: Course> Split<Hand> for Roles<C> {
    ghost use Rattle.std.specs.Prelude.{[]};
    ghost use Rattle.rank_mail.specs.Hands.{receives, sends};

    ghost left = { λ v. receives C.route [] };

    ghost right = { λ v. sends C.route [] };
}

/// The receiver's pass takes in what the sender's knows.
pub struct Both;

impl Join<Hand> for Both {
    ghost use Rattle.rank_mail.specs.Hands.{joined, spent};

    ghost both = { λ v w. joined v.route w.posted v.taken };

    ghost spent = { spent };
}

/// A letter was posted.
pub struct Posted;

impl Outcome<Letter, Hand> for Posted {
    ghost use Rattle.std.specs.Prelude.{◌≡◌, [], ◌∷◌, ◌++◌};
    ghost use Rattle.rank_mail.specs.Hands.{sends};

    ghost then = { λ v x w. w ≡ sends v.route (v.posted ++ x ∷ []) };
}

/// A letter was taken: the next one of the book.
pub struct Taken;

impl Outcome<Letter, Hand> for Taken {
    ghost use Rattle.rank_mail.specs.Hands.{IsTaken};

    ghost then = { λ v x w. IsTaken v x w };
}

impl Lesson<Letter, Hand> for Taken {
    ghost fact = { λ v items. Unit {0} };
}

/// What a joined pass knows is in order.
pub struct Total;

impl Lesson<Letter, Hand> for Total {
    ghost use Rattle.rank_mail.specs.Hands.{AreFronts};

    ghost fact = { λ v items. AreFronts v.taken v.posted v.route.book };
}

/// The queue of a box.
pub type Line = RuledSegQueue<Letter, Hand, InOrder>;
